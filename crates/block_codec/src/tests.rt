use super::*;
use std::test::Fail;

// S1F1 from the host to device 0, with W: one block without a body.
const ARE_YOU_THERE: [u8; SHORTEST_FRAME] = [
    0x0A, 0x00, 0x00, 0x81, 0x01, 0x80, 0x01, 0x00, 0x00, 0x00, 0x01, 0x01, 0x04,
];

const HEADER: Header = Header {
    from_equipment: false,
    device: 0,
    wait: true,
    stream: 1,
    function: 1,
    last: true,
    number: 1,
    system: 1,
};

// A header with every bit of device, stream, function and number set, and four different system bytes.
const FULL_HEADER: Header = Header {
    from_equipment: true,
    device: 0x7FFF,
    wait: false,
    stream: 0x7F,
    function: 0xFF,
    last: false,
    number: 0x7FFF,
    system: 0x12_34_56_78,
};

#[test]
fn reads_a_frame(rt: HostRuntime) -> Result<(), Fail> {
    let block = block_of(&ARE_YOU_THERE)?;
    assert_eq!(rt; block.header(), HEADER);
    assert!(rt; block.body().is_empty());
    assert_eq!(rt; frame_of(&block).as_slice(), ARE_YOU_THERE.as_slice());
    Ok(())
}

fn has_fault(bytes: &[u8], fault: BlockFault) -> bool {
    block_of(bytes).err() == Some(fault)
}

#[test]
fn refuses_what_is_no_frame(rt: HostRuntime) -> Result<(), Fail> {
    let mut wrong_sum = ARE_YOU_THERE;
    wrong_sum[12] = 0x05;
    let sum = BlockFault::Sum {
        got: 0x0105,
        want: 0x0104,
    };
    assert!(rt; has_fault(&wrong_sum, sum));
    assert!(rt; has_fault(&[0x09], BlockFault::Length(9)));
    assert!(rt; has_fault(&[0xFF], BlockFault::Length(255)));
    assert!(rt; has_fault(&[0x0A, 0x00], BlockFault::Short { at: 2 }));
    assert!(rt; has_fault(&[], BlockFault::Short { at: 0 }));
    let mut longer = [0; 14];
    longer[..13].copy_from_slice(&ARE_YOU_THERE);
    assert!(rt; has_fault(&longer, BlockFault::Long { at: 13 }));
    Ok(())
}

#[test]
fn writes_and_reads_the_longest_frame(rt: HostRuntime) -> Result<(), Fail> {
    let body = [0xFF; LONGEST_BODY];
    let block = Block::new(FULL_HEADER, &body).ok_or("a block")?;
    let frame = frame_of(&block);
    assert_eq!(rt; frame.len(), LONGEST_FRAME);
    let header = [
        0xFE, 0xFF, 0xFF, 0x7F, 0xFF, 0x7F, 0xFF, 0x12, 0x34, 0x56, 0x78,
    ];
    assert_eq!(rt; &frame.as_slice()[..11], header.as_slice());
    // 62,220 of the body, 1,274 of the header's first six bytes and 276 of its system bytes
    assert_eq!(rt; &frame.as_slice()[255..], [0xF9, 0x1A].as_slice());
    let read = block_of(frame.as_slice())?;
    assert_eq!(rt; read.header(), FULL_HEADER);
    assert_eq!(rt; read.body(), body.as_slice());
    Ok(())
}

fn is_refused(header: Header) -> bool {
    !header.fits() && Block::new(header, &[]).is_none()
}

#[test]
fn refuses_what_is_no_block(rt: HostRuntime) -> Result<(), Fail> {
    assert!(rt; Block::new(HEADER, &[0; LONGEST_BODY + 1]).is_none());
    let device = Header {
        device: 32_768,
        ..HEADER
    };
    let stream = Header {
        stream: 128,
        ..HEADER
    };
    let number = Header {
        number: 32_768,
        ..HEADER
    };
    assert!(rt; is_refused(device) && is_refused(stream) && is_refused(number));
    Ok(())
}
