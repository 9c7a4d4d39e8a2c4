//! Texts that are checked as their blocks come: the checks of open messages, and those of whole ones.

use crate::messages::header;
use block_codec::{Block, Header};
use gl_base::Side;
use message_flow::{Assembly, Flow};
use secs_items::{ItemFault, Verdict};
use std::alloc::Global;

// A host that takes texts of 244 bytes, or of 1,000.
fn short_host(alloc: Global) -> Assembly {
    Assembly::new(alloc, Side::Host, Some(0), 1_000, 244)
}

fn long_host(alloc: Global) -> Assembly {
    Assembly::new(alloc, Side::Host, Some(0), 1_000, 1_000)
}

fn broken_short(at: usize) -> Verdict {
    Verdict::Broken(ItemFault::Short { at })
}

// Whether the check of the message with the header's key says this of so many bytes.
fn is_checked(assembly: &Assembly, header: &Header, fed: u32, verdict: Verdict) -> bool {
    match assembly.checked(header) {
        Some(check) => check.fed() == fed && check.verdict() == verdict,
        None => false,
    }
}

// Whether a block is a part of its message.
fn is_part(assembly: &mut Assembly, header: Header, text: &[u8]) -> bool {
    let Some(block) = Block::new(header, text) else {
        return false;
    };
    matches!(assembly.accept(&block, 0), Ok(Flow::Part))
}

// Whether a block makes its message whole, with a check that says this of so many bytes.
fn is_whole(
    assembly: &mut Assembly,
    header: Header,
    text: &[u8],
    fed: u32,
    verdict: Verdict,
) -> bool {
    let Some(block) = Block::new(header, text) else {
        return false;
    };
    match assembly.accept(&block, 0) {
        Ok(Flow::Whole(message, check)) => {
            message.body.len() == fed as usize && check.fed() == fed && check.verdict() == verdict
        }
        _ => false,
    }
}

// Whether a block is no part of its message: it came before, doesn't follow, or makes the text too long.
fn is_refused(assembly: &mut Assembly, header: Header, text: &[u8]) -> bool {
    let Some(block) = Block::new(header, text) else {
        return false;
    };
    matches!(
        assembly.accept(&block, 0),
        Ok(Flow::Duplicate | Flow::Unexpected | Flow::TooLong)
    )
}

// A binary of 256 bytes, of which 241 come with the first block.
#[test]
fn text_is_checked_block_by_block(rt: HostRuntime) {
    let mut host = long_host(rt.alloc());
    let first = header(0, 1, 1, false);
    let last = header(0, 1, 2, true);
    let mut text = [0x41; 244];
    text[0] = 0x42;
    text[1] = 1;
    text[2] = 0;
    assert!(rt; host.checked(&first).is_none());
    assert!(rt; is_part(&mut host, first, &text));
    assert!(rt; is_checked(&host, &first, 244, broken_short(244)));
    assert!(rt; is_checked(&host, &last, 244, broken_short(244)));
    assert!(rt; is_whole(&mut host, last, &[0x41; 15], 259, Verdict::Whole));
    assert!(rt; host.checked(&first).is_none());
}

// The blocks of two messages come by turns; one comes twice.
#[test]
fn each_message_has_its_check(rt: HostRuntime) {
    let mut host = long_host(rt.alloc());
    let bad = Verdict::Broken(ItemFault::NoLengthBytes { at: 0 });
    assert!(rt; is_part(&mut host, header(0, 1, 1, false), &[0x41]));
    assert!(rt; is_part(&mut host, header(0, 2, 1, false), &[0xB0]));
    assert!(rt; is_refused(&mut host, header(0, 2, 1, false), &[0xB0]));
    assert!(rt; is_checked(&host, &header(0, 1, 9, true), 1, broken_short(1)));
    assert!(rt; is_checked(&host, &header(0, 2, 1, false), 1, bad));
    assert!(rt; is_part(&mut host, header(0, 1, 2, false), &[1]));
    assert!(rt; is_checked(&host, &header(0, 1, 1, false), 2, broken_short(2)));
    assert!(rt; is_checked(&host, &header(0, 2, 1, false), 1, bad));
    assert!(rt; is_whole(&mut host, header(0, 2, 2, true), &[0], 2, bad));
    assert!(rt; is_whole(&mut host, header(0, 1, 3, true), &[0x41], 3, Verdict::Whole));
}

// A message that ends leaves no check behind, and the next one of its key begins anew. (A block of another message
// comes between, else the first one is a duplicate.)
#[test]
fn a_check_ends_with_its_message(rt: HostRuntime) {
    let mut host = short_host(rt.alloc());
    let first = header(0, 1, 1, false);
    assert!(rt; is_part(&mut host, first, &[0x49]));
    assert!(rt;
        is_refused(&mut host, header(0, 1, 3, false), b"") && host.checked(&first).is_none()
    );
    assert!(rt; is_part(&mut host, first, &[0x41; 244]));
    assert!(rt;
        is_refused(&mut host, header(0, 1, 2, true), b"x") && host.checked(&first).is_none()
    );
    assert!(rt; is_part(&mut host, first, &[0x49]));
    assert!(rt; host.tick(1_000) == Some(first) && host.checked(&first).is_none());
    assert!(rt; is_whole(&mut host, header(0, 2, 1, true), b"", 0, Verdict::Empty));
    assert!(rt; is_part(&mut host, first, &[0x41]));
    assert!(rt; is_checked(&host, &first, 1, broken_short(1)));
}

#[test]
fn single_blocks_are_checked(rt: HostRuntime) {
    let mut host = short_host(rt.alloc());
    let behind = Verdict::Broken(ItemFault::Trailing { at: 2 });
    assert!(rt; is_whole(&mut host, header(0, 1, 1, true), b"", 0, Verdict::Empty));
    assert!(rt;
        is_whole(
            &mut host,
            header(0, 2, 0, true),
            &[0x41, 0],
            2,
            Verdict::Whole
        )
    );
    assert!(rt; is_whole(&mut host, header(0, 3, 1, true), &[0x01, 0, 0], 3, behind));
    assert!(rt; host.checked(&header(0, 1, 1, true)).is_none());
}
