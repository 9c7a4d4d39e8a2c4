//! A host that begins more messages than the tool keeps open, and then asks.

ghost use Rattle.std.specs.Prelude.{None, false};

use crate::played_program::{FRONT, TestFiles, TestInput, TestOutput, disk_with, output, words_of};
use crate::tool_runs::EQUIPMENT;
use block_codec::{Block, Header, frame_of};
use gemline_app::gemline;
use gl_base::{Connections, Link, LinkAnswer, LinkIn, NoMemory, Row, Side};
use std::alloc::Global;
use std::test::Fail;

/// A link that gives these characters, all at moment 0, and then is closed.
#[derive(Drop)]
pub(crate) struct Peer<'a> {
    pub(crate) left: &'a [u8],
    pub(crate) connections: Connections,
}

impl<'a> Link for Peer<'a> {
    ghost told = { λ _. None };

    ghost moment = { λ _. 0 };

    ghost health = { λ _. record { faults = 18446744073709551615; reliable = false; room = 0 } };

    ghost connected = { λ s. s.connections };

    fn connect(&mut self, side: Side, address: &str) -> LinkAnswer {
        self.connections.add(side, address);
        LinkAnswer::Done
    }

    fn poll(&mut self, until: u64) -> LinkIn {
        match self.left.split_first() {
            Some((byte, rest)) => {
                self.left = rest;
                LinkIn::Char(*byte, 0)
            }
            None => LinkIn::Closed,
        }
    }

    fn send(&mut self, bytes: &[u8]) -> LinkAnswer {
        LinkAnswer::Done
    }
}

/// A block of the host: its stream, W, function, E bit and system bytes; and its text.
pub(crate) type Sent = (u8, bool, u8, bool, u32, &'static [u8]);

/// ENQ, and the frame of a block.
pub(crate) fn push(characters: &mut Row<u8>, sent: &Sent) -> Result<(), NoMemory> {
    let (stream, wait, function, last, system, text) = *sent;
    let header = Header {
        from_equipment: false,
        device: 0,
        wait,
        stream,
        function,
        last,
        number: 1,
        system,
    };
    characters.push(5)?;
    match Block::new(header, text) {
        Some(block) => characters.extend(frame_of(&block).as_slice()),
        None => Ok(()),
    }
}

/// The answer to the tool's first S1F13.
pub(crate) const ESTABLISHED: Sent = (1, false, 14, true, 0, &[1, 2, 0x21, 1, 0, 1, 0]);

const ASKS: Sent = (1, true, 1, true, 99, b"");

/// EOT and ACK for the tool's S1F13, and its answer; the first blocks of seventeen S2F33; and S1F1, with EOT and ACK
/// for its answer.
fn characters(alloc: Global) -> Result<Row<u8>, NoMemory> {
    let mut characters = Row::of(alloc, &[4, 6])?;
    push(&mut characters, &ESTABLISHED)?;
    for system in 0..17 {
        push(&mut characters, &(2, true, 33, false, system, b"x"))?;
    }
    push(&mut characters, &ASKS)?;
    characters.extend(&[4, 6])?;
    Ok(characters)
}

const BEGUN: &str = "0 E start len=0 base=0\n0 E comms WAIT-CRA\n\
    0 E sent S1F13 W 00000000 0102410747454D4C494E45410131\n0 E tx 05\n\
    0 E tx 188000810D8001000000000102410747454D4C494E45410131044E\n0 E tx 04\n\
    0 E rx S1F14 00000000 01022101000100\n0 E comms COMMUNICATING\n0 E tx 06\n";

/// A block of a message that is kept open.
const TAKEN: &str = "0 E tx 04\n0 E tx 06\n";

const CROWDED: &str = "0 E tx 04\n0 E crowded 00008221000100000010\n0 E tx 06\n0 E tx 04\n\
    0 E rx S1F1 W 00000063 -\n0 E sent S1F2 00000063 0102410747454D4C494E45410131\n0 E tx 0605\n\
    0 E tx 18800001028001000000630102410747454D4C494E454101310426\n0 E closed\n";

fn lines(alloc: Global) -> Result<Row<u8>, NoMemory> {
    let mut lines = Row::of(alloc, BEGUN.as_bytes())?;
    for _ in 0..16 {
        lines.extend(TAKEN.as_bytes())?;
    }
    lines.extend(CROWDED.as_bytes())?;
    Ok(lines)
}

/// The output of the tool that this peer calls.
fn told(alloc: Global, peer: &mut Peer<'_>) -> Option<TestOutput> {
    let words = words_of(alloc, EQUIPMENT).ok()?;
    let mut disk = disk_with(alloc, &[FRONT, b""], 0)?;
    let mut files = TestFiles {
        plan: b"",
        schedule: b"",
        fails: 0,
    };
    let mut input = TestInput {
        left: b"",
        step: 1,
        fails: 0,
    };
    let mut out = output(alloc, 2000, 0);
    let mut err = output(alloc, 100, 0);
    let status = gemline(
        alloc, &words, &mut files, &mut input, &mut out, &mut err, &mut disk, peer,
    );
    if status == 0 { Some(out) } else { None }
}

#[test]
fn a_seventeenth_message_is_refused_and_the_next_one_answered(rt: HostRuntime) -> Result<(), Fail> {
    let alloc = rt.alloc();
    let characters = characters(alloc).map_err(|_| "memory")?;
    let mut peer = Peer {
        left: characters.as_slice(),
        connections: Connections::none(),
    };
    let told = told(alloc, &mut peer).ok_or("the run ends otherwise")?;
    let lines = lines(alloc).map_err(|_| "memory")?;
    assert_eq!(rt; told.bytes.as_slice(), lines.as_slice());
    Ok(())
}
