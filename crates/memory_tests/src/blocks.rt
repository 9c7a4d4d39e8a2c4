//! Blocks that come while memory is refused: a block that is refused was not given, so that it may be given again.

use block_codec::{Block, Header};
use gl_base::{NoMemory, Side};
use message_flow::{Assembly, Flow};
use std::io::Write;
use std::test::Fail;

// A block of an S6F11 with W: its device, its system bytes, its number, its E bit and its text; and what it is.
type Case = (u16, u32, u16, bool, &'static [u8], &'static str);

// Two messages by turns, a block twice, and blocks that are refused. The text of a message has at most 244 bytes.
static CASES: [Case; 9] = [
    (0, 1, 1, false, b"a", "part"),
    (0, 2, 1, false, b"b", "part"),
    (0, 2, 1, false, b"b", "duplicate"),
    (0, 1, 2, true, b"c", "whole ac"),
    (0, 2, 2, true, b"d", "whole bd"),
    (0, 3, 2, true, b"", "unexpected"),
    (1, 3, 1, true, b"", "foreign 8001"),
    (0, 4, 1, false, &[0; 244], "part"),
    (0, 4, 2, true, b"x", "too long"),
];

fn block_of(case: &Case) -> Option<Block> {
    let (device, system, number, last, text, _) = *case;
    Block::new(
        Header {
            from_equipment: true,
            device,
            wait: true,
            stream: 6,
            function: 11,
            last,
            number,
            system,
        },
        text,
    )
}

// What a block is, in words.
fn told(assembly: &mut Assembly, block: &Block) -> &'static str {
    match assembly.accept(block, 0) {
        Ok(Flow::Part) => "part",
        Ok(Flow::Whole(message, _)) => {
            if message.body.as_slice() == b"ac".as_slice() {
                "whole ac"
            } else if message.body.as_slice() == b"bd".as_slice() {
                "whole bd"
            } else {
                "whole"
            }
        }
        Ok(Flow::Duplicate) => "duplicate",
        Ok(Flow::Foreign(0x8001)) => "foreign 8001",
        Ok(Flow::Foreign(_)) => "foreign",
        Ok(Flow::Unexpected) => "unexpected",
        Ok(Flow::TooLong) => "too long",
        Ok(Flow::Crowded) => "crowded",
        Err(NoMemory) => "no memory",
    }
}

// A receiver, and whether memory was refused to it.
#[derive(Drop)]
struct Host {
    assembly: Assembly,
    was_refused: bool,
}

impl Host {
    // Whether a block is what is said of it, when it is given again where memory was refused.
    fn tells(&mut self, case: &Case) -> bool {
        let Some(block) = block_of(case) else {
            return false;
        };
        let mut word = told(&mut self.assembly, &block);
        if word == "no memory" {
            self.was_refused = true;
            word = told(&mut self.assembly, &block);
        }
        word == case.5
    }

    fn tells_all(&mut self) -> bool {
        for case in &CASES {
            if !self.tells(case) {
                return false;
            }
        }
        true
    }

    // Whether sixteen messages may be open, and no more.
    fn is_crowded(&mut self) -> bool {
        for system in 0..16 {
            if !self.tells(&(0, system, 1, false, b"x", "part")) {
                return false;
            }
        }
        self.tells(&(0, 16, 1, false, b"x", "crowded"))
    }
}

// It writes a line where memory was refused, for `bench/memory`.
#[test]
fn a_block_that_is_refused_was_not_given(rt: HostRuntime) -> Result<(), Fail> {
    let mut host = Host {
        assembly: Assembly::new(rt.alloc(), Side::Host, Some(0), 1_000, 244),
        was_refused: false,
    };
    assert!(rt; host.tells_all());
    assert!(rt; host.is_crowded());
    if host.was_refused {
        let _ = rt.stdout().write_all(b"memory was refused\n");
    }
    Ok(())
}
