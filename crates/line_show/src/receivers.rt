//! The two receivers of a capture's blocks, each of which joins those of the other end to messages.

ghost use Rattle.std.specs.Prelude.{◌≡◌, ◌∷◌, ◌++◌, [], IfOk, List, OnOk};
ghost use Rattle.block_codec.specs.Block.{BlockView};
ghost use Rattle.line_show.specs.Messages.{HaveMet, flow_in};

use block_codec::{Block, LONGEST_TEXT};
use gl_base::{NoMemory, Side};
use message_flow::{Assembly, Flow};
use std::alloc::Global;

/// The longest time that T4 may be, in milliseconds. Nothing waits in a capture.
const T4: u32 = 120_000;

/// Who receives the blocks of a capture: the host those of the equipment, the equipment those of the host.
#[derive(Debug, Drop)]
pub(crate) struct Receivers {
    host: Assembly,
    equipment: Assembly,
}

impl Receivers {
    /// Before any block.
    pub fn new(alloc: Global) -> Receivers
        ensures { HaveMet result [] }
    {
        Receivers {
            host: Assembly::new(alloc, Side::Host, None, T4, LONGEST_TEXT),
            equipment: Assembly::new(alloc, Side::Equipment, None, T4, LONGEST_TEXT),
        }
    }

    /// What a block is behind those that were given so far.
    pub fn accept(&mut self, block: &Block) -> Result<Flow, NoMemory>
        ensures flow { (before : List BlockView) → HaveMet self.old before
            → IfOk result (λ flow. flow ≡ flow_in before block.now) }
        ensures met { (before : List BlockView) → HaveMet self.old before
            → OnOk result (HaveMet self.new (before ++ block.now ∷ [])) }
    {
        if block.header().from_equipment {
            self.host.accept(block, 0)
        } else {
            self.equipment.accept(block, 0)
        }
    }
}
