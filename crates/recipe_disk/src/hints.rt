//! What is kept in memory of each slot, so that a slot is read only where it may be the one that is looked for.

ghost use Rattle.std.specs.Prelude.{◌≡◌, ◌<◌, ℕ, slice_index_or};
ghost use Rattle.recipe_disk.specs.Hints.{hint_in, print_of, shut};
ghost use Rattle.recipe_disk.specs.declared.hints.Hint.{Hint};

use crate::head::{Head, name_of};

/// What is kept of a slot: whether it is open, and of an open one its number and a fingerprint of its name. Of one that
/// isn't open both are 0.
#[derive(Clone, Copy, Debug)]
pub struct Hint {
    pub opened: bool,
    pub print: u32,
    pub number: u64,
}

/// One for each slot, and as many more as there may be slots.
pub type Hints = [Hint; 4096];

// Each byte of a name multiplies by a prime what stands before it.
const PRIME: u64 = 16_777_619;

/// The hint of a slot that isn't open.
pub fn shut_hint() -> Hint
    ensures { result ≡ shut }
{
    Hint {
        opened: false,
        print: 0,
        number: 0,
    }
}

/// Names with other fingerprints are other names.
#[tactic(auto, unfolding(crate::specs::Hints::print_of))]
pub fn fingerprint(name: &[u8]) -> u32
    ensures { result ≡ print_of name.now }
{
    let mut print = 0;
    for byte in name {
        print = (print * PRIME + *byte as u64) % (1 << 32);
    }
    print as u32
}

/// The hint of a slot with this head.
pub fn hint_of(head: &Head) -> Hint
    ensures { result ≡ hint_in head.now }
{
    if !head.opened {
        return shut_hint();
    }
    Hint {
        opened: true,
        print: fingerprint(name_of(head)),
        number: head.number,
    }
}

/// That of a slot.
pub fn hint_at(hints: &Hints, slot: u32) -> Hint
    requires { slot < 4096 }
    ensures { result ≡ slice_index_or hints.now slot result }
{
    hints[slot as usize]
}

/// Those of so many slots of which none is open.
pub fn shut_hints<const N: usize>() -> [Hint; N]
    ensures { (k : ℕ) (d : Hint) → k < N → slice_index_or result k d ≡ shut }
{
    [shut_hint(); N]
}
