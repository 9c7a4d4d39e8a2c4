//! How many slots a body takes, and how long it may be.

ghost use Rattle.std.specs.Prelude.{◌≡◌, ◌≤◌};
ghost use Rattle.spool_file.specs.Sizes.{body_most as most_of, is_too_long as too_long, slots_for as slots_of};

/// How many bytes of a body a slot has room for.
pub const AREA: u32 = 4081;

/// How many slots a body of so many bytes takes.
#[tactic(auto, unfolding(crate::specs::Sizes::slots_for))]
pub fn slots_for(len: u32) -> u32
    ensures slots { result ≡ slots_of len }
    ensures some { 1 ≤ result }
    ensures most { len ≤ 1048576 → result ≤ 257 }
{
    if len == 0 {
        return 1;
    }
    (len - 1) / AREA + 1
}

/// The most bytes of a body in a file of a version.
pub fn body_most(version: u8) -> u32
    ensures most { result ≡ most_of version }
    ensures bound { result ≤ 1048576 }
{
    if version == 1 { AREA } else { 1 << 20 }
}

/// Whether a file of a version, with so many slots, has no room for a body of so many bytes, though it were empty.
pub fn is_too_long(version: u8, slots: u32, len: u32) -> bool
    ensures { result ≡ too_long version slots len }
{
    if len > body_most(version) {
        return true;
    }
    slots < slots_for(len)
}
