//! Where a name is looked for first: slots in buckets, by the fingerprint of their names.

ghost use Rattle.std.specs.Prelude.{◌<◌, ◌≤◌, IfSome};

use crate::hints::{Hints, hint_at};

/// Some slots whose names may be the one that is looked for. It may lack a slot, and have one that isn't such a one any
/// more: the hint and the head of a slot decide, and what isn't found in a bucket is looked for among all slots.
pub type Bucket = [u16; 16];

/// Twice as many places as there may be slots, so that a bucket is seldom full.
pub type Buckets = [Bucket; 512];

// An empty place of a bucket: no slot has this number.
const EMPTY: u16 = u16::MAX;

// The bucket of a fingerprint.
fn bucket_at(print: u32) -> usize
    ensures { result < 512 }
{
    (print % 512) as usize
}

/// The slots that are looked at first for names of this fingerprint.
pub fn bucket_of(buckets: &Buckets, print: u32) -> &Bucket {
    &buckets[bucket_at(print)]
}

// Puts a slot, or none, in the first place where another one stands.
fn replace_first(bucket: &mut Bucket, old: u16, new: u16) {
    for place in 0..16 {
        if bucket[place] == old {
            bucket[place] = new;
            return;
        }
    }
}

/// Puts a slot into the bucket of its name, if that isn't full.
pub fn add_slot(buckets: &mut Buckets, print: u32, slot: u32)
    requires { slot < 4096 }
{
    replace_first(&mut buckets[bucket_at(print)], EMPTY, slot as u16);
}

/// Takes a slot out of the bucket of its name.
pub fn remove_slot(buckets: &mut Buckets, print: u32, slot: u32)
    requires { slot < 4096 }
{
    replace_first(&mut buckets[bucket_at(print)], slot as u16, EMPTY);
}

/// Puts a slot into the bucket of its name, in place of the old one of that name.
pub fn move_slot(buckets: &mut Buckets, print: u32, old: Option<u32>, slot: u32)
    requires old { IfSome old (λ slot. slot < 4096) }
    requires slot { slot < 4096 }
{
    match old {
        Some(old) => remove_slot(buckets, print, old),
        None => {}
    }
    add_slot(buckets, print, slot);
}

/// Buckets without slots.
pub fn empty_buckets() -> Buckets {
    [[EMPTY; 16]; 512]
}

/// The buckets of the first slots that are open.
pub fn buckets_of(hints: &Hints, slots: u32) -> Buckets
    requires { slots ≤ 4096 }
{
    let mut buckets = empty_buckets();
    for slot in 0..slots {
        let hint = hint_at(hints, slot);
        if hint.opened {
            add_slot(&mut buckets, hint.print, slot);
        }
    }
    buckets
}
