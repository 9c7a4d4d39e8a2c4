//! How many slots each message of a spool takes, read off its disk where it is taken up.

ghost use Rattle.std.specs.Prelude.{◌≡◌, ◌+◌, ◌<◌, ◌≤◌};
ghost use Rattle.spool_slots.specs.Changes.{IsInReach};
ghost use Rattle.equipment_node.specs.StartSizes.{ReadsSize, ReadsSizes, held_size};

use disk_base::Disk;
use gl_base::{NoMemory, Row};
use spool_file::{SLOT_SIZE, slots_for};
use spool_slots::{OldestAnswer, Spool};
use std::alloc::Global;

/// Why the sizes weren't read.
#[derive(Clone, Copy, Debug, PartialEq, Eq)]
pub(crate) enum Unsized {
    Failed,
    NoMemory,
}

/// Reads how many slots each message takes, the oldest one's first, in one call of the disk a message. Each takes a
/// slot at least, and together they take those that are used, whatever a disk says that tells nothing. The spool stays
/// as it is.
pub(crate) fn read_sizes<D: Disk>(alloc: Global, spool: &mut Spool<D>) -> Result<Row<u16>, Unsized>
    ensures { ReadsSizes D.Disk spool.old spool.new result }
{
    let count = spool.len();
    let mut left = spool.used();
    let mut number = spool.first();
    let mut sizes = Row::new(alloc);
    'messages: for at in 0..count {
        let Some(size) = read_size(spool, number, left, count - 1 - at) else {
            return Err(Unsized::Failed);
        };
        let Ok(()) = sizes.push(size as u16) else {
            return Err(Unsized::NoMemory);
        };
        number += u64::from(size);
        left -= size;
    }
    Ok(sizes)
}

// How many slots the message of a number takes, where so many are used from it on, by so many messages behind it; none
// where the disk fails.
fn read_size<D: Disk>(spool: &mut Spool<D>, number: u64, left: u32, behind: u32) -> Option<u32>
    requires reach { IsInReach spool.old number }
    requires left { number + left ≡ spool.old.next }
    requires some { behind < left }
    ensures { ReadsSize D.Disk spool.old spool.new number left behind result }
{
    // (how it stands is told by the calls that count its messages and slots)
    let _ = spool.len();
    let _ = spool.slots();
    let mut slot = [0; SLOT_SIZE];
    match spool.message_at(number, &mut slot) {
        OldestAnswer::Found(head) => Some(held_size(Some(slots_for(head.len)), left, behind)),
        OldestAnswer::Empty => Some(held_size(None, left, behind)),
        OldestAnswer::Failed => None,
    }
}

// The size that a message says, as far as those behind it leave it room.
fn held_size(said: Option<u32>, left: u32, behind: u32) -> u32
    requires { behind < left }
    ensures is { result ≡ held_size said left behind }
    ensures some { 1 ≤ result }
    ensures room { result + behind ≤ left }
{
    if behind == 0 {
        return left;
    }
    let size = match said {
        Some(size) => size.max(1),
        None => 1,
    };
    size.min(left - behind)
}
