//! The ledger as a value: the list by its numbers and sizes, as decided, and as it was when works were last handed
//! over, the works since, and the unload.

ghost use Rattle.std.specs.Prelude.{◌≡◌, ◌+◌, ◌^◌, ◌<◌, ◌≤◌, All, length, sum, IfOk};
ghost use Rattle.gem_spool.specs.Works.{AreDue, counts_after};
ghost use Rattle.spool_file.specs.Sizes.{slots_for as slots_of};
ghost use Rattle.spool_ledger.specs.Sizes.{AreSizedBy, all_sizes_after, oldest_of};
ghost use Rattle.spool_ledger.specs.Ledger.{IsLedger, IsSome, carried_out, is_full, new_ledger, next_of, room_for, stood_count};

use crate::sizes::Sizes;
use crate::unload::Unload;
use gem_spool::{Count, Room, Work};
use gl_base::{NoMemory, Row};
use spool_file::slots_for;
use std::alloc::Global;
use std::marker::Model;

/// The spool of the equipment by its numbers, with what the disk owes of it and the unload that runs. No call asks
/// anything of the disk. Where memory runs out nothing is promised of what becomes of it, since its step ends.
#[derive(Debug, Drop)]
pub struct Ledger {
    pub(crate) slots: u32,
    pub(crate) first: u64,
    pub(crate) sizes: Sizes,
    // the number of the disk's oldest message
    pub(crate) stood: u64,
    pub(crate) works: Row<Work>,
    pub(crate) is_active: bool,
    pub(crate) unload: Option<Unload>,
}

impl Model for Ledger {
    ghost use Rattle.spool_ledger.specs.Ledger.{IsLedger, LedgerView};

    ghost Value = { LedgerView };

    ghost view = { λ inside. record {
      slots = inside.slots;
      first = inside.first;
      sizes = inside.sizes.now;
      stood = record { first = inside.stood; sizes = inside.sizes.stood };
      works = inside.works;
      is_active = inside.is_active;
      unload = inside.unload;
    } };

    ghost invariant = { λ inside. IsLedger (record {
      slots = inside.slots;
      first = inside.first;
      sizes = inside.sizes.now;
      stood = record { first = inside.stood; sizes = inside.sizes.stood };
      works = inside.works;
      is_active = inside.is_active;
      unload = inside.unload;
    }) };
}

impl Ledger {
    /// A spool that is taken up with so many slots and messages of these sizes, in slots, the oldest of this number. It
    /// is active where there are messages, and the disk owes nothing.
    pub fn new(alloc: Global, slots: u32, first: u64, sizes: &[u16]) -> Result<Ledger, NoMemory>
        requires some { 0 < slots }
        requires most { slots ≤ 65535 }
        requires each { All IsSome sizes.now }
        requires room { sum sizes.now ≤ slots }
        requires bound { first + sum sizes.now ≤ 2 ^ 63 + 65535 }
        ensures { IfOk result (λ ledger. ledger ≡ new_ledger slots first sizes.now) }
    {
        Ok(Ledger {
            slots,
            first,
            sizes: Sizes::of(alloc, sizes)?,
            stood: first,
            works: Row::new(alloc),
            is_active: !sizes.is_empty(),
            unload: None,
        })
    }

    /// Hands over what the disk owes, in its order. Each work finds room, or its message, when its turn comes, and they
    /// come to the list as it is decided. Nothing is owed then.
    pub fn take_works(&mut self, alloc: Global) -> Row<Work>
        ensures works { result ≡ self.old.works }
        ensures due { AreDue (stood_count self.old) result }
        ensures sized { AreSizedBy self.old.stood.sizes result }
        ensures come_to { counts_after (stood_count self.old) result ≡ stood_count self.new }
        ensures leave { all_sizes_after self.old.stood.sizes result ≡ self.new.stood.sizes }
        ensures next { self.new ≡ carried_out self.old }
    {
        self.stood = self.first;
        self.sizes.hand_over();
        std::mem::replace(&mut self.works, Row::new(alloc))
    }

    /// The number of the oldest message, or of the next one where there is none.
    pub fn first(&self) -> u64
        ensures { result ≡ self.now.first }
    {
        self.first
    }

    /// How many messages there are.
    pub fn len(&self) -> u32
        ensures { result ≡ length self.now.sizes }
    {
        self.sizes.len()
    }

    /// How many slots the oldest message takes, and none where there is none.
    pub fn oldest_size(&self) -> u32
        ensures { result ≡ oldest_of self.now.sizes }
    {
        if self.sizes.len() == 0 {
            return 0;
        }
        self.sizes.oldest()
    }

    // The number of the next message.
    pub(crate) fn next(&self) -> u64
        ensures { result ≡ next_of self.now }
    {
        self.first + u64::from(self.sizes.used())
    }

    // Whether there is no room for a message of this size as the others stand.
    pub(crate) fn is_full(&self, size: u32) -> bool
        requires small { size ≤ 65535 }
        ensures { result ≡ is_full self.now.slots self.now.sizes size }
    {
        self.sizes.used() + size > self.slots
    }

    // Whether there is room for a body of this length. What holds of the ledger is told, too.
    pub(crate) fn room(&self, length: usize) -> Room
        ensures room { result ≡ room_for self.now length }
        ensures is { IsLedger self.now }
    {
        let count = Count {
            version: 2,
            slots: self.slots,
            next: self.next(),
            len: self.len(),
            used: self.sizes.used(),
        };
        count.room(length)
    }
}

// How many slots a body of this length takes.
pub(crate) fn size_of(length: usize) -> u32
    requires short { length ≤ 1048576 }
    ensures size { result ≡ slots_of length }
    ensures some { 1 ≤ result }
    ensures small { result ≤ 257 }
{
    slots_for(length as u32)
}
