//! All that a call of the keeper asks of the slots: that of a name, and what the hints of all tell.

ghost use Rattle.std.specs.Prelude.{◌≡◌, ◌+◌, ◌-◌, ◌^◌, ◌<◌, ◌≤◌, ℕ, List, None, Some, IfSome, max, min, not, if◌then◌else◌};
ghost use Rattle.spool_file.specs.Area.{or_else};
ghost use Rattle.recipe_disk.specs.Changes.{IsKept};
ghost use Rattle.recipe_disk.specs.Hints.{AreHints, IsBelow, KnowsSlots};
ghost use Rattle.recipe_disk.specs.Reading.{HasLooked, SaysOf, look_answer};
ghost use Rattle.recipe_disk.specs.Slot.{RecipeSlot, slot_in};
ghost use Rattle.recipe_disk.specs.Survey.{HasFields, IsSurvey, SurveyFits, named_at, place_for};

use crate::buckets::{Buckets, bucket_of};
use crate::head::NUMBERS;
use crate::hints::{Hint, Hints, fingerprint, hint_at};
use crate::reading::DiskFailed;
use crate::sought::{Sought, first_sought, one_sought};
use disk_base::Disk;

/// What is known of some slots: the first one of a name, the first one that isn't open, how many recipes there are, and
/// the number behind their greatest.
#[derive(Clone, Copy, Debug)]
pub struct Survey {
    pub found: Option<u32>,
    pub free: Option<u32>,
    pub count: u32,
    pub next: u64,
}

// The first of two places.
fn first_of(place: Option<u32>, other: Option<u32>) -> Option<u32>
    ensures { result ≡ or_else place other }
{
    match place {
        Some(_) => place,
        None => other,
    }
}

impl Survey {
    // Of no slot yet, but for that of a name.
    fn new(found: Option<u32>) -> Survey
        ensures { result ≡ record { found = found; free = None; count = 0; next = 0 } }
    {
        Survey {
            found,
            free: None,
            count: 0,
            next: 0,
        }
    }

    // With one slot more.
    fn with_hint(self, slot: u32, hint: Hint) -> Survey
        requires count { self.count < 4096 }
        ensures found { result.found ≡ self.found }
        ensures free { result.free ≡ or_else self.free (if not hint.opened then Some slot else None) }
        ensures count { result.count ≡ (if hint.opened then self.count + 1 else self.count) }
        ensures next { result.next ≡ (if hint.opened then max self.next (min (hint.number + 1) (2 ^ 64 - 1))
            else self.next) }
    {
        if !hint.opened {
            return Survey {
                free: first_of(self.free, Some(slot)),
                ..self
            };
        }
        Survey {
            count: self.count + 1,
            next: self.next.max(hint.number.saturating_add(1)),
            ..self
        }
    }

    /// The slot for a recipe of the name, where there is space for it: numbers are left, and the name is known or isn't
    /// that of the last free slot.
    pub fn place(&self, slots: u32) -> Option<u32>
        requires { self.now.count ≤ 4096 }
        ensures { result ≡ place_for slots self.now }
    {
        if self.next >= NUMBERS {
            return None;
        }
        if self.found.is_none() && self.count + 1 >= slots {
            return None;
        }
        self.free
    }
}

// What the hints tell of all slots, beside the slot of a name.
fn survey_of(hints: &Hints, slots: u32, found: Option<u32>) -> Survey
    requires { slots ≤ 4096 }
    ensures survey { (slot : ℕ → RecipeSlot) (name : List ℕ) → AreHints slot slots hints.now → HasFields slot slots
        → found ≡ named_at slot name slots → IsSurvey slot name slots result }
    ensures found { result.found ≡ found }
    ensures count { result.count ≤ slots }
    ensures free { IfSome result.free (λ k. k < slots) }
{
    let mut survey = Survey::new(found);
    for slot in 0..slots {
        let hint = hint_at(hints, slot);
        survey = survey.with_hint(slot, hint);
    }
    survey
}

/// The slot of a name.
pub fn find<D: Disk>(
    disk: &mut D,
    hints: &Hints,
    buckets: &Buckets,
    slots: u32,
    name: &[u8],
) -> Result<Option<u32>, DiskFailed>
    requires kept { IsKept D.Disk disk.old slots }
    requires known { KnowsSlots (D.told disk.old) slots hints.now }
    ensures found { SaysOf (D.told disk.old) (λ bytes found. found ≡ named_at (slot_in bytes) name.now slots) result }
    ensures below { IsBelow slots result }
    ensures looked { HasLooked D.Disk disk.old disk.new (look_answer result) }
{
    let sought = Sought::Name(name);
    let bucket = bucket_of(buckets, fingerprint(name));
    match one_sought(disk, hints, slots, bucket, sought) {
        Ok(found) => match found {
            Some(_) => Ok(found),
            None => first_sought(disk, hints, slots, sought),
        },
        Err(DiskFailed) => Err(DiskFailed),
    }
}

/// Looks over all slots.
pub fn look_over<D: Disk>(
    disk: &mut D,
    hints: &Hints,
    buckets: &Buckets,
    slots: u32,
    name: &[u8],
) -> Result<Survey, DiskFailed>
    requires kept { IsKept D.Disk disk.old slots }
    requires known { KnowsSlots (D.told disk.old) slots hints.now }
    ensures survey { SaysOf (D.told disk.old) (λ bytes survey. IsSurvey (slot_in bytes) name.now slots survey) result }
    ensures fits { SurveyFits slots result }
    ensures looked { HasLooked D.Disk disk.old disk.new (look_answer result) }
{
    match find(disk, hints, buckets, slots, name) {
        Ok(found) => Ok(survey_of(hints, slots, found)),
        Err(DiskFailed) => Err(DiskFailed),
    }
}
