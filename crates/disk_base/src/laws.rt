//! What holds of every disk: what a write with its sync leaves of the other bytes, also where it fails; and of one in
//! memory, what a crash leaves of one byte.

ghost use Rattle.std.specs.Prelude.{◌≡◌, ◌+◌, ◌<◌, ◌≤◌, ℕ, List, [], ◌∷◌, Option, Some, length, slice_index};
ghost use Rattle.disk_base.specs.Calls.{DiskCall};
ghost use Rattle.disk_base.specs.Cut.{chosen_byte, image_of};
ghost use Rattle.disk_base.specs.Images.{AreSettled};
ghost use Rattle.disk_base.specs.Listed.{AsListed};
ghost use Rattle.disk_base.specs.Settle.{LogsBoth, Settles};
ghost use Rattle.disk_base.specs.Story.{Story, with_part, with_write};
ghost use Rattle.disk_base.specs.Through.{GoesThrough, IsImageBut, IsOverIn};
ghost use Rattle.disk_base.specs.declared.cut.CutChoice.{CutChoice};
ghost use Rattle.disk_base.specs.declared.disk.DiskAnswer.{DiskAnswer};
ghost use Rattle.disk_base.specs.declared.disk.DiskAnswer.TheVariants.{Failed};

/// A write with its sync keeps all other bytes, whatever it comes to: at every moment of it a crash leaves what it
/// might have left before, but for the write's range. So where some bytes are settled and the write lies among them,
/// a crash leaves them with some part of the write's length in its place.
pub fn settle_keeps_other_bytes()
    ensures others { (s : Story) (at : ℕ) (bytes : List ℕ) (after : Option Story) (answer : DiskAnswer) →
        at + length bytes ≤ length s.now.bytes → Settles (Some s) at bytes after answer →
        GoesThrough s after (IsImageBut s.now at (length bytes)) }
    ensures among { (s : Story) (from size at : ℕ) (bytes : List ℕ) (after : Option Story) (answer : DiskAnswer) →
        AreSettled s.now from size → from + size ≤ length s.now.bytes → at + length bytes ≤ size →
        Settles (Some s) (from + at) bytes after answer →
        GoesThrough s after (IsOverIn s.now.bytes from size at (length bytes)) }
{}

/// A write with its sync that failed on a disk whose calls come to what is listed, though nothing was left out of the
/// list and the disk hadn't stopped, has written its bytes, whichever of its two calls failed.
pub fn failed_settle_has_written()
    ensures { (s : Story) (at : ℕ) (bytes : List ℕ) (all : List DiskCall) (after : Option Story)
        (calls : Option (List DiskCall)) → LogsBoth at bytes (λ made n. ⊥) (Some all) calls Failed →
        AsListed (Some s) (Some all) after calls → after ≡ Some (with_write at bytes s) }
{}

/// What a crash of a disk in memory leaves of one byte that was written over settled ones: the chosen byte there, and
/// all others as they were.
pub fn cut_leaves_the_chosen_byte()
    ensures { (choice : CutChoice) (s : Story) (at byte : ℕ) → s.now.loose ≡ [] → at < length s.now.bytes →
        image_of choice (with_write at (byte ∷ []) s)
        ≡ with_part s.now.bytes at (chosen_byte choice (slice_index s.now.bytes at) byte ∷ []) }
{}
