//! Laws of items and their text.

ghost use Rattle.std.specs.Prelude.{◌≡◌, ◌⊎◌, ℕ, List, None, Some};
ghost use Rattle.secs_items.specs.declared.item.Item.{Item};
ghost use Rattle.secs_items.specs.Spelling.{Spells};
ghost use Rattle.secs_text.specs.declared.text_fault.TextFault.{TextFault};
ghost use Rattle.secs_text.specs.Faults.{HasFault};
ghost use Rattle.secs_text.specs.Grammar.{IsShallow, ReadsAs};
ghost use Rattle.secs_text.specs.Reading.{first_text_fault};

/// A text reads as one item at most.
pub fn one_item_a_text()
    ensures { (text : List ℕ) (first second : Item) → ReadsAs text first → ReadsAs text second → first ≡ second }
{}

/// A text reads as an item or has a fault, not both, and it has one fault at most.
pub fn a_fault_or_an_item()
    ensures either { (text : List ℕ) → ((item : Item) × ReadsAs text item) ⊎ ((e : TextFault) × HasFault text e) }
    ensures alone { (text : List ℕ) (item : Item) (e : TextFault) → ReadsAs text item → HasFault text e → ⊥ }
    ensures once { (text : List ℕ) (d e : TextFault) → HasFault text d → HasFault text e → d ≡ e }
{}

/// The reading from left to right, a definition that computes, meets the fault that the grammar's words say, and none
/// in a text that reads.
pub fn reading_meets_the_fault()
    ensures fault { (text : List ℕ) (e : TextFault) → HasFault text e → first_text_fault text ≡ Some e }
    ensures none { (text : List ℕ) (item : Item) → ReadsAs text item → first_text_fault text ≡ None }
{}

/// No list stands in 64 others in what a text reads as, or bytes spell: what was read can be printed and read again.
pub fn what_was_read_is_shallow()
    ensures text { (text : List ℕ) (item : Item) → ReadsAs text item → IsShallow item }
    ensures bytes { (bytes : List ℕ) (item : Item) → Spells item bytes → IsShallow item }
{}
