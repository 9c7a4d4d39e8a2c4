//! What a verdict says of bytes, in words of spellings.

ghost use Rattle.std.specs.Prelude.{◌≡◌, List, ℕ, [], Some};
ghost use Rattle.secs_items.specs.declared.item.Item.{Item};
ghost use Rattle.secs_items.specs.declared.item_fault.ItemFault.{ItemFault};
ghost use Rattle.secs_items.specs.declared.verdict.Verdict.TheVariants as verdict;
ghost use Rattle.secs_items.specs.Checking.{verdict_of};
ghost use Rattle.secs_items.specs.Elements.{AllBytes};
ghost use Rattle.secs_items.specs.Reading.{first_fault};
ghost use Rattle.secs_items.specs.Spelling.{Spells};

/// Bytes are `Whole` exactly where they spell some item, and `Empty` where there are none. Else their first fault is
/// told.
pub fn verdicts_tell_of_spellings()
    ensures spelled { (item : Item) (bytes : List ℕ) → Spells item bytes → verdict_of bytes ≡ verdict.Whole }
    ensures whole { (bs : List ℕ) → AllBytes bs → verdict_of bs ≡ verdict.Whole → (item : Item) × Spells item bs }
    ensures empty { (bytes : List ℕ) → verdict_of bytes ≡ verdict.Empty → bytes ≡ [] }
    ensures broken { (bs : List ℕ) (e : ItemFault) → verdict_of bs ≡ verdict.Broken e → first_fault bs ≡ Some e }
{}
