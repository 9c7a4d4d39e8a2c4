//! Laws of items and their bytes.

ghost use Rattle.std.specs.Prelude.{◌≡◌, ◌<◌, ◌≤◌, ℕ, List, [], ◌++◌, length, None, Some};
ghost use Rattle.secs_items.specs.declared.encode_fault.EncodeFault.TheVariants as faults;
ghost use Rattle.secs_items.specs.declared.item.Item.{Item};
ghost use Rattle.secs_items.specs.declared.item_fault.ItemFault.{ItemFault};
ghost use Rattle.secs_items.specs.declared.item_fault.ItemFault.TheVariants as fault;
ghost use Rattle.secs_items.specs.Elements.{AllBytes};
ghost use Rattle.secs_items.specs.Encoding.{encode_fault};
ghost use Rattle.secs_items.specs.Faults.{EndsAt, FaultStands, IsCutShort};
ghost use Rattle.secs_items.specs.Limits.{max_depth};
ghost use Rattle.secs_items.specs.Measures.{depth_of};
ghost use Rattle.secs_items.specs.Reading.{first_fault};
ghost use Rattle.secs_items.specs.Spelling.{Spells, shortest_spelling};

/// Where bytes spell an item, they spell no other one, and with one or more bytes behind them they spell none at all.
pub fn no_spelling_begins_another()
    ensures whole { (i j : Item) (bytes more : List ℕ) → Spells i bytes → Spells j (bytes ++ more) → more ≡ [] }
    ensures alone { (i j : Item) (bytes : List ℕ) → Spells i bytes → Spells j bytes → i ≡ j }
{}

/// Bytes have no fault exactly where they spell some item.
pub fn no_fault_exactly_in_a_spelling()
    ensures spelled { (item : Item) (bytes : List ℕ) → Spells item bytes → first_fault bytes ≡ None }
    ensures only { (bytes : List ℕ) → AllBytes bytes → first_fault bytes ≡ None → (item : Item) × Spells item bytes }
{}

/// Where each fault stands, in words of spellings alone.
pub fn where_each_fault_stands()
    ensures stands { (bs : List ℕ) (e : ItemFault) → AllBytes bs → first_fault bs ≡ Some e → FaultStands bs e }
    // `Short` is named exactly where a longer input that begins so spells an item.
    ensures short { (bs : List ℕ) → AllBytes bs → IsCutShort bs → first_fault bs ≡ Some (fault.Short (length bs)) }
    // `Trailing` is named exactly behind a front that spells an item.
    ensures trailing { (bs : List ℕ) (at : ℕ) → EndsAt at bs → first_fault bs ≡ Some (fault.Trailing at) }
{}

/// No spelling of an item is shorter than its shortest one. What is spelled nests no deeper than lists may, and what is
/// refused for its depth does.
pub fn spellings_are_bounded()
    ensures short { (i : Item) (bytes : List ℕ) → Spells i bytes → length (shortest_spelling i) ≤ length bytes }
    ensures shallow { (i : Item) (bytes : List ℕ) → Spells i bytes → depth_of i ≤ max_depth }
    ensures deep { (i : Item) (at : ℕ) → encode_fault i ≡ Some (faults.TooDeep at) → max_depth < depth_of i }
{}
