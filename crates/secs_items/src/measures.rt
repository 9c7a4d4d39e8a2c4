//! How long an item's spelling is, and how deep the item, with no memory taken.

ghost use Rattle.std.specs.Prelude.{◌≡◌, ◌*◌, ◌+◌, ℕ, List, length, map};
ghost use Rattle.std.specs.List.{flat_map};
ghost use Rattle.secs_items.specs.declared.item.Item.{Item};
ghost use Rattle.secs_items.specs.declared.item.Item.TheVariants as item;
ghost use Rattle.secs_items.specs.Kinds.{unit_of};
ghost use Rattle.secs_items.specs.Measures.{capped, deepest, depth_of, leaf_length};
ghost use Rattle.secs_items.specs.Spelling.{shortest_head, shortest_spelling};

use crate::item::Item;
use crate::kind::Kind;

impl Item {
    /// How many bytes the item's shortest spelling has, or `usize::MAX` where it has more. Of an item that is too deep
    /// or too long to be spelled it is the length by the same rules; `encode_into` refuses such an item.
    #[cycle(measuring)]
    pub fn spelled_len(&self) -> usize
        ensures { result ≡ capped (length (shortest_spelling self.now)) }
    {
        match self {
            Item::L(items) => list_len(items.len(), spelled_len_of_all(items.as_slice())),
            Item::B(bytes) => leaf_len(Kind::B, bytes.len()),
            Item::Bool(bytes) => leaf_len(Kind::Bool, bytes.len()),
            Item::A(bytes) => leaf_len(Kind::A, bytes.len()),
            Item::J(bytes) => leaf_len(Kind::J, bytes.len()),
            Item::I1(numbers) => leaf_len(Kind::I1, numbers.len()),
            Item::I2(numbers) => leaf_len(Kind::I2, numbers.len()),
            Item::I4(numbers) => leaf_len(Kind::I4, numbers.len()),
            Item::I8(numbers) => leaf_len(Kind::I8, numbers.len()),
            Item::U1(numbers) => leaf_len(Kind::U1, numbers.len()),
            Item::U2(numbers) => leaf_len(Kind::U2, numbers.len()),
            Item::U4(numbers) => leaf_len(Kind::U4, numbers.len()),
            Item::U8(numbers) => leaf_len(Kind::U8, numbers.len()),
            Item::F4(floats) => floats_len(Kind::F4, floats.as_slice()),
            Item::F8(floats) => floats_len(Kind::F8, floats.as_slice()),
        }
    }

    /// How many lists stand one in another, or `usize::MAX` where there are more: 0 for an item that is no list, 1 for
    /// a list that has no list in it.
    #[cycle(deepening)]
    pub fn depth(&self) -> usize
        ensures { result ≡ capped (depth_of self.now) }
    {
        match self {
            Item::L(items) => depth_of_all(items.as_slice()).saturating_add(1),
            _ => 0,
        }
    }
}

/// How many bytes a list has, or `usize::MAX` where it has more, of so many items that have so many bytes together. It
/// tells the length of a list that isn't built.
pub fn list_len(count: usize, together: usize) -> usize
    ensures { (items : List Item) → length items ≡ count →
        together ≡ capped (length (flat_map shortest_spelling items)) →
        result ≡ capped (length (shortest_spelling (item.L items))) }
{
    head_len(Kind::L, count).saturating_add(together)
}

/// How many bytes a text of so many characters has, or `usize::MAX` where it has more.
pub fn text_len(count: usize) -> usize
    ensures { (text : List ℕ) → length text ≡ count → result ≡ capped (length (shortest_spelling (item.A text))) }
{
    leaf_len(Kind::A, count)
}

/// How many bytes the items' shortest spellings have.
#[cycle(measuring)]
fn spelled_len_of_all(items: &[Item]) -> usize
    ensures { result ≡ capped (length (flat_map shortest_spelling items.now)) }
{
    let mut all: usize = 0;
    for item in items {
        all = all.saturating_add(item.spelled_len());
    }
    all
}

/// The depth of the deepest of the items, 0 where there is none.
#[cycle(deepening)]
fn depth_of_all(items: &[Item]) -> usize
    ensures { result ≡ capped (deepest (map depth_of items.now)) }
{
    let mut most = 0;
    for item in items {
        most = item.depth().max(most);
    }
    most
}

/// How many bytes the shortest head of so many items or elements has.
fn head_len(kind: Kind, count: usize) -> usize
    ensures { result ≡ length (shortest_head kind (unit_of kind * count)) }
{
    let unit = kind.unit();
    if count <= 0xFF / unit {
        2
    } else if count <= 0xFFFF / unit {
        3
    } else {
        4
    }
}

/// How many bytes an item of so many elements has.
fn leaf_len(kind: Kind, count: usize) -> usize
    ensures { result ≡ capped (leaf_length kind count (unit_of kind * count)) }
{
    head_len(kind, count).saturating_add(kind.unit().saturating_mul(count))
}

/// How many bytes an item of these floats has.
fn floats_len<const N: usize>(kind: Kind, floats: &[[u8; N]]) -> usize
    ensures { result ≡ capped (leaf_length kind (length floats.now) (length (flat_map (λ bytes. bytes) floats.now))) }
{
    let mut content: usize = 0;
    for float in floats {
        content = content.saturating_add(float.as_slice().len());
    }
    head_len(kind, floats.len()).saturating_add(content)
}
