//! Whether two items are equal.

ghost use Rattle.std.specs.Prelude.{◌≡◌, ◌↔◌, IsTrue};

use crate::item::Item;

impl Item {
    /// Whether the two items are equal: of one kind, with equal elements in one order. It takes no memory.
    #[cycle(comparing)]
    #[tactic(auto, using(crate::proofs::Rows::signed_rows))]
    pub fn equals(&self, other: &Item) -> bool
        ensures { IsTrue result ↔ (self.now ≡ other.now) }
    {
        match (self, other) {
            (Item::L(items), Item::L(others)) => are_equal(items.as_slice(), others.as_slice()),
            (Item::B(bytes), Item::B(others)) => bytes.as_slice() == others.as_slice(),
            (Item::Bool(bytes), Item::Bool(others)) => bytes.as_slice() == others.as_slice(),
            (Item::A(bytes), Item::A(others)) => bytes.as_slice() == others.as_slice(),
            (Item::J(bytes), Item::J(others)) => bytes.as_slice() == others.as_slice(),
            (Item::I1(numbers), Item::I1(others)) => numbers.as_slice() == others.as_slice(),
            (Item::I2(numbers), Item::I2(others)) => numbers.as_slice() == others.as_slice(),
            (Item::I4(numbers), Item::I4(others)) => numbers.as_slice() == others.as_slice(),
            (Item::I8(numbers), Item::I8(others)) => numbers.as_slice() == others.as_slice(),
            (Item::U1(numbers), Item::U1(others)) => numbers.as_slice() == others.as_slice(),
            (Item::U2(numbers), Item::U2(others)) => numbers.as_slice() == others.as_slice(),
            (Item::U4(numbers), Item::U4(others)) => numbers.as_slice() == others.as_slice(),
            (Item::U8(numbers), Item::U8(others)) => numbers.as_slice() == others.as_slice(),
            (Item::F4(floats), Item::F4(others)) => floats.as_slice() == others.as_slice(),
            (Item::F8(floats), Item::F8(others)) => floats.as_slice() == others.as_slice(),
            _ => false,
        }
    }
}

/// Whether there are as many items, each equal to the other in its place.
#[cycle(comparing)]
fn are_equal(items: &[Item], others: &[Item]) -> bool
    ensures { IsTrue result ↔ (items.now ≡ others.now) }
{
    if items.len() != others.len() {
        return false;
    }
    for i in 0..items.len() {
        if !items[i].equals(&others[i]) {
            return false;
        }
    }
    true
}
