//! The item as a value, with its kind and its copy. Its bytes, both ways, stand in `writing` and `reading`.

ghost use Rattle.std.specs.Prelude.{◌≡◌, IfOk};
ghost use Rattle.secs_items.specs.declared.item.Item.{out-Item};
ghost use Rattle.secs_items.specs.declared.item.Item.TheVariants as item;
ghost use Rattle.secs_items.specs.Items.{number_item};
ghost use Rattle.secs_items.specs.Layers.{kind_of};

use crate::kind::Kind;
use gl_base::{NoMemory, Row};
use std::alloc::Global;

/// How deep lists may nest (this profile).
pub const MAX_DEPTH: usize = 64;

/// An item of SECS-II: a list of items, or elements of one kind (SEMI E5).
#[derive(Debug, Drop)]
pub enum Item {
    L(Row<Item>),
    B(Row<u8>),
    Bool(Row<u8>),
    A(Row<u8>),
    J(Row<u8>),
    I1(Row<i8>),
    I2(Row<i16>),
    I4(Row<i32>),
    I8(Row<i64>),
    U1(Row<u8>),
    U2(Row<u16>),
    U4(Row<u32>),
    U8(Row<u64>),
    F4(Row<[u8; 4]>),
    F8(Row<[u8; 8]>),
}

impl Item {
    /// One number of four bytes, as identifiers are written.
    pub fn number(alloc: Global, number: u32) -> Result<Item, NoMemory>
        ensures { IfOk result (λ made. made ≡ number_item number) }
    {
        Ok(Item::U4(Row::of(alloc, &[number])?))
    }

    /// A text of these characters.
    pub fn text(alloc: Global, characters: &[u8]) -> Result<Item, NoMemory>
        ensures { IfOk result (λ made. made ≡ item.A characters.now) }
    {
        Ok(Item::A(Row::of(alloc, characters)?))
    }

    /// The kind of its elements.
    pub fn kind(&self) -> Kind
        ensures { result ≡ kind_of (out-Item self.now) }
    {
        match self {
            Item::L(_) => Kind::L,
            Item::B(_) => Kind::B,
            Item::Bool(_) => Kind::Bool,
            Item::A(_) => Kind::A,
            Item::J(_) => Kind::J,
            Item::I1(_) => Kind::I1,
            Item::I2(_) => Kind::I2,
            Item::I4(_) => Kind::I4,
            Item::I8(_) => Kind::I8,
            Item::U1(_) => Kind::U1,
            Item::U2(_) => Kind::U2,
            Item::U4(_) => Kind::U4,
            Item::U8(_) => Kind::U8,
            Item::F4(_) => Kind::F4,
            Item::F8(_) => Kind::F8,
        }
    }

    /// An item that is equal to this one.
    #[cycle(copying)]
    pub fn copy(&self, alloc: Global) -> Result<Item, NoMemory>
        ensures { IfOk result (λ copy. copy ≡ self.now) }
    {
        Ok(match self {
            Item::L(items) => Item::L(copy_items(alloc, items.as_slice())?),
            Item::B(bytes) => Item::B(copy_row(alloc, bytes)?),
            Item::Bool(bytes) => Item::Bool(copy_row(alloc, bytes)?),
            Item::A(bytes) => Item::A(copy_row(alloc, bytes)?),
            Item::J(bytes) => Item::J(copy_row(alloc, bytes)?),
            Item::I1(numbers) => Item::I1(copy_row(alloc, numbers)?),
            Item::I2(numbers) => Item::I2(copy_row(alloc, numbers)?),
            Item::I4(numbers) => Item::I4(copy_row(alloc, numbers)?),
            Item::I8(numbers) => Item::I8(copy_row(alloc, numbers)?),
            Item::U1(numbers) => Item::U1(copy_row(alloc, numbers)?),
            Item::U2(numbers) => Item::U2(copy_row(alloc, numbers)?),
            Item::U4(numbers) => Item::U4(copy_row(alloc, numbers)?),
            Item::U8(numbers) => Item::U8(copy_row(alloc, numbers)?),
            Item::F4(floats) => Item::F4(copy_row(alloc, floats)?),
            Item::F8(floats) => Item::F8(copy_row(alloc, floats)?),
        })
    }
}

/// Items that are equal to these, one by one.
#[cycle(copying)]
fn copy_items(alloc: Global, items: &[Item]) -> Result<Row<Item>, NoMemory>
    ensures { IfOk result (λ copies. copies ≡ items.now) }
{
    let mut copies = Row::new(alloc);
    for item in items {
        copies.push(item.copy(alloc)?)?;
    }
    Ok(copies)
}

fn copy_row<T: Copy>(alloc: Global, row: &Row<T>) -> Result<Row<T>, NoMemory>
    ensures { IfOk result (λ copy. copy ≡ row.now) }
{
    let mut copy = Row::new(alloc);
    copy.extend(row.as_slice())?;
    Ok(copy)
}
