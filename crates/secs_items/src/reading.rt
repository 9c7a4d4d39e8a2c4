//! Bytes to items.

ghost use Rattle.std.specs.Prelude.{◌≡◌, ◌≢◌, ◌%◌, ◌/◌, ◌<◌, ◌≤◌, Bool, true, false, length, None, Some, IfErr, IfOk, OnOk};
ghost use Rattle.secs_items.specs.declared.item.Item.{Item};
ghost use Rattle.secs_items.specs.declared.item_fault.ItemFault.TheVariants as fault;
ghost use Rattle.secs_items.specs.Elements.{elements_at};
ghost use Rattle.secs_items.specs.Kinds.{is_list, unit_of};
ghost use Rattle.secs_items.specs.Reading.{Gives, ReadsOnly, first_fault, item_at, items_at, leaf_of};
ghost use Rattle.secs_items.specs.Spelling.{Spells};

use crate::element::Element;
use crate::head::head_of;
use crate::item::{Item, MAX_DEPTH};
use crate::item_fault::ItemFault;
use crate::kind::Kind;
use gl_base::{NoMemory, Row};
use std::alloc::Global;

/// The item that the bytes spell. A length that they claim reserves no memory.
pub fn decode(alloc: Global, bytes: &[u8]) -> Result<Item, ItemFault>
    // What is read is spelled so.
    ensures found { IfOk result (λ item. Spells item bytes.now) }
    // What is spelled so is read, unless memory runs out.
    ensures only { (item : Item) → Spells item bytes.now → ReadsOnly item result }
    // A refusal names the first fault, unless memory ran out.
    ensures fault { IfErr result (λ e. e ≢ fault.NoMemory → first_fault bytes.now ≡ Some e) }
    // What has a fault isn't read.
    ensures none { OnOk result (first_fault bytes.now ≡ None) }
{
    read_item(alloc, bytes)
}

/// The one item that stands in all of the bytes.
fn read_item(alloc: Global, bytes: &[u8]) -> Result<Item, ItemFault>
    ensures found { IfOk result (λ item. Spells item bytes.now) }
    ensures fault { IfErr result (λ e. e ≢ fault.NoMemory → first_fault bytes.now ≡ Some e) }
    ensures none { OnOk result (first_fault bytes.now ≡ None) }
{
    let (item, rest) = item_of(alloc, bytes, MAX_DEPTH, bytes.len())?;
    if !rest.is_empty() {
        let at = bytes.len() - rest.len();
        return Err(ItemFault::Trailing { at });
    }
    Ok(item)
}

/// The item at the front, in which lists may nest so deep, and the bytes after it. `total` is the input's length.
#[cycle(reading)]
fn item_of(
    alloc: Global,
    bytes: &[u8],
    depth: usize,
    total: usize,
) -> Result<(Item, &[u8]), ItemFault>
    requires { length bytes.now ≤ total }
    ensures gives { Gives (λ x. (x.0, x.1.now)) result (item_at total depth bytes.now) }
    ensures within { IfOk result (λ x. length x.1.now ≤ length bytes.now) }
{
    let head = head_of(bytes, depth, total)?;
    if head.kind.is_list() {
        let (items, rest) = items_of(alloc, head.rest, head.size, depth - 1, total)?;
        return Ok((Item::L(items), rest));
    }
    let (content, rest) = head.rest.split_at(head.size);
    Ok((leaf(alloc, head.kind, content)?, rest))
}

/// So many items at the front, one by one, and the bytes after them.
#[cycle(reading)]
pub(crate) fn items_of(
    alloc: Global,
    bytes: &[u8],
    count: usize,
    depth: usize,
    total: usize,
) -> Result<(Row<Item>, &[u8]), ItemFault>
    requires { length bytes.now ≤ total }
    ensures gives { Gives (λ x. (x.0, x.1.now)) result (items_at (item_at total depth) count bytes.now) }
    ensures within { IfOk result (λ x. length x.1.now ≤ length bytes.now) }
{
    let mut items = Row::new(alloc);
    let mut rest = bytes;
    for _ in 0..count {
        let (item, after) = item_of(alloc, rest, depth, total)?;
        items.push(item)?;
        rest = after;
    }
    Ok((items, rest))
}

/// An item that is no list, of this content.
pub(crate) fn leaf(alloc: Global, kind: Kind, content: &[u8]) -> Result<Item, NoMemory>
    requires leaf { is_list kind ≡ false }
    requires even { length content.now % unit_of kind ≡ 0 }
    ensures { IfOk result (λ item. item ≡ leaf_of kind content.now) }
{
    Ok(match kind {
        Kind::L => unreachable!(),
        Kind::B => Item::B(row_of(alloc, content)?),
        Kind::Bool => Item::Bool(row_of(alloc, content)?),
        Kind::A => Item::A(row_of(alloc, content)?),
        Kind::J => Item::J(row_of(alloc, content)?),
        Kind::I1 => Item::I1(elements_of(alloc, content)?),
        Kind::I2 => Item::I2(elements_of(alloc, content)?),
        Kind::I4 => Item::I4(elements_of(alloc, content)?),
        Kind::I8 => Item::I8(elements_of(alloc, content)?),
        Kind::U1 => Item::U1(row_of(alloc, content)?),
        Kind::U2 => Item::U2(elements_of(alloc, content)?),
        Kind::U4 => Item::U4(elements_of(alloc, content)?),
        Kind::U8 => Item::U8(elements_of(alloc, content)?),
        Kind::F4 => Item::F4(elements_of(alloc, content)?),
        Kind::F8 => Item::F8(elements_of(alloc, content)?),
    })
}

fn row_of(alloc: Global, bytes: &[u8]) -> Result<Row<u8>, NoMemory>
    ensures { IfOk result (λ row. row ≡ bytes.now) }
{
    let mut row = Row::new(alloc);
    row.extend(bytes)?;
    Ok(row)
}

/// The elements that the bytes are, one after another.
fn elements_of<T: Element>(alloc: Global, bytes: &[u8]) -> Result<Row<T>, NoMemory>
    requires { length bytes.now % T.SIZE ≡ 0 }
    ensures { IfOk result (λ row. row ≡ elements_at T.element_of T.SIZE (length bytes.now / T.SIZE) bytes.now) }
{
    let mut row = Row::new(alloc);
    let mut rest = bytes;
    for _ in 0..bytes.len() / T::SIZE {
        let (front, after) = rest.split_at(T::SIZE);
        row.push(T::read(front))?;
        rest = after;
    }
    Ok(row)
}
