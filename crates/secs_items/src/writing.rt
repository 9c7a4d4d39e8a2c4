//! Items to bytes.

ghost use Rattle.std.specs.Prelude.{◌≡◌, ◌≢◌, ◌*◌, ◌+◌, ◌-◌, ◌≤◌, ◌++◌, length, None, Some, IfErr, OnErr, OnOk};
ghost use Rattle.std.specs.List.{flat_map, AllByRecursion};
ghost use Rattle.gl_base.specs.Rows.{Grows};
ghost use Rattle.secs_items.specs.declared.encode_fault.EncodeFault.TheVariants as fault;
ghost use Rattle.secs_items.specs.Elements.{IsByte};
ghost use Rattle.secs_items.specs.Encoding.{EncodesElements, EncodesHead, EncodesItem, EncodesItems, EncodesLeaf, encode_fault};
ghost use Rattle.secs_items.specs.Kinds.{unit_of};
ghost use Rattle.secs_items.specs.Ranges.{InRange};
ghost use Rattle.secs_items.specs.Spelling.{Spells, shortest_head, shortest_spelling};

use crate::element::{Element, put_slice};
use crate::encode_fault::EncodeFault;
use crate::item::{Item, MAX_DEPTH};
use crate::kind::Kind;
use gl_base::{NoMemory, Row};

/// What three length bytes hold.
const MAX_LENGTH: usize = 0xFF_FFFF;

/// Puts the item's spelling, in as few length bytes as it can have, at the end of the row. A refusal leaves the row as
/// it was.
#[tactic(auto, unfolding(crate::specs::Encoding::encode_fault))]
pub fn encode_into(item: &Item, into: &mut Row<u8>) -> Result<(), EncodeFault>
    ensures ok { OnOk result (into.new ≡ into.old ++ shortest_spelling item.now) }
    // What was put spells the item.
    ensures spells { OnOk result (Spells item.now (shortest_spelling item.now)) }
    ensures none { OnOk result (encode_fault item.now ≡ None) }
    ensures fault { IfErr result (λ e. e ≢ fault.NoMemory → encode_fault item.now ≡ Some e) }
    ensures err { OnErr result (into.new ≡ into.old) }
{
    let start = into.len();
    let written = put_item(item, MAX_DEPTH, start, into);
    if written.is_err() {
        into.truncate(start);
    }
    written
}

/// Puts one item, in which lists may nest so deep. The whole spelling begins at `start`.
#[cycle(writing)]
fn put_item(item: &Item, depth: usize, start: usize, into: &mut Row<u8>) -> Result<(), EncodeFault>
    requires { start ≤ length into.old }
    ensures puts { EncodesItem item.now depth start into.old into.new result }
    ensures ranges { OnOk result (InRange item.now) }
{
    let at = into.len() - start;
    match item {
        Item::L(items) => {
            if depth == 0 {
                return Err(EncodeFault::TooDeep { at });
            }
            put_head(Kind::L, items.len(), at, into)?;
            put_items(items.as_slice(), depth - 1, start, into)
        }
        Item::B(bytes) => put_bytes(Kind::B, bytes, at, into),
        Item::Bool(bytes) => put_bytes(Kind::Bool, bytes, at, into),
        Item::A(bytes) => put_bytes(Kind::A, bytes, at, into),
        Item::J(bytes) => put_bytes(Kind::J, bytes, at, into),
        Item::I1(numbers) => put_elements(Kind::I1, numbers, at, into),
        Item::I2(numbers) => put_elements(Kind::I2, numbers, at, into),
        Item::I4(numbers) => put_elements(Kind::I4, numbers, at, into),
        Item::I8(numbers) => put_elements(Kind::I8, numbers, at, into),
        Item::U1(numbers) => put_bytes(Kind::U1, numbers, at, into),
        Item::U2(numbers) => put_elements(Kind::U2, numbers, at, into),
        Item::U4(numbers) => put_elements(Kind::U4, numbers, at, into),
        Item::U8(numbers) => put_elements(Kind::U8, numbers, at, into),
        Item::F4(floats) => put_elements(Kind::F4, floats, at, into),
        Item::F8(floats) => put_elements(Kind::F8, floats, at, into),
    }
}

/// Puts items one after another.
#[cycle(writing)]
fn put_items(
    items: &[Item],
    depth: usize,
    start: usize,
    into: &mut Row<u8>,
) -> Result<(), EncodeFault>
    requires { start ≤ length into.old }
    ensures puts { EncodesItems items.now depth start into.old into.new result }
    ensures ranges { OnOk result (AllByRecursion InRange items.now) }
{
    for item in items {
        put_item(item, depth, start, into)?;
    }
    Ok(())
}

/// Puts the head of `count` items or elements, before which stand `at` bytes.
fn put_head(kind: Kind, count: usize, at: usize, into: &mut Row<u8>) -> Result<(), EncodeFault>
    ensures { EncodesHead kind count at into.old into.new result }
{
    let unit = kind.unit();
    if count > MAX_LENGTH / unit {
        return Err(EncodeFault::TooLong { at });
    }
    let length = unit * count;
    let format = 4 * kind.code();
    if length <= 0xFF {
        into.extend(&[format + 1, length as u8])?;
    } else if length <= 0xFFFF {
        into.extend(&[format + 2, (length / 256) as u8, (length % 256) as u8])?;
    } else {
        let high = (length / 65536) as u8;
        let middle = (length / 256 % 256) as u8;
        into.extend(&[format + 3, high, middle, (length % 256) as u8])?;
    }
    Ok(())
}

/// Puts an item whose elements are bytes.
fn put_bytes(kind: Kind, bytes: &Row<u8>, at: usize, into: &mut Row<u8>) -> Result<(), EncodeFault>
    ensures puts { EncodesLeaf kind (length bytes.now) bytes.now at into.old into.new result }
    ensures ranges { OnOk result (AllByRecursion IsByte bytes.now) }
{
    put_head(kind, bytes.len(), at, into)?;
    put_slice(bytes.as_slice(), into)?;
    Ok(())
}

/// Puts an item whose elements are of several bytes.
fn put_elements<T: Element>(
    kind: Kind,
    elements: &Row<T>,
    at: usize,
    into: &mut Row<u8>,
) -> Result<(), EncodeFault>
    ensures puts { EncodesElements T.bytes_of kind elements.now at into.old into.new result }
    ensures ranges { OnOk result (AllByRecursion T.fits elements.now) }
{
    put_head(kind, elements.len(), at, into)?;
    put_each(elements.as_slice(), into)?;
    Ok(())
}

fn put_each<T: Element>(elements: &[T], into: &mut Row<u8>) -> Result<(), NoMemory>
    ensures ok { OnOk result (into.new ≡ into.old ++ flat_map T.bytes_of elements.now) }
    ensures err { OnErr result (Grows into.old into.new) }
    ensures ranges { OnOk result (AllByRecursion T.fits elements.now) }
{
    for element in elements {
        element.put(into)?;
    }
    Ok(())
}
