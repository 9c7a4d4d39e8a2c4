//! Text to items.

ghost use Rattle.std.specs.Prelude.{◌≡◌, ◌≢◌, ◌-◌, ◌<◌, ◌≤◌, length, IfErr, IfOk};
ghost use Rattle.secs_items.specs.declared.item.Item.{Item};
ghost use Rattle.secs_text.specs.declared.text_fault.TextFault.{TextFault};
ghost use Rattle.secs_text.specs.declared.text_fault.TextFault.TheVariants as fault;
ghost use Rattle.secs_items.specs.declared.kind.Kind.TheVariants as kinds;
ghost use Rattle.secs_text.specs.Faults.{HasFault};
ghost use Rattle.secs_text.specs.Grammar.{Kept, ReadsAs};
ghost use Rattle.secs_text.specs.Nexts.{next_rest, next_view};
ghost use Rattle.secs_text.specs.Reading.{FailsOnly, Gives, GivesLeaf, Reads, ReadsOnly, all_shown_at, elements_at, escape_at, item_at, quoted_at, read_text, shown_at, text_at};

use crate::forms::{Decimal, Form, Hex};
use crate::lexing::{
    Next, begins, expect, expect_end, hex_digit, kind_of, next_element, skip_blanks, skip_space,
    stands_for_itself, syntax,
};
use crate::text_fault::TextFault;
use gl_base::Row;
use secs_items::{Item, Kind, MAX_DEPTH};
use std::alloc::Global;

/// The item that the text reads as.
pub fn read(alloc: Global, text: &[u8]) -> Result<Item, TextFault>
    // What is returned is what the text reads as.
    ensures found { IfOk result (λ item. ReadsAs text.now item) }
    // What the text reads as is returned, unless memory runs out.
    ensures only { (item : Item) → ReadsAs text.now item → ReadsOnly item result }
    // A refusal names a fault of the text, unless memory ran out.
    ensures fault { IfErr result (λ e. e ≢ fault.NoMemory → HasFault text.now e) }
    // The fault of the text is named, unless memory runs out.
    ensures named { (e : TextFault) → HasFault text.now e → FailsOnly e result }
{
    read_item(alloc, text)
}

/// The one item that stands in all of the text.
#[tactic(auto, unfolding(crate::specs::Reading::read_within))]
fn read_item(alloc: Global, text: &[u8]) -> Result<Item, TextFault>
    ensures { Gives (λ item. item) result (read_text text.now) }
{
    let total = text.len();
    let (item, rest) = item_of(alloc, skip_blanks(text), MAX_DEPTH, total)?;
    let rest = skip_blanks(rest);
    if !rest.is_empty() {
        return Err(syntax(rest, total));
    }
    Ok(item)
}

/// The item at the front, in which lists may nest so deep, and the bytes after it. `total` is the text's length.
#[cycle(reading)]
fn item_of(
    alloc: Global,
    bytes: &[u8],
    depth: usize,
    total: usize,
) -> Result<(Item, &[u8]), TextFault>
    requires { length bytes.now ≤ total }
    ensures gives { Gives (λ x. (x.0, x.1.now)) result (item_at Kept depth total bytes.now) }
    ensures within { IfOk result (λ x. length x.1.now < length bytes.now) }
{
    let (kind, rest) = kind_of(bytes, total)?;
    let Kind::L = kind else {
        return leaf_of(alloc, kind, rest, total);
    };
    if depth == 0 {
        return Err(TextFault::TooDeep {
            at: total - bytes.len(),
        });
    }
    let (items, rest) = items_of(alloc, rest, depth - 1, total)?;
    Ok((Item::L(items), rest))
}

/// The items of a list, and the bytes after its end.
#[cycle(reading)]
fn items_of(
    alloc: Global,
    bytes: &[u8],
    depth: usize,
    total: usize,
) -> Result<(Row<Item>, &[u8]), TextFault>
    requires { length bytes.now ≤ total }
    ensures gives { Gives (λ x. (x.0, x.1.now)) result (elements_at (item_at Kept depth) total bytes.now) }
    ensures within { IfOk result (λ x. length x.1.now < length bytes.now) }
{
    let mut items = Row::new(alloc);
    let mut rest = bytes;
    'items: loop {
        match next_element(rest, total)? {
            Next::End(after) => return Ok((items, after)),
            Next::Element(front) => {
                let (item, after) = item_of(alloc, front, depth, total)?;
                items.push(item)?;
                rest = after;
            }
        }
    }
}

/// An item that is no list, behind its name.
#[tactic(auto, unfolding(crate::specs::Reading::elements_of))]
fn leaf_of(
    alloc: Global,
    kind: Kind,
    bytes: &[u8],
    total: usize,
) -> Result<(Item, &[u8]), TextFault>
    requires leaf { kind ≢ kinds.L }
    requires within { length bytes.now ≤ total }
    ensures gives { GivesLeaf (λ x. (x.0, x.1.now)) result kind total bytes.now }
    ensures within { IfOk result (λ x. length x.1.now < length bytes.now) }
{
    Ok(match kind {
        Kind::L => unreachable!(),
        Kind::A => {
            let (text, rest) = text_of(alloc, bytes, total)?;
            (Item::A(text), rest)
        }
        Kind::B => {
            let (bytes, rest) = elements_of::<u8, Hex>(alloc, bytes, total)?;
            (Item::B(bytes), rest)
        }
        Kind::Bool => {
            let (bytes, rest) = elements_of::<u8, Hex>(alloc, bytes, total)?;
            (Item::Bool(bytes), rest)
        }
        Kind::J => {
            let (bytes, rest) = elements_of::<u8, Hex>(alloc, bytes, total)?;
            (Item::J(bytes), rest)
        }
        Kind::I1 => {
            let (numbers, rest) = elements_of::<i8, Decimal>(alloc, bytes, total)?;
            (Item::I1(numbers), rest)
        }
        Kind::I2 => {
            let (numbers, rest) = elements_of::<i16, Decimal>(alloc, bytes, total)?;
            (Item::I2(numbers), rest)
        }
        Kind::I4 => {
            let (numbers, rest) = elements_of::<i32, Decimal>(alloc, bytes, total)?;
            (Item::I4(numbers), rest)
        }
        Kind::I8 => {
            let (numbers, rest) = elements_of::<i64, Decimal>(alloc, bytes, total)?;
            (Item::I8(numbers), rest)
        }
        Kind::U1 => {
            let (numbers, rest) = elements_of::<u8, Decimal>(alloc, bytes, total)?;
            (Item::U1(numbers), rest)
        }
        Kind::U2 => {
            let (numbers, rest) = elements_of::<u16, Decimal>(alloc, bytes, total)?;
            (Item::U2(numbers), rest)
        }
        Kind::U4 => {
            let (numbers, rest) = elements_of::<u32, Decimal>(alloc, bytes, total)?;
            (Item::U4(numbers), rest)
        }
        Kind::U8 => {
            let (numbers, rest) = elements_of::<u64, Decimal>(alloc, bytes, total)?;
            (Item::U8(numbers), rest)
        }
        Kind::F4 => {
            let (floats, rest) = elements_of::<[u8; 4], Hex>(alloc, bytes, total)?;
            (Item::F4(floats), rest)
        }
        Kind::F8 => {
            let (floats, rest) = elements_of::<[u8; 8], Hex>(alloc, bytes, total)?;
            (Item::F8(floats), rest)
        }
    })
}

/// Elements that stand in a form, and the bytes after their item's end.
fn elements_of<T: Drop, F: Form<T>>(
    alloc: Global,
    bytes: &[u8],
    total: usize,
) -> Result<(Row<T>, &[u8]), TextFault>
    requires { length bytes.now ≤ total }
    ensures gives { Gives (λ x. (x.0, x.1.now)) result (elements_at F.element_at total bytes.now) }
    ensures within { IfOk result (λ x. length x.1.now < length bytes.now) }
{
    let mut elements = Row::new(alloc);
    let mut rest = bytes;
    'elements: loop {
        match next_element(rest, total)? {
            Next::End(after) => return Ok((elements, after)),
            Next::Element(front) => {
                let (element, after) = F::read(front, total)?;
                elements.push(element)?;
                rest = after;
            }
        }
    }
}

/// The one text of an A, and the bytes after the end of the A.
#[tactic(auto, unfolding(crate::specs::Reading::text_at))]
fn text_of(alloc: Global, bytes: &[u8], total: usize) -> Result<(Row<u8>, &[u8]), TextFault>
    requires { length bytes.now ≤ total }
    ensures gives { Gives (λ x. (x.0, x.1.now)) result (text_at total bytes.now) }
    ensures within { IfOk result (λ x. length x.1.now < length bytes.now) }
{
    let rest = skip_space(bytes, total)?;
    let (text, rest) = quoted_of(alloc, rest, total)?;
    let rest = expect_end(rest, total)?;
    Ok((text, rest))
}

/// A text in quotes.
#[tactic(auto, unfolding(crate::specs::Reading::quoted_at))]
fn quoted_of(alloc: Global, bytes: &[u8], total: usize) -> Result<(Row<u8>, &[u8]), TextFault>
    requires { length bytes.now ≤ total }
    ensures gives { Gives (λ x. (x.0, x.1.now)) result (quoted_at total bytes.now) }
    ensures within { IfOk result (λ x. length x.1.now < length bytes.now) }
{
    let inner = expect(b'"', bytes, total)?;
    shown_bytes(alloc, inner, total)
}

/// The bytes up to the closing quote, and what stands after it.
fn shown_bytes(alloc: Global, bytes: &[u8], total: usize) -> Result<(Row<u8>, &[u8]), TextFault>
    requires { length bytes.now ≤ total }
    ensures gives { Gives (λ x. (x.0, x.1.now)) result (all_shown_at total bytes.now) }
    ensures within { IfOk result (λ x. length x.1.now < length bytes.now) }
{
    let mut shown = Row::new(alloc);
    let mut rest = bytes;
    'shown: loop {
        if begins(b'"', rest) {
            let (_, after) = rest.split_at(1);
            return Ok((shown, after));
        }
        let (byte, after) = shown_byte(rest, total)?;
        shown.push(byte)?;
        rest = after;
    }
}

/// A byte between quotes.
#[tactic(auto, unfolding(crate::specs::Reading::shown_at))]
fn shown_byte(bytes: &[u8], total: usize) -> Result<(u8, &[u8]), TextFault>
    requires { length bytes.now ≤ total }
    ensures reads { Reads (λ x. (x.0, x.1.now)) result (shown_at total bytes.now) }
    ensures within { IfOk result (λ x. length x.1.now < length bytes.now) }
{
    let Some((byte, rest)) = bytes.split_first() else {
        return Err(TextFault::Syntax { at: total });
    };
    if stands_for_itself(*byte) {
        return Ok((*byte, rest));
    }
    if *byte != b'\\' {
        return Err(syntax(bytes, total));
    }
    let digits = expect(b'x', rest, total)?;
    escaped_byte(digits, total)
}

/// The two digits of a byte that doesn't stand for itself.
#[tactic(auto, unfolding(crate::specs::Reading::escape_at))]
fn escaped_byte(bytes: &[u8], total: usize) -> Result<(u8, &[u8]), TextFault>
    requires { length bytes.now ≤ total }
    ensures reads { Reads (λ x. (x.0, x.1.now)) result (escape_at total bytes.now) }
    ensures within { IfOk result (λ x. length x.1.now < length bytes.now) }
{
    let (high, rest) = hex_digit(bytes, total)?;
    if matches!(high, 3 | 4 | 6) {
        return Err(syntax(bytes, total));
    }
    let (low, after) = hex_digit(rest, total)?;
    let byte = 16 * high + low;
    if stands_for_itself(byte) {
        return Err(syntax(rest, total));
    }
    Ok((byte, after))
}
