//! Items to text.

ghost use Rattle.std.specs.Prelude.{◌≡◌, ℕ, ◌++◌, [], ◌∷◌, OnErr, OnOk};
ghost use Rattle.std.specs.List.{flat_map, AllByRecursion};
ghost use Rattle.secs_items.specs.Elements.{IsByte};
ghost use Rattle.secs_items.specs.Ranges.{InRange};
ghost use Rattle.secs_text.specs.Grammar.{IsShallow, ReadsAs};
ghost use Rattle.secs_text.specs.Printing.{Puts};
ghost use Rattle.secs_text.specs.Text.{quoted_text, spaced_texts, text_of};
ghost use Rattle.short_text.specs.Shown.{shown_text};

use crate::forms::{Decimal, Form, Hex};
use crate::lexing::stands_for_itself;
use gl_base::{NoMemory, Row};
use secs_items::Item;

/// Puts the text of an item, on one line, at the end of the row. Where memory runs out it leaves the row as it was.
pub fn print(item: &Item, into: &mut Row<u8>) -> Result<(), NoMemory>
    ensures ok { OnOk result (into.new ≡ into.old ++ text_of item.now) }
    // What was put reads as the item, where no list stands in 64 others.
    ensures reads { OnOk result (IsShallow item.now → ReadsAs (text_of item.now) item.now) }
    ensures err { OnErr result (into.new ≡ into.old) }
{
    let start = into.len();
    let printed = put_item(item, into);
    if printed.is_err() {
        into.truncate(start);
    }
    printed
}

#[cycle(printing)]
fn put_item(item: &Item, into: &mut Row<u8>) -> Result<(), NoMemory>
    ensures puts { Puts (text_of item.now) into.old into.new result }
    ensures ranges { OnOk result (InRange item.now) }
{
    match item {
        Item::L(items) => put_list(items.as_slice(), into),
        Item::B(bytes) => put_elements::<u8, Hex>(b"<B", bytes, into),
        Item::Bool(bytes) => put_elements::<u8, Hex>(b"<BOOLEAN", bytes, into),
        Item::A(bytes) => put_text(bytes.as_slice(), into),
        Item::J(bytes) => put_elements::<u8, Hex>(b"<J", bytes, into),
        Item::I1(numbers) => put_elements::<i8, Decimal>(b"<I1", numbers, into),
        Item::I2(numbers) => put_elements::<i16, Decimal>(b"<I2", numbers, into),
        Item::I4(numbers) => put_elements::<i32, Decimal>(b"<I4", numbers, into),
        Item::I8(numbers) => put_elements::<i64, Decimal>(b"<I8", numbers, into),
        Item::U1(numbers) => put_elements::<u8, Decimal>(b"<U1", numbers, into),
        Item::U2(numbers) => put_elements::<u16, Decimal>(b"<U2", numbers, into),
        Item::U4(numbers) => put_elements::<u32, Decimal>(b"<U4", numbers, into),
        Item::U8(numbers) => put_elements::<u64, Decimal>(b"<U8", numbers, into),
        Item::F4(floats) => put_elements::<[u8; 4], Hex>(b"<F4", floats, into),
        Item::F8(floats) => put_elements::<[u8; 8], Hex>(b"<F8", floats, into),
    }
}

/// Puts a list of items.
#[cycle(printing)]
fn put_list(items: &[Item], into: &mut Row<u8>) -> Result<(), NoMemory>
    ensures puts { Puts (60 ∷ 76 ∷ [] ++ spaced_texts text_of items.now ++ 62 ∷ []) into.old into.new result }
    ensures ranges { OnOk result (AllByRecursion InRange items.now) }
{
    into.extend(b"<L")?;
    for item in items {
        into.push(b' ')?;
        put_item(item, into)?;
    }
    into.push(b'>')
}

/// Puts an item whose text opens so and whose elements stand in a form.
fn put_elements<T: Copy, F: Form<T>>(
    opening: &[u8],
    elements: &Row<T>,
    into: &mut Row<u8>,
) -> Result<(), NoMemory>
    ensures puts { Puts (opening.now ++ spaced_texts F.text elements.now ++ 62 ∷ []) into.old into.new result }
    ensures ranges { OnOk result (AllByRecursion F.fits elements.now) }
{
    into.extend(opening)?;
    put_each::<T, F>(elements.as_slice(), into)?;
    into.push(b'>')
}

/// Puts each element after a space.
fn put_each<T: Copy, F: Form<T>>(elements: &[T], into: &mut Row<u8>) -> Result<(), NoMemory>
    ensures puts { Puts (spaced_texts F.text elements.now) into.old into.new result }
    ensures ranges { OnOk result (AllByRecursion F.fits elements.now) }
{
    for element in elements {
        into.push(b' ')?;
        F::put(*element, into)?;
    }
    Ok(())
}

/// Puts an A.
fn put_text(bytes: &[u8], into: &mut Row<u8>) -> Result<(), NoMemory>
    ensures puts { Puts (60 ∷ 65 ∷ 32 ∷ [] ++ quoted_text bytes.now ++ 62 ∷ []) into.old into.new result }
    ensures ranges { OnOk result (AllByRecursion IsByte bytes.now) }
{
    into.extend(b"<A \"")?;
    put_shown(bytes, into)?;
    into.extend(b"\">")
}

/// Puts bytes as they are shown between quotes.
fn put_shown(bytes: &[u8], into: &mut Row<u8>) -> Result<(), NoMemory>
    ensures { Puts (flat_map shown_text bytes.now) into.old into.new result }
{
    for byte in bytes {
        put_byte(*byte, into)?;
    }
    Ok(())
}

/// Puts a byte as it is, or a backslash, x and two digits.
fn put_byte(byte: u8, into: &mut Row<u8>) -> Result<(), NoMemory>
    ensures { Puts (shown_text byte) into.old into.new result }
{
    if stands_for_itself(byte) {
        return into.push(byte);
    }
    into.extend(b"\\x")?;
    <Hex as Form<u8>>::put(byte, into)
}
