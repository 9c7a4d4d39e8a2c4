//! Items and bodies of a line.

ghost use Rattle.std.specs.Prelude.{◌≡◌, IfOk};
ghost use Rattle.line_schedule.specs.Items.{body_in, bytes_of, item_in, spelling_of, text_in};

use crate::words::is_word;
use gl_base::{NoMemory, Row};
use secs_items::{EncodeFault, Item, encode_into};
use secs_text::{TextFault, read};
use std::alloc::Global;

/// The item that all of the text reads as.
#[tactic(auto, using(crate::proofs::ItemReaders::no_item))]
pub(crate) fn item_in(alloc: Global, text: &[u8]) -> Result<Option<Item>, NoMemory>
    ensures { IfOk result (λ item. item ≡ item_in text.now) }
{
    match read(alloc, text) {
        Ok(item) => Ok(Some(item)),
        Err(TextFault::NoMemory) => Err(NoMemory),
        Err(_) => Ok(None),
    }
}

/// The bytes of the A that all of the text reads as.
pub(crate) fn text_in(alloc: Global, text: &[u8]) -> Result<Option<Row<u8>>, NoMemory>
    ensures { IfOk result (λ bytes. bytes ≡ text_in text.now) }
{
    match item_in(alloc, text)? {
        Some(item) => Ok(bytes_of(item)),
        None => Ok(None),
    }
}

fn bytes_of(item: Item) -> Option<Row<u8>>
    ensures { result ≡ bytes_of item }
{
    match item {
        Item::A(bytes) => Some(bytes),
        _ => None,
    }
}

/// No bytes for a hyphen, else the bytes that the item of the text spells, where it has a spelling.
pub(crate) fn body_in(alloc: Global, text: &[u8]) -> Result<Option<Row<u8>>, NoMemory>
    ensures { IfOk result (λ body. body ≡ body_in text.now) }
{
    if is_word(b"-", text) {
        return Ok(Some(Row::new(alloc)));
    }
    match item_in(alloc, text)? {
        Some(item) => spelling_of(alloc, &item),
        None => Ok(None),
    }
}

fn spelling_of(alloc: Global, item: &Item) -> Result<Option<Row<u8>>, NoMemory>
    ensures { IfOk result (λ bytes. bytes ≡ spelling_of item.now) }
{
    let mut bytes = Row::new(alloc);
    match encode_into(item, &mut bytes) {
        Ok(()) => Ok(Some(bytes)),
        Err(EncodeFault::NoMemory) => Err(NoMemory),
        Err(EncodeFault::TooLong { .. } | EncodeFault::TooDeep { .. }) => Ok(None),
    }
}
