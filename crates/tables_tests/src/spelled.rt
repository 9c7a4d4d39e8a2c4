//! Whether an item is spelled by given bytes, which several of these files ask.

use gl_base::{NoMemory, Row};
use secs_items::{Item, encode_into};
use std::alloc::Global;

// Whether an item is spelled so.
pub(crate) fn is_spelled(alloc: Global, item: Result<Item, NoMemory>, bytes: &[u8]) -> bool {
    let mut spelling = Row::new(alloc);
    match item {
        Ok(item) => encode_into(&item, &mut spelling).is_ok() && spelling.as_slice() == bytes,
        Err(NoMemory) => false,
    }
}
