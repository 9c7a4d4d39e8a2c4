//! One variable as it stands, and its row of S1F12.

ghost use Rattle.std.specs.Prelude.{◌≡◌, ℕ, length, IfOk, None, Some};
ghost use Rattle.secs_items.specs.Measures.{capped};
ghost use Rattle.secs_items.specs.Spelling.{shortest_spelling};
ghost use Rattle.gem_vars.specs.Listing.{name_row, names_row};

use crate::rows::{NUMBER_LEN, texts_len};
use gl_base::{NoMemory, Row};
use secs_items::{Item, list_len};
use std::alloc::Global;

/// A variable as it stands.
#[derive(Debug, Drop)]
pub(crate) struct Variable {
    pub(crate) name: Row<u8>,
    pub(crate) units: Row<u8>,
    pub(crate) value: Item,
}

impl Variable {
    /// Its VID, name and units.
    pub(crate) fn names(&self, alloc: Global, vid: u32) -> Result<Item, NoMemory>
        ensures { IfOk result (λ row. row ≡ names_row vid (Some self.now)) }
    {
        name_row(alloc, vid, self.name.as_slice(), self.units.as_slice())
    }

    /// How many bytes these have, or `usize::MAX` where they have more, whichever its VID.
    pub(crate) fn names_len(&self) -> usize
        ensures { (vid : ℕ) → result ≡ capped (length (shortest_spelling (names_row vid (Some self.now)))) }
    {
        let (name, units) = (self.name.as_slice(), self.units.as_slice());
        list_len(3, texts_len(NUMBER_LEN, name, units))
    }
}

/// How many bytes the names have of a variable that isn't there.
pub(crate) const UNKNOWN_VARIABLE_LEN: usize = 12;

/// The names of a variable that isn't there.
pub(crate) fn unknown_variable(alloc: Global, vid: u32) -> Result<Item, NoMemory>
    ensures { IfOk result (λ row. row ≡ names_row vid None) }
{
    name_row(alloc, vid, &[], &[])
}

fn name_row(alloc: Global, vid: u32, name: &[u8], units: &[u8]) -> Result<Item, NoMemory>
    ensures { IfOk result (λ row. row ≡ name_row vid name.now units.now) }
{
    let mut items = Row::new(alloc);
    items.push(Item::number(alloc, vid)?)?;
    items.push(Item::text(alloc, name)?)?;
    items.push(Item::text(alloc, units)?)?;
    Ok(Item::L(items))
}
