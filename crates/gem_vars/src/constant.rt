//! One equipment constant as it stands, and its row of S2F30.

ghost use Rattle.std.specs.Prelude.{◌≡◌, ℕ, length, IfOk, None, Some};
ghost use Rattle.secs_items.specs.Measures.{capped};
ghost use Rattle.secs_items.specs.Spelling.{shortest_spelling};
ghost use Rattle.gem_vars.specs.Listing.{limits_row};

use crate::rows::{NUMBER_LEN, texts_len};
use gl_base::{NoMemory, Row};
use secs_items::{Item, list_len};
use std::alloc::Global;

/// An equipment constant as it stands.
#[derive(Debug, Drop)]
pub(crate) struct Constant {
    pub(crate) name: Row<u8>,
    pub(crate) units: Row<u8>,
    pub(crate) min: u32,
    pub(crate) max: u32,
    /// The plan's value.
    pub(crate) default: u32,
    pub(crate) value: u32,
}

impl Constant {
    /// Its ECID, name, minimum, maximum, default and units.
    pub(crate) fn limits(&self, alloc: Global, ecid: u32) -> Result<Item, NoMemory>
        ensures { IfOk result (λ row. row ≡ limits_row ecid (Some self.now)) }
    {
        let mut items = Row::new(alloc);
        items.push(Item::number(alloc, ecid)?)?;
        items.push(Item::text(alloc, self.name.as_slice())?)?;
        items.push(Item::number(alloc, self.min)?)?;
        items.push(Item::number(alloc, self.max)?)?;
        items.push(Item::number(alloc, self.default)?)?;
        items.push(Item::text(alloc, self.units.as_slice())?)?;
        Ok(Item::L(items))
    }

    /// How many bytes these have, or `usize::MAX` where they have more, whichever its ECID.
    pub(crate) fn limits_len(&self) -> usize
        ensures { (ecid : ℕ) → result ≡ capped (length (shortest_spelling (limits_row ecid (Some self.now)))) }
    {
        let (name, units) = (self.name.as_slice(), self.units.as_slice());
        list_len(6, texts_len(4 * NUMBER_LEN, name, units))
    }
}

/// How many bytes the limits have of a constant that isn't there.
pub(crate) const UNKNOWN_CONSTANT_LEN: usize = 18;

/// The limits of a constant that isn't there.
pub(crate) fn unknown_constant(alloc: Global, ecid: u32) -> Result<Item, NoMemory>
    ensures { IfOk result (λ row. row ≡ limits_row ecid None) }
{
    let mut items = Row::new(alloc);
    items.push(Item::number(alloc, ecid)?)?;
    items.push(Item::text(alloc, &[])?)?;
    items.push(Item::text(alloc, &[])?)?;
    items.push(Item::text(alloc, &[])?)?;
    items.push(Item::text(alloc, &[])?)?;
    items.push(Item::text(alloc, &[])?)?;
    Ok(Item::L(items))
}
