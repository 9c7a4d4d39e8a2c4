//! Bodies of answers that several messages share.

ghost use Rattle.std.specs.Prelude.{◌≡◌, IfOk};
ghost use Rattle.gem_shapes.specs.Answers.{code_item, identity_item, pair_item};

use gl_base::{NoMemory, Row};
use secs_items::Item;
use std::alloc::Global;

/// A code of one byte, as EAC, DRACK, LRACK, ERACK, GRANT and ACKC5.
pub fn code_item(alloc: Global, code: u8) -> Result<Item, NoMemory>
    ensures { IfOk result (λ item. item ≡ code_item code) }
{
    Ok(Item::B(Row::of(alloc, &[code])?))
}

/// L,2 of these two, as in S1F14, S2F42 and S2F44.
pub fn pair_item(alloc: Global, first: Item, second: Item) -> Result<Item, NoMemory>
    ensures { IfOk result (λ item. item ≡ pair_item first second) }
{
    let mut items = Row::new(alloc);
    items.push(first)?;
    items.push(second)?;
    Ok(Item::L(items))
}

/// L,2 of MDLN and SOFTREV, as in S1F2, S1F13 and S1F14.
pub fn identity_item(alloc: Global, mdln: &[u8], softrev: &[u8]) -> Result<Item, NoMemory>
    ensures { IfOk result (λ item. item ≡ identity_item mdln.now softrev.now) }
{
    let mdln = Item::text(alloc, mdln)?;
    pair_item(alloc, mdln, Item::text(alloc, softrev)?)
}
