//! The body of an S6F1, which is begun before its sample is taken.

ghost use Rattle.std.specs.Prelude.{◌≡◌, [], ◌∷◌, ◌++◌, IfOk};
ghost use Rattle.secs_items.specs.declared.item.Item.TheVariants as item;
ghost use Rattle.gem_trace.specs.Kept.{body_front};

use gl_base::{NoMemory, Row};
use secs_items::Item;
use std::alloc::Global;
use std::marker::Model;

/// What stands before the values in the body of an S6F1, with room for these.
#[derive(Debug, Drop)]
pub(crate) struct BodyFront {
    items: Vec<Item>,
}

impl Model for BodyFront {
    ghost use Rattle.std.specs.Prelude.{◌<◌, List, vec_capacity, vec_len};
    ghost use Rattle.std.specs.Coded.{coded_list};
    ghost use Rattle.secs_items.specs.contracts.item.Item as item;
    ghost use Rattle.secs_items.specs.declared.item.Item.{Item};

    ghost Value = { List Item };

    ghost coded = { coded_list item.the_row.coded };

    ghost view = { λ front. front.items.items };

    ghost invariant = { λ front. vec_len front.items < vec_capacity front.items };
}

impl BodyFront {
    /// TRID, SMPLN and STIME.
    pub(crate) fn of(alloc: Global, trid: u32, number: u32) -> Result<BodyFront, NoMemory>
        ensures { IfOk result (λ front. front ≡ body_front trid number) }
    {
        let mut items = Vec::with_capacity(alloc, 4)?;
        items.push_reserved(Item::number(alloc, trid)?);
        items.push_reserved(Item::number(alloc, number)?);
        items.push_reserved(Item::text(alloc, &[])?);
        Ok(BodyFront { items })
    }

    /// The whole body, with these values. It takes no memory.
    pub(crate) fn with_values(self, values: Row<Item>) -> Item
        ensures { result ≡ item.L (self ++ item.L values ∷ []) }
    {
        let mut items = self.items;
        items.push_reserved(Item::L(values));
        Item::L(Row::from_vec(items))
    }
}
