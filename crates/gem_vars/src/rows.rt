//! How many bytes the parts of rows have.

ghost use Rattle.std.specs.Prelude.{◌≡◌, ◌+◌, length};
ghost use Rattle.secs_items.specs.declared.item.Item.TheVariants as item;
ghost use Rattle.secs_items.specs.Measures.{capped};
ghost use Rattle.secs_items.specs.Spelling.{shortest_spelling};

use secs_items::text_len;

/// How many bytes a number has.
pub(crate) const NUMBER_LEN: usize = 6;

/// How many bytes an empty list has.
pub(crate) const EMPTY_LEN: usize = 2;

/// How many bytes two texts have, with so many others.
pub(crate) fn texts_len(others: usize, name: &[u8], units: &[u8]) -> usize
    ensures { result ≡ capped (others + length (shortest_spelling (item.A name.now))
        + length (shortest_spelling (item.A units.now))) }
{
    others
        .saturating_add(text_len(name.len()))
        .saturating_add(text_len(units.len()))
}
