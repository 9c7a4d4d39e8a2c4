//! Why bytes can't be read as an item, each fault with its place.

ghost use Rattle.std.specs.Prelude.{◌≡◌};
ghost use Rattle.secs_items.specs.declared.item_fault.ItemFault.TheVariants as fault;

/// Why bytes spell no item: the first fault in the order of reading. `at` is a place in the input.
#[derive(Clone, Copy, Debug, PartialEq, Eq)]
pub enum ItemFault {
    /// A byte is missing at the input's end.
    Short { at: usize },
    /// The format byte there has a code that no kind has.
    BadCode { at: usize },
    /// The format byte there announces no length bytes.
    NoLengthBytes { at: usize },
    /// The length of the item there is no multiple of its elements' size.
    Uneven { at: usize },
    /// A list that stands in 64 others begins there.
    TooDeep { at: usize },
    /// The item has ended there, and further bytes follow.
    Trailing { at: usize },
    /// Memory ran out.
    NoMemory,
}

impl From<gl_base::NoMemory> for ItemFault {
    ghost from_gives = { λ _ e. e ≡ fault.NoMemory };

    fn from(_error: gl_base::NoMemory) -> ItemFault {
        ItemFault::NoMemory
    }
}
