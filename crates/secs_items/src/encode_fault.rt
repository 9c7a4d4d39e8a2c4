//! Why an item can't be written as bytes.

ghost use Rattle.std.specs.Prelude.{◌≡◌};
ghost use Rattle.secs_items.specs.declared.encode_fault.EncodeFault.TheVariants as fault;

/// Why an item has no spelling. `at` is how far into the spelling the item would begin that has none.
#[derive(Clone, Copy, Debug, PartialEq, Eq)]
pub enum EncodeFault {
    /// More than 16,777,215 items, or bytes of elements: three length bytes don't hold the length.
    TooLong { at: usize },
    /// A list that stands in 64 others.
    TooDeep { at: usize },
    /// Memory ran out.
    NoMemory,
}

impl From<gl_base::NoMemory> for EncodeFault {
    ghost from_gives = { λ _ e. e ≡ fault.NoMemory };

    fn from(_error: gl_base::NoMemory) -> EncodeFault {
        EncodeFault::NoMemory
    }
}
