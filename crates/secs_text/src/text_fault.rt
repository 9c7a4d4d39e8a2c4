//! Why a text can't be read as an item, each fault with its place.

ghost use Rattle.std.specs.Prelude.{◌≡◌};
ghost use Rattle.secs_text.specs.declared.text_fault.TextFault.TheVariants as fault;

/// Why a text reads as no item: the first fault in it. `at` is a place in the text.
#[derive(Clone, Copy, Debug, PartialEq, Eq)]
pub enum TextFault {
    /// With the byte there it begins no text of the form any more, or it ends there and more is needed.
    Syntax { at: usize },
    /// The number that begins there is outside its kind.
    Range { at: usize },
    /// A list that stands in 64 others begins there.
    TooDeep { at: usize },
    /// Memory ran out.
    NoMemory,
}

impl From<gl_base::NoMemory> for TextFault {
    ghost from_gives = { λ _ e. e ≡ fault.NoMemory };

    fn from(_error: gl_base::NoMemory) -> TextFault {
        TextFault::NoMemory
    }
}
