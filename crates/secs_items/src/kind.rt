//! The kinds of items: their codes in the format byte, and the sizes of their elements.

ghost use Rattle.std.specs.Prelude.{◌≡◌};
ghost use Rattle.secs_items.specs.Kinds.{code_of, is_list, kind_with, unit_of};

/// What the elements of an item are (SEMI E5).
#[derive(Clone, Copy, Debug, PartialEq, Eq)]
pub enum Kind {
    L,
    B,
    Bool,
    A,
    J,
    I1,
    I2,
    I4,
    I8,
    U1,
    U2,
    U4,
    U8,
    F4,
    F8,
}

impl Kind {
    /// The upper six bits of the format byte.
    pub fn code(self) -> u8
        ensures { result ≡ code_of self }
    {
        match self {
            Kind::L => 0o00,
            Kind::B => 0o10,
            Kind::Bool => 0o11,
            Kind::A => 0o20,
            Kind::J => 0o21,
            Kind::I8 => 0o30,
            Kind::I1 => 0o31,
            Kind::I2 => 0o32,
            Kind::I4 => 0o34,
            Kind::F8 => 0o40,
            Kind::F4 => 0o44,
            Kind::U8 => 0o50,
            Kind::U1 => 0o51,
            Kind::U2 => 0o52,
            Kind::U4 => 0o54,
        }
    }

    /// How many bytes an element takes. A list counts items, one by one.
    pub fn unit(self) -> usize
        ensures { result ≡ unit_of self }
    {
        match self {
            Kind::L | Kind::B | Kind::Bool | Kind::A | Kind::J | Kind::I1 | Kind::U1 => 1,
            Kind::I2 | Kind::U2 => 2,
            Kind::I4 | Kind::U4 | Kind::F4 => 4,
            Kind::I8 | Kind::U8 | Kind::F8 => 8,
        }
    }

    /// The kind that has a code.
    pub(crate) fn with_code(code: u8) -> Option<Kind>
        ensures { result ≡ kind_with code }
    {
        Some(match code {
            0o00 => Kind::L,
            0o10 => Kind::B,
            0o11 => Kind::Bool,
            0o20 => Kind::A,
            0o21 => Kind::J,
            0o30 => Kind::I8,
            0o31 => Kind::I1,
            0o32 => Kind::I2,
            0o34 => Kind::I4,
            0o40 => Kind::F8,
            0o44 => Kind::F4,
            0o50 => Kind::U8,
            0o51 => Kind::U1,
            0o52 => Kind::U2,
            0o54 => Kind::U4,
            _ => return None,
        })
    }

    pub(crate) fn is_list(self) -> bool
        ensures { result ≡ is_list self }
    {
        matches!(self, Kind::L)
    }
}
