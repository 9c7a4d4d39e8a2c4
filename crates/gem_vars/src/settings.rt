//! Why a variable isn't set, and the acknowledgement of S2F15.

ghost use Rattle.std.specs.Prelude.{◌≡◌};
ghost use Rattle.gem_vars.specs.declared.settings.Setting.TheVariants as setting;

use gl_base::NoMemory;

/// Why a variable wasn't set. The number is the VID.
#[derive(Clone, Copy, Debug, PartialEq, Eq)]
pub enum Setting {
    /// The plan has no such variable.
    Unknown(u32),
    /// The value's kind isn't the variable's.
    Kind(u32),
    /// The value has more than 4,096 bytes when it is encoded, or lists that nest more than 60 deep.
    TooLong(u32),
    /// Memory ran out.
    NoMemory,
}

impl From<NoMemory> for Setting {
    ghost from_gives = { λ _ e. e ≡ setting.NoMemory };

    fn from(_error: NoMemory) -> Setting {
        Setting::NoMemory
    }
}

/// The acknowledgement of S2F15.
#[derive(Clone, Copy, Debug, PartialEq, Eq)]
pub enum Eac {
    Done,
    /// There is no constant with this ECID.
    Unknown(u32),
    /// The value for this ECID is outside the constant's range.
    OutOfRange(u32),
}
