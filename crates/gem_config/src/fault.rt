//! Why a plan file is refused: the key, and what is wrong with it.

ghost use Rattle.std.specs.Prelude.{◌≡◌};
ghost use Rattle.gem_config.specs.declared.fault.ConfigFault.TheVariants as faults;

use gl_base::{NoMemory, Row};
use thiserror::Error;

/// What is wrong with a key of a plan file.
#[derive(Clone, Copy, Debug, PartialEq, Eq)]
pub enum ConfigWhat {
    /// The text is no TOML, or no UTF-8. The key is then empty.
    Syntax,
    /// A key that is needed isn't there.
    Missing,
    /// The value is of another kind.
    Kind,
    /// The value is outside its range.
    Range,
    /// The identifier, or the name of a command, stands there a second time.
    Repeated,
    /// There is no such key.
    Unknown,
}

/// Why a plan file was refused.
#[derive(Debug, Drop, Error)]
pub enum ConfigFault {
    /// The first refusal in the order of the key table. `key` is the section, a point and the key; the section alone
    /// where that is refused as a whole.
    #[error("a key of the plan is refused")]
    Key { key: Row<u8>, what: ConfigWhat },
    /// Memory ran out.
    #[error("memory ran out")]
    NoMemory,
}

impl From<NoMemory> for ConfigFault {
    ghost from_gives = { λ _ e. e ≡ faults.NoMemory };

    fn from(_error: NoMemory) -> ConfigFault {
        ConfigFault::NoMemory
    }
}
