//! The name of a recipe.

ghost use Rattle.std.specs.Prelude.{◌≡◌, IfOk};
ghost use Rattle.gem_recipes.specs.Recipes.{IsPpid};

use gl_base::{NoMemory, Row};
use std::alloc::Global;
use std::marker::Model;

/// The name of a recipe, PPID: 1 to 80 bytes.
#[derive(Debug, Drop)]
pub struct Ppid {
    bytes: Row<u8>,
}

impl Model for Ppid {
    ghost use Rattle.std.specs.Prelude.{ℕ, List};
    ghost use Rattle.gem_recipes.specs.Recipes.{IsPpid};

    ghost Value = { List ℕ };

    ghost view = { λ name. name.bytes };

    ghost invariant = { λ name. IsPpid name.bytes };
}

impl Ppid {
    /// The name of these bytes, which are copied.
    pub fn of(alloc: Global, bytes: &[u8]) -> Result<Ppid, NoMemory>
        requires { IsPpid bytes.now }
        ensures { IfOk result (λ name. name ≡ bytes.now) }
    {
        Ok(Ppid {
            bytes: Row::of(alloc, bytes)?,
        })
    }

    pub fn bytes(&self) -> &[u8]
        ensures bytes { result.now ≡ self.now }
        ensures is { IsPpid result.now }
    {
        self.bytes.as_slice()
    }
}
