//! The name of the attached file, which clauses need and the code doesn't: a value that takes no memory.

ghost use Rattle.std.specs.Prelude.{◌≡◌, ℕ, List, Option, Some, None};
ghost use Rattle.std.specs.Borrow.{ftrue};

use std::fmt::{self, Write};
use std::marker::{Model, PhantomData};

/// The name of the file that a disk has attached, for clauses alone: it takes no memory, and its calls do nothing.
#[derive(Drop)]
pub struct AttachedFile {
    marker: PhantomData<u8>,
    pub ghost name: { Option (List ℕ) },
}

impl Model for AttachedFile {
    ghost also_owns = { λ _. ftrue };
}

impl AttachedFile {
    /// None yet.
    pub fn none() -> AttachedFile
        ensures { result.name ≡ None }
    {
        AttachedFile {
            marker: PhantomData,
        }
    }

    /// The file of this name.
    pub fn of(_name: &[u8]) -> AttachedFile
        ensures { result.name ≡ Some _name.now }
    {
        AttachedFile {
            marker: PhantomData,
        }
    }
}

impl fmt::Debug for AttachedFile {
    fn fmt<W: Write>(&self, f: &mut fmt::Formatter<W>) -> fmt::Result {
        f.write_str("AttachedFile")
    }
}
