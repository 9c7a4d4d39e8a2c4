//! The address of the last connection, which clauses need and the code doesn't: a value that takes no memory.

ghost use Rattle.std.specs.Prelude.{◌≡◌, ℕ, List, Option, Some, None};
ghost use Rattle.std.specs.Borrow.{ftrue};

use std::fmt::{self, Write};
use std::marker::{Model, PhantomData};

/// The address at which a link has listened last, or that it has called, for clauses alone: it takes no memory, and its
/// calls do nothing.
#[derive(Drop)]
pub struct LastAddress {
    marker: PhantomData<u8>,
    pub ghost listened_at: { Option (List ℕ) },
    pub ghost called: { Option (List ℕ) },
}

impl Model for LastAddress {
    ghost also_owns = { λ _. ftrue };
}

impl LastAddress {
    /// None yet.
    pub fn none() -> LastAddress
        ensures { (result.listened_at ≡ None) × (result.called ≡ None) }
    {
        LastAddress {
            marker: PhantomData,
        }
    }

    /// One at which it listens.
    pub fn listening(_address: &[u8]) -> LastAddress
        ensures { (result.listened_at ≡ Some _address.now) × (result.called ≡ None) }
    {
        LastAddress {
            marker: PhantomData,
        }
    }

    /// One that it calls.
    pub fn calling(_address: &[u8]) -> LastAddress
        ensures { (result.listened_at ≡ None) × (result.called ≡ Some _address.now) }
    {
        LastAddress {
            marker: PhantomData,
        }
    }
}

impl fmt::Debug for LastAddress {
    fn fmt<W: Write>(&self, f: &mut fmt::Formatter<W>) -> fmt::Result {
        f.write_str("LastAddress")
    }
}
