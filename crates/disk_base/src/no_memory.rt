//! The error at want of memory, with its conversions. This crate stands on no other one, so it has an error of its own.

use std::alloc::{AllocError, AllocFailed};

/// Memory ran out.
#[derive(Clone, Copy, Debug, PartialEq, Eq)]
pub struct NoMemory;

impl From<AllocError> for NoMemory {
    fn from(_error: AllocError) -> NoMemory {
        NoMemory
    }
}

impl<T: Drop> From<AllocFailed<T>> for NoMemory {
    fn from(_failed: AllocFailed<T>) -> NoMemory {
        NoMemory
    }
}
