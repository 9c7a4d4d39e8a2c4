//! A file that one program has for itself, by the lock of the system, which has a call for it on its own files alone.

use std::fs::File;
use std::io;

/// A file that can be taken, so that nobody else can take it until it is closed.
pub trait LockFile {
    /// Takes the file, and waits for nobody. It is an error where another has it, another opening by the same program
    /// too.
    fn take_lock(&self) -> io::Result<()>;
}

impl LockFile for File {
    fn take_lock(&self) -> io::Result<()> {
        Ok(self.try_lock()?)
    }
}
