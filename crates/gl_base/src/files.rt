//! Files that are read by name, as the layers above know them.

ghost use Rattle.std.specs.Prelude.{◌≡◌, List, Option};
ghost use Rattle.gl_base.specs.Files.{FilesHealth, HasFileCause, ReadsFile, told_file};
ghost use Rattle.gl_base.specs.declared.files.MemFile.{MemFile};

use crate::row::Row;
use std::alloc::Global;

/// A file by its name and its bytes.
#[derive(Debug, Drop)]
pub struct MemFile {
    pub name: Row<u8>,
    pub bytes: Row<u8>,
}

/// What reading a file came to.
#[derive(Debug, Drop)]
pub enum FileAnswer {
    /// All of its bytes.
    Whole(Row<u8>),
    /// It has more bytes than the limit.
    Longer,
    /// A fault, which the files have counted.
    Failed,
    NoMemory,
}

/// Files that are read by name.
pub trait Files {
    /// The files, where they are told: in memory they are, over a real object they aren't. No call changes them.
    ghost told: { Self → Option (List MemFile) };

    /// How many faults were counted, and whether no reading of a file that is there can fail any more, which no
    /// real object says. The count rises by one where a call fails, and stands at every other call and at 2^64 - 1.
    ghost health: { Self → FilesHealth };

    /// `Whole` gives the file of this name, if it is no longer than `limit` bytes; `Longer` says that it is.
    fn read_file(&mut self, alloc: Global, name: &str, limit: usize) -> FileAnswer
        ensures bytes { ReadsFile limit name.now (told self.old) result }
        ensures same { told self.new ≡ told self.old }
        ensures cause { HasFileCause (told_file name.now (told self.old)) (health self.old) (health self.new) result };
}
