//! A stand-in of the system's files for tests: it has the files of a system, and counts how often one is synced.

use crate::lock_file::LockFile;
use std::alloc::Allocator;
use std::cell::Cell;
use std::fs::{Metadata, OpenFile, OpenOptions};
use std::io::{ErrorKind, Read, Seek, SeekFrom, Write};
use std::os::unix::fs::FileExt;
use std::{io, rt};

/// How often files that are written were synced, and files that are only read, as a folder is.
#[derive(Drop)]
pub(crate) struct Syncs {
    files: Cell<u32>,
    folders: Cell<u32>,
}

impl Syncs {
    pub(crate) fn none() -> Syncs {
        Syncs {
            files: Cell::new(0),
            folders: Cell::new(0),
        }
    }

    pub(crate) fn counts(&self) -> (u32, u32) {
        (self.files.get(), self.folders.get())
    }
}

/// The files of a system, whose syncs are counted.
#[derive(Drop)]
pub(crate) struct CountedFiles<'a, R> {
    system: R,
    syncs: &'a Syncs,
}

impl<'a, R> CountedFiles<'a, R> {
    pub(crate) fn new(system: R, syncs: &'a Syncs) -> CountedFiles<'a, R> {
        CountedFiles { system, syncs }
    }
}

/// One of them.
#[derive(Drop)]
pub(crate) struct CountedFile<'a, F> {
    file: F,
    count: &'a Cell<u32>,
}

fn unsupported() -> io::Error {
    io::Error::from(ErrorKind::Unsupported)
}

impl<'a, R: rt::Files> rt::Files for CountedFiles<'a, R> {
    type File = CountedFile<'a, R::File>;

    type Dir = R::Dir;

    fn open_file(&self, how: &OpenOptions, path: &str) -> io::Result<CountedFile<'a, R::File>> {
        let file = self.system.open_file(how, path)?;
        let syncs = self.syncs;
        let count = if how.asks_write() {
            &syncs.files
        } else {
            &syncs.folders
        };
        Ok(CountedFile { file, count })
    }

    fn open_dir(&self, path: &str) -> io::Result<R::Dir> {
        self.system.open_dir(path)
    }

    fn metadata(&self, path: &str) -> io::Result<Metadata> {
        self.system.metadata(path)
    }

    fn symlink_metadata(&self, path: &str) -> io::Result<Metadata> {
        self.system.symlink_metadata(path)
    }

    fn copy(&self, _from: &str, _to: &str) -> io::Result<u64> {
        Err(unsupported())
    }

    fn rename(&self, _from: &str, _to: &str) -> io::Result<()> {
        Err(unsupported())
    }

    fn remove_file(&self, _path: &str) -> io::Result<()> {
        Err(unsupported())
    }

    fn create_dir(&self, _path: &str) -> io::Result<()> {
        Err(unsupported())
    }

    fn remove_dir(&self, _path: &str) -> io::Result<()> {
        Err(unsupported())
    }

    fn remove_dir_all<B: Allocator>(&self, _alloc: B, _path: &str) -> io::Result<()> {
        Err(unsupported())
    }
}

impl<'a, F: OpenFile> OpenFile for CountedFile<'a, F> {
    fn metadata(&self) -> io::Result<Metadata> {
        self.file.metadata()
    }

    fn set_len(&self, size: u64) -> io::Result<()> {
        self.file.set_len(size)
    }

    fn sync_all(&self) -> io::Result<()> {
        self.count.set(self.count.get().saturating_add(1));
        self.file.sync_all()
    }

    fn sync_data(&self) -> io::Result<()> {
        Err(unsupported())
    }
}

impl<'a, F: FileExt> FileExt for CountedFile<'a, F> {
    fn read_at(&self, buf: &mut [u8], offset: u64) -> io::Result<usize> {
        self.file.read_at(buf, offset)
    }

    fn write_at(&self, buf: &[u8], offset: u64) -> io::Result<usize> {
        self.file.write_at(buf, offset)
    }
}

impl<'a, F: LockFile> LockFile for CountedFile<'a, F> {
    fn take_lock(&self) -> io::Result<()> {
        self.file.take_lock()
    }
}

// A disk reads and writes at a place alone.

impl<'a, F> Read for CountedFile<'a, F> {
    fn read(&mut self, _buf: &mut [u8]) -> io::Result<usize> {
        Err(unsupported())
    }
}

impl<'a, F> Write for CountedFile<'a, F> {
    fn write(&mut self, _buf: &[u8]) -> io::Result<usize> {
        Err(unsupported())
    }

    fn flush(&mut self) -> io::Result<()> {
        Err(unsupported())
    }
}

impl<'a, F> Seek for CountedFile<'a, F> {
    fn seek(&mut self, _to: SeekFrom) -> io::Result<u64> {
        Err(unsupported())
    }
}
