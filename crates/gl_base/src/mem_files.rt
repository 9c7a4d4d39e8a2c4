//! Files in memory: they tell their bytes, and fail where it was planned.

ghost use Rattle.std.specs.Prelude.{◌≡◌, ◌≢◌, [], Some, bytes_eq};
ghost use Rattle.std.specs.List.{find};
ghost use Rattle.std.specs.Option.{option_copied};
ghost use Rattle.gl_base.specs.Calls.{no_calls};
ghost use Rattle.gl_base.specs.Files.{HasFileCause, ReadsFile, file_named};
ghost use Rattle.gl_base.specs.MemFiles.{after_reading, answer_to_reading, files_health, answer_up_to};

use crate::calls::Calls;
use crate::files::{FileAnswer, Files, MemFile};
use crate::no_memory::NoMemory;
use crate::row::Row;
use std::alloc::Global;
use std::marker::Model;

/// Files in memory. The calls whose numbers were given fail, and those for a name that no file has; no others do. Of
/// two files of one name the first counts.
#[derive(Debug, Drop)]
pub struct MemFiles {
    files: Row<MemFile>,
    calls: Calls,
}

impl Model for MemFiles {
    ghost use Rattle.gl_base.specs.MemFiles.{FilesState};

    ghost Value = { FilesState };

    ghost view = { λ s. record { files = s.files; calls = s.calls } };
}

impl MemFiles {
    /// Files of which a call fails only for a name that no file has.
    pub fn new(files: Row<MemFile>) -> MemFiles
        ensures { result ≡ record { files = files; calls = no_calls [] } }
    {
        let fails = files.empty();
        MemFiles::failing(files, fails)
    }

    /// Files that fail at the calls with these numbers, counted from 1, too.
    pub fn failing(files: Row<MemFile>, fails: Row<u32>) -> MemFiles
        ensures { result ≡ record { files = files; calls = no_calls fails } }
    {
        MemFiles {
            files,
            calls: Calls::new(fails),
        }
    }
}

impl Files for MemFiles {
    ghost told = { λ s. Some s.files };

    ghost health = { files_health };

    fn read_file(&mut self, alloc: Global, name: &str, limit: usize) -> FileAnswer
        ensures bytes { ReadsFile limit name.now (Some self.old.files) result }
        ensures same { Some self.new.files ≡ Some self.old.files }
        ensures cause { HasFileCause
            (file_named name.now self.old.files)
            (files_health self.old)
            (files_health self.new)
            result }
        ensures answer { result ≢ FileAnswer.NoMemory → result ≡ answer_to_reading limit name.now self.old }
        ensures state { self.new ≡ after_reading name.now self.old }
    {
        let failing = self.calls.begin();
        match file_named(self.files.as_slice(), name.as_bytes()) {
            Some(file) if !failing => copy_up_to(alloc, file.bytes.as_slice(), limit),
            _ => {
                self.calls.fail();
                FileAnswer::Failed
            }
        }
    }
}

// The first file of this name.
fn file_named<'a>(files: &'a [MemFile], name: &[u8]) -> Option<&'a MemFile>
    ensures { option_copied result ≡ find (λ file. bytes_eq file.name name.now) files.now }
{
    files.iter().find(|file| file.name.as_slice() == name)
}

// A copy of a file's bytes, where they keep to the limit.
fn copy_up_to(alloc: Global, bytes: &[u8], limit: usize) -> FileAnswer
    ensures { result ≢ FileAnswer.NoMemory → result ≡ answer_up_to limit (Some bytes.now) }
{
    if bytes.len() > limit {
        return FileAnswer::Longer;
    }
    match Row::of(alloc, bytes) {
        Ok(copy) => FileAnswer::Whole(copy),
        Err(NoMemory) => FileAnswer::NoMemory,
    }
}
