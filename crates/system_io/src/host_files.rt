//! The files of the system as `Files`, of which the top call reads plans and schedules.

ghost use Rattle.std.specs.Prelude.{◌≡◌, ℕ, false, List, Option, Some, None};
ghost use Rattle.std.specs.Option.{option_map};
ghost use Rattle.gl_base.specs.Files.{FileIsWithin, FilesHealth, HasFileCause, ReadsFile, ReadsFileOf};
ghost use Rattle.gl_base.specs.Source.{ReadFault};
ghost use Rattle.gl_base.specs.declared.files.MemFile.{MemFile};

use crate::reading::Reading;
use gl_base::{FileAnswer, Files, Input, Source, read_all};
use std::alloc::Global;
use std::{fs, io, rt};

/// The files of the system, which tell nothing of their bytes. It counts its faults: a file that can't be opened,
/// and a read that fails, as a folder's does.
#[derive(Drop)]
pub struct HostFiles<R> {
    system: R,
    faults: u64,
    reason: Option<io::Error>,
}

impl<R> HostFiles<R> {
    /// No fault yet.
    pub fn new(system: R) -> HostFiles<R>
        ensures { result ≡ record { system = system; faults = 0; reason = None } }
    {
        HostFiles {
            system,
            faults: 0,
            reason: None,
        }
    }

    /// Why the last file couldn't be read that couldn't.
    pub fn reason(&self) -> Option<&io::Error>
        ensures { option_map (λ reason. reason.now) result ≡ self.now.reason }
    {
        self.reason.as_ref()
    }
}

impl<R: rt::Files> Files for HostFiles<R> {
    ghost told = { λ _. None };

    ghost health = { λ s. record { faults = s.faults; reliable = false } };

    // A relative name is one in the folder where the program runs.
    fn read_file(&mut self, alloc: Global, name: &str, limit: usize) -> FileAnswer
        ensures bytes { ReadsFile limit name.now None result }
        ensures cause { HasFileCause
            None
            (record { faults = self.old.faults; reliable = false })
            (record { faults = self.new.faults; reliable = false })
            result }
    {
        let answer = match fs::open(&self.system, name) {
            Ok(file) => {
                let mut reading = Reading::new(file);
                let answer = answer_from(alloc, &mut reading, limit);
                self.reason = reading.take_reason();
                answer
            }
            Err(error) => {
                self.reason = Some(error);
                FileAnswer::Failed
            }
        };
        if let FileAnswer::Failed = answer {
            self.faults = self.faults.saturating_add(1);
        }
        answer
    }
}

// The answer that a file's bytes come to.
fn answer_from<S: Source>(alloc: Global, file: &mut S, limit: usize) -> FileAnswer
    ensures within { FileIsWithin limit result }
    ensures bytes { (bytes : List ℕ) → S.left file.old ≡ Some bytes → ReadsFileOf limit (Some bytes) result }
    ensures cause { result ≡ FileAnswer.Failed → ReadFault (S.health file.old) (S.health file.new) }
{
    match read_all(alloc, file, limit) {
        Input::Whole(bytes) => FileAnswer::Whole(bytes),
        Input::Longer => FileAnswer::Longer,
        Input::Failed => FileAnswer::Failed,
        Input::NoMemory => FileAnswer::NoMemory,
    }
}

#[cfg(test)]
mod tests {
    use super::*;
    use std::test::Fail;
    use std::{env, process};

    fn is_file(answer: &FileAnswer, bytes: &[u8]) -> bool {
        match answer {
            FileAnswer::Whole(all) => all.as_slice() == bytes,
            _ => false,
        }
    }

    #[test]
    fn reads_a_file_of_the_system(rt: HostRuntime) -> Result<(), Fail> {
        let alloc = rt.alloc();
        let folder = env::temp_dir(&rt)?;
        let name = format!(in alloc; "host-files-{}", process::id(rt.process()))?;
        let path = folder.join(alloc, name.as_str())?;
        fs::write(&rt, path.as_path(), "abc")?;
        let mut files = HostFiles::new(&rt);
        let whole = files.read_file(alloc, path.as_str(), 3);
        let longer = files.read_file(alloc, path.as_str(), 2);
        fs::remove_file(&rt, path.as_path())?;
        assert!(rt; is_file(&whole, b"abc"));
        assert!(rt; matches!(longer, FileAnswer::Longer));
        assert_eq!(rt; files.faults, 0);
        for (name, faults) in [(path.as_str(), 1), (folder.as_str(), 2), ("a\0b", 3)] {
            let answer = files.read_file(alloc, name, 9);
            assert!(rt; matches!(answer, FileAnswer::Failed), "{name}");
            assert_eq!(rt; files.faults, faults, "{name}");
        }
        Ok(())
    }
}
