//! The calls of a disk by those of the system, over any system that has files; its test has a real one.

ghost use Rattle.std.specs.Prelude.{◌≡◌, ◌≤◌, IfOk, None};
ghost use Rattle.std.specs.Option.{option_map};
ghost use Rattle.disk_base.specs.Faults.{Rose};
ghost use Rattle.disk_base.specs.declared.disk.DiskAnswer.{DiskAnswer};
ghost use Rattle.file_disk.specs.FileDisk.{Counts, answer_of, file_health};

use crate::lock_file::LockFile;
use disk_base::{AttachedFile, Disk, DiskAnswer};
use std::fs::{OpenFile, OpenOptions};
use std::os::unix::fs::FileExt;
use std::path::Path;
use std::{io, rt};

/// A real file as a disk, which tells nothing of its bytes. A sync is one sync of the system, of the file with all that
/// belongs to it. Where bytes are asked for, the file's folder is synced too, for the file may be new there.
///
/// The file is this disk's alone while it is attached, of all that take it by the system's lock. A disk that attaches
/// anew lets its file go first, also where that fails.
///
/// It counts its faults: a file that can't be opened or made longer or that another has, a folder that can't be synced,
/// a read or a write that doesn't take its whole range, a sync that fails, and each call but `attach` where no file is
/// attached.
#[derive(Drop)]
pub struct FileDisk<R: rt::Files> {
    system: R,
    file: Option<R::File>,
    attached: AttachedFile,
    size: u64,
    faults: u64,
    reason: Option<io::Error>,
}

impl<R: rt::Files> FileDisk<R> {
    /// No file yet, and no byte.
    pub fn new(system: R) -> FileDisk<R>
        ensures { result.faults ≡ 0 }
    {
        FileDisk {
            system,
            file: None,
            attached: AttachedFile::none(),
            size: 0,
            faults: 0,
            reason: None,
        }
    }

    /// Why the last call failed that did.
    pub fn reason(&self) -> Option<&io::Error>
        ensures { option_map (λ reason. reason.now) result ≡ self.now.reason }
    {
        self.reason.as_ref()
    }

    // The disk's answer where the system gave this one, which is counted where it is a fault.
    fn counts<T: Drop>(&mut self, answer: io::Result<T>) -> DiskAnswer
        ensures answer { result ≡ answer_of answer }
        ensures count { Counts self.old.faults self.new.faults result }
        ensures size { self.new.size ≡ self.old.size }
        ensures attached { self.new.attached ≡ self.old.attached }
    {
        match answer {
            Ok(_) => DiskAnswer::Done,
            Err(error) => self.fail(error),
        }
    }

    // Counts a fault.
    fn fail(&mut self, reason: io::Error) -> DiskAnswer
        ensures failed { result ≡ DiskAnswer.Failed }
        ensures rose { Rose self.old.faults self.new.faults }
        ensures size { self.new.size ≡ self.old.size }
        ensures attached { self.new.attached ≡ self.old.attached }
    {
        self.faults = self.faults.saturating_add(1);
        self.reason = Some(reason);
        DiskAnswer::Failed
    }
}

impl<R: rt::Files> Disk for FileDisk<R>
where
    R::File: FileExt + LockFile,
{
    ghost told = { λ _. None };

    ghost calls = { λ _. None };

    ghost size_is = { λ disk. disk.size };

    ghost health = { λ disk. file_health disk.faults };

    ghost name = { λ _. 0 };

    ghost file_is = { λ disk. disk.attached.name };

    ghost sized = { λ disk s is. absurd cc };

    ghost calls_told = { λ disk s is. absurd cc };

    // The file is made where it isn't there and some bytes are asked for.
    fn attach(&mut self, file: &str, grow: u64) -> DiskAnswer {
        self.file = None;
        match opened(&self.system, file, grow) {
            Ok((opened, size)) => {
                self.file = Some(opened);
                self.attached = AttachedFile::of(file.as_bytes());
                self.size = size;
                DiskAnswer::Done
            }
            Err(error) => self.fail(error),
        }
    }

    fn size(&self) -> u64 {
        self.size
    }

    fn read(&mut self, at: u64, into: &mut [u8]) -> DiskAnswer {
        let answer = match &self.file {
            Some(file) => file.read_exact_at(into, at),
            None => Err(io::Error::from(io::ErrorKind::NotFound)),
        };
        self.counts(answer)
    }

    fn write(&mut self, at: u64, bytes: &[u8]) -> DiskAnswer {
        let answer = match &self.file {
            Some(file) => file.write_all_at(bytes, at),
            None => Err(io::Error::from(io::ErrorKind::NotFound)),
        };
        self.counts(answer)
    }

    fn sync(&mut self) -> DiskAnswer {
        let answer = match &self.file {
            Some(file) => file.sync_all(),
            None => Err(io::Error::from(io::ErrorKind::NotFound)),
        };
        self.counts(answer)
    }
}

// The file of a name, with as many bytes as are asked for at least, and how many it has. Where another has the file, it
// stays as it is.
fn opened<R: rt::Files>(system: &R, name: &str, grow: u64) -> io::Result<(R::File, u64)>
where
    R::File: LockFile,
    ensures { IfOk result (λ opened. grow ≤ opened.1) }
{
    let mut options = OpenOptions::new();
    options.read(true).write(true).create(grow > 0);
    let file = options.open(system, name)?;
    file.take_lock()?;
    if grow > 0 {
        sync_folder(system, name)?;
    }
    let size = file.metadata()?.len();
    if size >= grow {
        return Ok((file, size));
    }
    file.set_len(grow)?;
    Ok((file, grow))
}

// Makes the name of a file last in the folder where it stands, through a crash.
fn sync_folder<R: rt::Files>(system: &R, name: &str) -> io::Result<()> {
    let folder = match Path::new(name).parent() {
        Some(folder) if !folder.as_str().is_empty() => folder.as_str(),
        _ => ".",
    };
    OpenOptions::new()
        .read(true)
        .open(system, folder)?
        .sync_all()
}

#[cfg(test)]
mod tests {
    use super::*;
    use crate::counted_files::{CountedFiles, Syncs};
    use std::test::Fail;
    use std::{env, fs, process};

    #[test]
    fn keeps_bytes_in_a_file_of_the_system(rt: HostRuntime) -> Result<(), Fail> {
        let alloc = rt.alloc();
        let folder = env::temp_dir(&rt)?;
        let name = format!(in alloc; "file-disk-{}", process::id(rt.process()))?;
        let path = folder.join(alloc, name.as_str())?;
        let mut disk = FileDisk::new(&rt);
        let missing = disk.attach(path.as_str(), 0);
        let made = disk.attach(path.as_str(), 8);
        let mut into = [0; 2];
        let done = disk.size() == 8
            && disk.write(6, b"ab") == DiskAnswer::Done
            && disk.sync() == DiskAnswer::Done
            && disk.read(6, &mut into) == DiskAnswer::Done;
        fs::remove_file(&rt, path.as_path())?;
        assert_eq!(rt; missing, DiskAnswer::Failed);
        assert_eq!(rt; made, DiskAnswer::Done);
        assert!(rt; done && into == *b"ab");
        assert_eq!(rt; disk.faults, 1);
        Ok(())
    }

    #[test]
    fn settles_by_one_sync_of_the_system(rt: HostRuntime) -> Result<(), Fail> {
        let alloc = rt.alloc();
        let folder = env::temp_dir(&rt)?;
        let name = format!(in alloc; "file-disk-syncs-{}", process::id(rt.process()))?;
        let path = folder.join(alloc, name.as_str())?;
        let syncs = Syncs::none();
        let mut disk = FileDisk::new(CountedFiles::new(&rt, &syncs));
        let _missing = disk.attach(path.as_str(), 0);
        let before = syncs.counts();
        let made = disk.attach(path.as_str(), 8);
        let as_made = syncs.counts();
        let wrote = if disk.size() == 8 {
            disk.write(6, b"ab")
        } else {
            DiskAnswer::Failed
        };
        let as_written = syncs.counts();
        let settled = disk.sync();
        let as_settled = syncs.counts();
        let again = disk.sync();
        let twice = syncs.counts();
        let attached = disk.attach(path.as_str(), 0);
        let as_attached = syncs.counts();
        fs::remove_file(&rt, path.as_path())?;
        for answer in [made, wrote, settled, again, attached] {
            assert_eq!(rt; answer, DiskAnswer::Done);
        }
        assert_eq!(rt; before, (0, 0), "no file, and no folder");
        assert_eq!(rt; as_made, (0, 1), "the folder of a new file");
        assert_eq!(rt; as_written, (0, 1), "a write alone");
        assert_eq!(rt; as_settled, (1, 1), "a sync");
        assert_eq!(rt; twice, (2, 1), "one more, with nothing written");
        assert_eq!(rt; as_attached, (2, 1), "a file that is there");
        Ok(())
    }

    #[test]
    fn has_its_file_alone(rt: HostRuntime) -> Result<(), Fail> {
        let alloc = rt.alloc();
        let folder = env::temp_dir(&rt)?;
        let name = format!(in alloc; "file-disk-alone-{}", process::id(rt.process()))?;
        let path = folder.join(alloc, name.as_str())?;
        let mut disk = FileDisk::new(&rt);
        let mut other = FileDisk::new(&rt);
        let taken = disk.attach(path.as_str(), 8);
        let refused = other.attach(path.as_str(), 0);
        let no_longer = other.attach(path.as_str(), 16);
        let length = fs::metadata(&rt, path.as_path())?.len();
        let anew = disk.attach(path.as_str(), 0);
        drop(disk);
        let let_go = other.attach(path.as_str(), 0);
        fs::remove_file(&rt, path.as_path())?;
        assert_eq!(rt; taken, DiskAnswer::Done);
        assert_eq!(rt; refused, DiskAnswer::Failed);
        assert_eq!(rt; no_longer, DiskAnswer::Failed);
        assert_eq!(rt; length, 8, "it was refused before it was made longer");
        assert_eq!(rt;
            anew,
            DiskAnswer::Done,
            "the disk lets its own file go first"
        );
        assert_eq!(rt; let_go, DiskAnswer::Done);
        assert_eq!(rt; other.faults, 2);
        Ok(())
    }
}
