//! A disk as the layers above know it: its calls, and what clauses may say of its bytes and of what a crash leaves.

ghost use Rattle.std.specs.Prelude.{◌≡◌, ◌+◌, ◌<◌, ◌≤◌, ℕ, false, List, Option, Some, length};
ghost use Rattle.disk_base.specs.Calls.{DiskCall, Logs, attach_call, read_call, sync_call, write_call};
ghost use Rattle.disk_base.specs.Disk.{Attaches, HasSize, Reads, Syncs, TellsAsBefore, TellsBytes, Writes, file_behind};
ghost use Rattle.disk_base.specs.Faults.{DiskHealth, GoesAsListed, HasCause, IsLeftOut};
ghost use Rattle.disk_base.specs.Listed.{AsListed};
ghost use Rattle.disk_base.specs.Story.{Story};

/// What a call of a disk came to.
#[derive(Clone, Copy, Debug, PartialEq, Eq)]
pub enum DiskAnswer {
    Done,
    /// A fault, which the disk has counted.
    Failed,
}

/// The kinds of calls that a disk lists.
#[derive(Clone, Copy, Debug, PartialEq, Eq)]
pub enum CallKind {
    Attach,
    Read,
    Write,
    Sync,
}

/// Bytes that stay, by and large, when the power is lost: what was written since the last sync that was `Done` may
/// then be anything.
pub trait Disk {
    /// The bytes now, what a crash may leave of them, and the same of every earlier moment, where the disk tells: in
    /// memory it does, over a real file it doesn't. No call changes whether it tells.
    ghost told: { Self → Option Story };

    /// The calls so far, in their order, without those of `size`. They are told where the bytes are.
    ghost calls: { Self → Option (List DiskCall) };

    /// How many bytes there are.
    ghost size_is: { Self → ℕ };

    /// How many faults were counted, for how many more calls and written bytes there is room for sure, 0 over a real
    /// file, and which calls to come are to fail. The count rises by one where a call fails, and stands at every other
    /// call and at 2^64 - 1. Where there is room, a call fails only if it is to fail, and is listed all the same. A
    /// disk stops at a call that fails and is listed, and stays so: then the list may have calls that changed nothing.
    /// Until then each read, write and sync that is listed has changed what its entry says, also one that failed, on a
    /// disk that tells that its calls do so; on any other a write that fails may have changed its range in any way.
    ghost health: { Self → DiskHealth };

    /// Which disk it is. No call changes it.
    ghost name: { Self → ℕ };

    /// The name of the file that was attached last, where one was.
    ghost file_is: { Self → Option (List ℕ) };

    /// Takes the file of this name as the disk, which is to have at least `grow` bytes. The bytes and what a crash may
    /// leave of them stay. Bytes are added only where there are fewer than `grow`. Where it fails, the file is the one
    /// that it was. What the disk tells then are bytes.
    fn attach(&mut self, file: &str, grow: u64) -> DiskAnswer
        ensures told { Attaches grow (told self.old) (told self.new) }
        ensures bytes { TellsBytes (told self.new) }
        ensures size { HasSize grow (size_is self.new) result }
        ensures calls { Logs (attach_call grow) (IsLeftOut (health self.old) (health self.new) 0 0)
            (calls self.old) (calls self.new) result }
        ensures cause { HasCause (health self.old) (health self.new) 1 0 (size_is self.old < grow) result }
        ensures file { file_is self.new ≡ file_behind file.now result (file_is self.old) }
        ensures name { name self.new ≡ name self.old };

    /// How many bytes there are.
    fn size(&self) -> u64
        ensures { result ≡ size_is self.now };

    /// Fills a buffer with the bytes from a place on. Where it fails, the buffer may hold anything.
    fn read(&mut self, at: u64, into: &mut [u8]) -> DiskAnswer
        requires { at + length into.old ≤ size_is self.old }
        ensures bytes { Reads (told self.old) at into.new result }
        ensures told { told self.new ≡ told self.old }
        ensures size { size_is self.new ≡ size_is self.old }
        ensures calls { Logs (read_call at (length into.old)) (IsLeftOut (health self.old) (health self.new) 0 0)
            (calls self.old) (calls self.new) result }
        ensures listed { GoesAsListed (health self.old) →
            AsListed (told self.old) (calls self.old) (told self.new) (calls self.new) }
        ensures cause { HasCause (health self.old) (health self.new) 1 0 ⊥ result }
        ensures same_disk { (name self.new ≡ name self.old) × (file_is self.new ≡ file_is self.old)
            × TellsAsBefore (told self.old) (told self.new) };

    /// Puts bytes in place of those from a place on. A crash before the next good sync leaves anything in their range.
    /// Where this fails, the range may be changed, and all else is as it was.
    fn write(&mut self, at: u64, bytes: &[u8]) -> DiskAnswer
        requires { at + length bytes.now ≤ size_is self.old }
        ensures told { Writes (told self.old) at bytes.now (told self.new) result }
        ensures size { size_is self.new ≡ size_is self.old }
        ensures calls { Logs (write_call at bytes.now)
            (IsLeftOut (health self.old) (health self.new) 0 (length bytes.now)) (calls self.old) (calls self.new) result }
        ensures listed { GoesAsListed (health self.old) →
            AsListed (told self.old) (calls self.old) (told self.new) (calls self.new) }
        ensures cause { HasCause (health self.old) (health self.new) 1 (length bytes.now)
            ((health self.old).room < length bytes.now) result }
        ensures same_disk { (name self.new ≡ name self.old) × (file_is self.new ≡ file_is self.old)
            × TellsAsBefore (told self.old) (told self.new) };

    /// Makes all written bytes last through a crash. Where it fails, none of them are any safer than before.
    fn sync(&mut self) -> DiskAnswer
        ensures told { Syncs (told self.old) (told self.new) result }
        ensures size { size_is self.new ≡ size_is self.old }
        ensures calls { Logs sync_call (IsLeftOut (health self.old) (health self.new) 0 0)
            (calls self.old) (calls self.new) result }
        ensures listed { GoesAsListed (health self.old) →
            AsListed (told self.old) (calls self.old) (told self.new) (calls self.new) }
        ensures cause { HasCause (health self.old) (health self.new) 1 0 ⊥ result }
        ensures same_disk { (name self.new ≡ name self.old) × (file_is self.new ≡ file_is self.old)
            × TellsAsBefore (told self.old) (told self.new) };

    /// The size is the number of the bytes, where they are told.
    ghost sized: { (disk : Self) (s : Story) → told disk ≡ Some s → length s.now.bytes ≡ size_is disk };

    /// The calls are told where the bytes are.
    ghost calls_told: { (disk : Self) (s : Story) → told disk ≡ Some s →
        (all : List DiskCall) × (calls disk ≡ Some all) };
}

impl<D: Disk> Disk for &mut D {
    ghost told = { λ disk. D.told disk.now };

    ghost calls = { λ disk. D.calls disk.now };

    ghost size_is = { λ disk. D.size_is disk.now };

    ghost health = { λ disk. D.health disk.now };

    ghost name = { λ disk. disk.ghost_name };

    ghost file_is = { λ disk. D.file_is disk.now };

    ghost sized = { λ disk s is. D.sized disk.now s is };

    ghost calls_told = { λ disk s is. D.calls_told disk.now s is };

    fn attach(&mut self, file: &str, grow: u64) -> DiskAnswer {
        (**self).attach(file, grow)
    }

    fn size(&self) -> u64 {
        (**self).size()
    }

    fn read(&mut self, at: u64, into: &mut [u8]) -> DiskAnswer {
        (**self).read(at, into)
    }

    fn write(&mut self, at: u64, bytes: &[u8]) -> DiskAnswer {
        (**self).write(at, bytes)
    }

    fn sync(&mut self) -> DiskAnswer {
        (**self).sync()
    }
}
