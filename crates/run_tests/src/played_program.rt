//! The program of the tests: words over an input, files, an output, a disk and a link of their own.

ghost use Rattle.std.specs.Prelude.{None, false};
ghost use Rattle.gl_base.specs.Files.{FileIsWithin};

use disk_base::{Disk, DiskAnswer, MemDisk, settle};
use gemline_app::gemline;
use gl_base::{
    Connections, FileAnswer, Files, Link, LinkAnswer, LinkIn, NoMemory, ReadAnswer, Row, Side,
    Sink, Source, WriteAnswer,
};
use std::alloc::Global;

/// An input that gives at most so many bytes a read, and of which the read of this number fails.
#[derive(Drop)]
pub(crate) struct TestInput<'a> {
    pub(crate) left: &'a [u8],
    pub(crate) step: usize,
    pub(crate) fails: u32,
}

impl<'a> Source for TestInput<'a> {
    ghost left = { λ _. None };

    ghost health = { λ _. record { faults = 18446744073709551615; reliable = false } };

    fn read(&mut self, into: &mut [u8]) -> ReadAnswer {
        if is_due(&mut self.fails) {
            return ReadAnswer::Failed;
        }
        let n = self.left.len().min(into.len()).min(self.step);
        if n == 0 {
            return ReadAnswer::End;
        }
        let (front, rest) = self.left.split_at(n);
        into[..n].copy_from_slice(front);
        self.left = rest;
        ReadAnswer::Took(n)
    }
}

/// Counts a call, and tells whether it is the one that fails; none is at 0.
pub(crate) fn is_due(call: &mut u32) -> bool {
    let due = *call == 1;
    *call = call.saturating_sub(1);
    due
}

/// A plan and a schedule, of which the reading of this number fails.
#[derive(Drop)]
pub(crate) struct TestFiles<'a> {
    pub(crate) plan: &'a [u8],
    pub(crate) schedule: &'a [u8],
    pub(crate) fails: u32,
}

impl<'a> TestFiles<'a> {
    fn bytes_of(&self, name: &str) -> Option<&'a [u8]> {
        if name == "plan" {
            Some(self.plan)
        } else if name == "schedule" {
            Some(self.schedule)
        } else {
            None
        }
    }
}

impl<'a> Files for TestFiles<'a> {
    ghost told = { λ _. None };

    ghost health = { λ _. record { faults = 18446744073709551615; reliable = false } };

    fn read_file(&mut self, alloc: Global, name: &str, limit: usize) -> FileAnswer {
        if is_due(&mut self.fails) {
            return FileAnswer::Failed;
        }
        match self.bytes_of(name) {
            Some(bytes) => whole(alloc, bytes, limit),
            None => FileAnswer::Failed,
        }
    }
}

fn whole(alloc: Global, bytes: &[u8], limit: usize) -> FileAnswer
    ensures { FileIsWithin limit result }
{
    if bytes.len() > limit {
        return FileAnswer::Longer;
    }
    match Row::of(alloc, bytes) {
        Ok(row) => FileAnswer::Whole(row),
        Err(NoMemory) => FileAnswer::NoMemory,
    }
}

/// An output that takes at most so many bytes a write, and of which the write of this number fails.
#[derive(Drop)]
pub(crate) struct TestOutput {
    pub(crate) bytes: Row<u8>,
    pub(crate) step: usize,
    pub(crate) fails: u32,
}

impl Sink for TestOutput {
    ghost received = { λ _. None };

    ghost health = { λ _. record { faults = 18446744073709551615; room = 0 } };

    fn write(&mut self, bytes: &[u8]) -> WriteAnswer {
        let n = bytes.len().min(self.step);
        if is_due(&mut self.fails) || n == 0 || self.bytes.extend(&bytes[..n]).is_err() {
            return WriteAnswer::Failed;
        }
        WriteAnswer::Took(n)
    }
}

/// A disk of which each call fails.
#[derive(Drop)]
pub(crate) struct NoDisk;

impl Disk for NoDisk {
    ghost told = { λ _. None };

    ghost calls = { λ _. None };

    ghost size_is = { λ _. 0 };

    ghost health = { λ _. record {
      faults = 18446744073709551615;
      made = 0;
      bounds = (0, 0);
      calls = 0;
      room = 0;
      fail_in = 0;
      stop_in = 0;
      stopped = false;
      exact = false;
    } };

    ghost name = { λ _. 0 };

    ghost file_is = { λ _. None };

    ghost sized = { λ disk s is. absurd cc };

    ghost calls_told = { λ disk s is. absurd cc };

    fn attach(&mut self, file: &str, grow: u64) -> DiskAnswer {
        DiskAnswer::Failed
    }

    fn size(&self) -> u64 {
        0
    }

    fn read(&mut self, at: u64, into: &mut [u8]) -> DiskAnswer {
        DiskAnswer::Failed
    }

    fn write(&mut self, at: u64, bytes: &[u8]) -> DiskAnswer {
        DiskAnswer::Failed
    }

    fn sync(&mut self) -> DiskAnswer {
        DiskAnswer::Failed
    }
}

/// A link of which each call fails.
#[derive(Drop)]
pub(crate) struct NoLink {
    connections: Connections,
}

pub(crate) fn no_link() -> NoLink {
    NoLink {
        connections: Connections::none(),
    }
}

impl Link for NoLink {
    ghost told = { λ _. None };

    ghost moment = { λ _. 0 };

    ghost health = { λ _. record { faults = 18446744073709551615; reliable = false; room = 0 } };

    ghost connected = { λ s. s.connections };

    fn connect(&mut self, side: Side, address: &str) -> LinkAnswer {
        self.connections.add(side, address);
        LinkAnswer::Failed
    }

    fn poll(&mut self, until: u64) -> LinkIn {
        LinkIn::Failed
    }

    fn send(&mut self, bytes: &[u8]) -> LinkAnswer {
        LinkAnswer::Failed
    }
}

pub(crate) fn output(alloc: Global, step: usize, fails: u32) -> TestOutput {
    TestOutput {
        bytes: Row::new(alloc),
        step,
        fails,
    }
}

/// A front, a piece so many times, and what stands behind it.
pub(crate) type Bytes = (&'static [u8], &'static [u8], usize, &'static [u8]);

/// The status that a run ends with, what its output received, and the line on the errors.
pub(crate) type End<'a> = (u8, &'a str, &'static str);

pub(crate) fn words_of(alloc: Global, words: &[&str]) -> Result<Vec<String>, NoMemory> {
    let mut texts = Vec::new(alloc);
    for word in words {
        texts.push(String::from_str(alloc, word)?)?;
    }
    Ok(texts)
}

pub(crate) fn pieces_of(alloc: Global, bytes: &Bytes) -> Result<Row<u8>, NoMemory> {
    let (front, piece, times, more) = *bytes;
    let mut row = Row::of(alloc, front)?;
    for _ in 0..times {
        row.extend(piece)?;
    }
    row.extend(more)?;
    Ok(row)
}

/// Whether these words over all that a run has end so, with what the output took.
pub(crate) fn ends_over<D: Disk, L: Link>(
    alloc: Global,
    words: &[String],
    files: &mut TestFiles,
    input: &mut TestInput,
    out: &mut TestOutput,
    disk: &mut D,
    link: &mut L,
    end: &End,
) -> bool {
    let mut err = output(alloc, 100, 0);
    let status = gemline(alloc, words, files, input, out, &mut err, disk, link);
    let (wanted, text, line) = *end;
    status == wanted
        && out.bytes.as_slice() == text.as_bytes()
        && err.bytes.as_slice() == line.as_bytes()
}

/// The same over this input and these files, with no disk and no link.
pub(crate) fn ends_so(
    alloc: Global,
    words: &[String],
    files: &mut TestFiles,
    input: &mut TestInput,
    out: &mut TestOutput,
    end: &End,
) -> bool {
    ends_over(
        alloc,
        words,
        files,
        input,
        out,
        &mut NoDisk,
        &mut no_link(),
        end,
    )
}

/// Words, an input, which call of the input, of the files and of the output fails, and the end.
pub(crate) type Failing = (
    &'static [&'static str],
    &'static [u8],
    [u32; 3],
    End<'static>,
);

/// Whether a run of which these calls fail ends so.
pub(crate) fn is_failing(alloc: Global, case: &Failing) -> bool {
    let (words, input, [read, file, write], end) = *case;
    let Ok(words) = words_of(alloc, words) else {
        return false;
    };
    let mut files = TestFiles {
        plan: b"",
        schedule: b"settle",
        fails: file,
    };
    let mut input = TestInput {
        left: input,
        step: 65536,
        fails: read,
    };
    ends_so(
        alloc,
        &words,
        &mut files,
        &mut input,
        &mut output(alloc, 2000, write),
        &end,
    )
}

pub(crate) fn are_failing(alloc: Global, cases: &[Failing]) -> bool {
    for case in cases {
        if !is_failing(alloc, case) {
            return false;
        }
    }
    true
}

/// Whether these words are refused, before anything is read.
pub(crate) fn is_refused(alloc: Global, words: &'static [&'static str]) -> bool {
    is_failing(
        alloc,
        &(
            words,
            b"B10400000005",
            [1, 1, 1],
            (64, "", "gemline: 64 usage\n"),
        ),
    )
}

pub(crate) fn are_refused(alloc: Global, all: &[&'static [&'static str]]) -> bool {
    for words in all {
        if !is_refused(alloc, words) {
            return false;
        }
    }
    true
}

/// The front of a file of three slots.
pub(crate) const FRONT: &[u8] = b"GLSPOOL1\0\0\0\x03";

/// An S6F11 of number 4, with an empty list.
pub(crate) const FOURTH: &[u8] = b"\x5A\0\0\0\0\0\0\0\x04\x86\x0B\0\0\0\x02\x01\0";

/// How many bytes the area of a spool file has.
pub(crate) const AREA: u64 = 524_288;

/// A disk of three slots with these first bytes, and these of slot 1, and so many bytes behind the slots.
pub(crate) fn disk_with(alloc: Global, bytes: &[&[u8]; 2], area: u64) -> Option<MemDisk> {
    let [front, slot] = *bytes;
    let size = 16_384_u64.saturating_add(area);
    let Ok(mut disk) = MemDisk::new(alloc, size, 400, size) else {
        return None;
    };
    if disk.size() < 16384 || front.len() > 4096 || slot.len() > 4096 {
        return None;
    }
    let _ = settle(&mut disk, 0, front);
    let _ = settle(&mut disk, 8192, slot);
    Some(disk)
}

/// Whether words over a disk alone end so, if the write of this number fails.
pub(crate) fn disk_ends_so(
    alloc: Global,
    words: &[String],
    write: u32,
    disk: &mut MemDisk,
    end: &End,
) -> bool {
    let mut files = TestFiles {
        plan: b"",
        schedule: b"",
        fails: 1,
    };
    let mut input = TestInput {
        left: b"",
        step: 1,
        fails: 1,
    };
    ends_over(
        alloc,
        words,
        &mut files,
        &mut input,
        &mut output(alloc, 2000, write),
        disk,
        &mut no_link(),
        end,
    )
}
