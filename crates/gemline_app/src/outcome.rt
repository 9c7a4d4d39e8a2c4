//! What a run of the program came to, with its status and the line that tells of it.

ghost use Rattle.std.specs.Prelude.{◌≡◌, ◌+◌, ◌++◌, ◌≤◌, codes, decimal, length};
ghost use Rattle.arrayvec.specs.ArrayVec.{array_vec_len};
ghost use Rattle.gemline_app.specs.Outcome.{break_text, what_text};

use gem_config::ConfigWhat;
use gl_base::Row;
use line_show::{Break, Line, put_fault};
use secs_items::ItemFault;
use short_text::{put, put_hex, put_number};

/// A file that a command reads.
#[derive(Clone, Copy, Debug, PartialEq, Eq)]
pub enum FileRole {
    Plan,
    Schedule,
}

/// What a run of the program came to.
#[derive(Debug, Drop)]
pub enum Outcome {
    /// The work is done.
    Done,
    /// The words are no command.
    Usage,
    /// All was written that stands before this broken frame of the capture.
    BadFrame(Break),
    /// The text reads as no item. Its first fault is there.
    BadText { at: usize },
    /// The input is no hex digits in pairs: what is there can't be.
    BadHex { at: usize },
    /// The bytes spell no item.
    BadItem(ItemFault),
    /// The plan is refused: this is wrong with this key, the first that is.
    BadPlan { key: Row<u8>, what: ConfigWhat },
    /// The line of this number, from 1, is none of a schedule.
    BadLine { number: u32 },
    /// The input is longer than its limit.
    Longer,
    /// A file is longer than its limit.
    FileLonger(FileRole),
    /// A file could not be read.
    FileFailed(FileRole),
    /// The input failed.
    ReadFailed,
    /// Memory ran out.
    NoMemory,
    /// The output failed.
    WriteFailed,
    /// The run has no turn left: no step, no call of the spool's disk, or over a link no poll.
    TurnsSpent,
    /// A slip arrived: a block with right length and sum that isn't one whole frame of the other end.
    Slip,
    /// An end was to draw a number for a message, and all 2^32 were drawn.
    NumbersSpent,
    /// The disk failed.
    DiskFailed,
    /// The bytes of the spool file stand for no list, or those of its area for no setup. They break there.
    NotSpool { at: u64 },
    /// The line of this number, from 1, is none of a script.
    BadScript { number: u32 },
    /// The link failed.
    LinkFailed,
    /// The host was to list a message for which its journal has no room.
    JournalFull,
}

impl Outcome {
    ghost use Rattle.gemline_app.specs.Outcome.{head_of, status_of, tail_of};

    /// The status that the program ends with.
    pub fn status(&self) -> u8
        ensures { result ≡ status_of self.now }
    {
        match self {
            Outcome::Done => 0,
            Outcome::Usage => 64,
            Outcome::BadFrame(_)
            | Outcome::BadText { .. }
            | Outcome::BadHex { .. }
            | Outcome::BadItem(_)
            | Outcome::BadPlan { .. }
            | Outcome::BadLine { .. }
            | Outcome::BadScript { .. }
            | Outcome::Longer
            | Outcome::FileLonger(_) => 65,
            Outcome::FileFailed(_) => 66,
            Outcome::ReadFailed => 68,
            Outcome::LinkFailed => 69,
            Outcome::NoMemory => 71,
            Outcome::WriteFailed => 73,
            Outcome::TurnsSpent => 75,
            Outcome::Slip => 76,
            Outcome::NumbersSpent => 77,
            Outcome::DiskFailed => 74,
            Outcome::NotSpool { .. } => 78,
            Outcome::JournalFull => 80,
        }
    }

    /// The line that tells of it, up to the name of a file or key if it speaks of one: none where the work is done.
    pub fn head(&self) -> Line
        ensures { result.items ≡ head_of self.now }
    {
        let mut line = Line::new();
        match self {
            Outcome::Done => {}
            Outcome::Usage => put(&mut line, b"gemline: 64 usage\n"),
            Outcome::BadFrame(named) => {
                put(&mut line, b"gemline: 65 frame at ");
                put_break(&mut line, *named);
                put(&mut line, b"\n");
            }
            Outcome::BadText { at } => put_place(&mut line, b"gemline: 65 text at ", *at as u64),
            Outcome::BadHex { at } => put_place(&mut line, b"gemline: 65 hex at ", *at as u64),
            Outcome::BadItem(fault) => {
                put(&mut line, b"gemline: 65 item ");
                put_fault(&mut line, *fault);
                put(&mut line, b"\n");
            }
            Outcome::BadPlan { .. } => put(&mut line, b"gemline: 65 plan "),
            Outcome::BadLine { number } => {
                put_place(&mut line, b"gemline: 65 schedule line ", u64::from(*number));
            }
            Outcome::BadScript { number } => {
                put_place(&mut line, b"gemline: 65 script line ", u64::from(*number));
            }
            Outcome::Longer => put(&mut line, b"gemline: 65 input longer\n"),
            Outcome::FileLonger(_) => put(&mut line, b"gemline: 65 file "),
            Outcome::FileFailed(_) => put(&mut line, b"gemline: 66 file "),
            Outcome::ReadFailed => put(&mut line, b"gemline: 68 read\n"),
            Outcome::LinkFailed => put(&mut line, b"gemline: 69 link\n"),
            Outcome::NoMemory => put(&mut line, b"gemline: 71 memory\n"),
            Outcome::WriteFailed => put(&mut line, b"gemline: 73 write\n"),
            Outcome::TurnsSpent => put(&mut line, b"gemline: 75 turns\n"),
            Outcome::Slip => put(&mut line, b"gemline: 76 slip\n"),
            Outcome::NumbersSpent => put(&mut line, b"gemline: 77 numbers\n"),
            Outcome::DiskFailed => put(&mut line, b"gemline: 74 disk\n"),
            Outcome::NotSpool { at } => {
                put_place(&mut line, b"gemline: 78 not a spool at ", *at);
            }
            Outcome::JournalFull => put(&mut line, b"gemline: 80 journal full\n"),
        }
        line
    }

    /// The rest of that line behind the name.
    pub fn tail(&self) -> &'static [u8]
        ensures { result.now ≡ tail_of self.now }
    {
        match self {
            Outcome::BadPlan { what, .. } => what_text(*what),
            Outcome::FileLonger(_) => b" longer\n",
            Outcome::FileFailed(_) => b"\n",
            _ => b"",
        }
    }
}

// What is wrong with a key.
fn what_text(what: ConfigWhat) -> &'static [u8]
    ensures { result.now ≡ what_text what }
{
    match what {
        ConfigWhat::Syntax => b" Syntax\n",
        ConfigWhat::Missing => b" Missing\n",
        ConfigWhat::Kind => b" Kind\n",
        ConfigWhat::Range => b" Range\n",
        ConfigWhat::Repeated => b" Repeated\n",
        ConfigWhat::Unknown => b" Unknown\n",
    }
}

// Puts a few words and a place of the input, and ends the line.
fn put_place(line: &mut Line, words: &[u8], at: u64)
    requires { array_vec_len line.old + length words.now ≤ 100 }
    ensures { line.new.items ≡ line.old.items ++ (words.now ++ decimal at ++ codes "\n") }
{
    put(line, words);
    put_number(line, at);
    put(line, b"\n");
}

// Puts a broken frame's place and what is wrong with it.
fn put_break(line: &mut Line, named: Break)
    requires { array_vec_len line.old ≤ 100 }
    ensures items { line.new.items ≡ line.old.items ++ break_text named }
    ensures len { array_vec_len line.new ≤ array_vec_len line.old + 100 }
{
    match named {
        Break::Length { at, length } => {
            put_number(line, at as u64);
            put(line, b": length ");
            put_number(line, u64::from(length));
        }
        Break::Short { at } => {
            put_number(line, at as u64);
            put(line, b": short");
        }
        Break::Sum { at, want, found } => {
            put_number(line, at as u64);
            put(line, b": sum ");
            put_hex(line, &want.to_be_bytes());
            put(line, b" found ");
            put_hex(line, &found.to_be_bytes());
        }
    }
}
