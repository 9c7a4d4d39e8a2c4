//! The system's arguments as words of the top call, and what is answered where the system gives none. It is apart from
//! `main`, so that tests can run it in memory.

ghost use Rattle.std.specs.Prelude.{◌≡◌, [], IfOk, drop};
ghost use Rattle.std.specs.Process.{exit_status};
ghost use Rattle.std.specs.IoError.{error_kind};
ghost use Rattle.std.specs.Vec.Iter.{into_iter_items};
ghost use Rattle.gl_base.specs.Told.{files_told, sink_told, source_told};
ghost use Rattle.spool_show.specs.Told.{disk_told};
ghost use Rattle.gemline_app.specs.Gemline.{WereSent};
ghost use Rattle.gemline_app.specs.LinkTold.{link_told};
ghost use Rattle.gemline_app.specs.Outcome.{line_of, status_of};
ghost use Rattle.gemline.specs.Arguments.{IsRefusal, RunsOver, refusal_of};

use disk_base::Disk;
use gemline_app::{Outcome, gemline, report};
use gl_base::{Files, Link, NoMemory, Sink, Source};
use std::alloc::Global;
use std::env::Args;
use std::io;
use std::process::ExitCode;

/// Runs the program over the arguments that the system gave, its name in front of the words, and answers the status to
/// end with. Where the system gave none, nothing is read: an argument that is no text is a fault of usage.
pub(crate) fn run_arguments<F: Files, R: Source, W: Sink, E: Sink, D: Disk, L: Link>(
    alloc: Global,
    arguments: io::Result<Args>,
    files: &mut F,
    input: &mut R,
    out: &mut W,
    err: &mut E,
    disk: &mut D,
    link: &mut L,
) -> ExitCode
    ensures { RunsOver arguments
        (source_told R.Source input.old input.new)
        (files_told F.Files files.old files.new)
        (disk_told D.Disk disk.old disk.new)
        (link_told L.Link link.old link.new)
        (sink_told W.Sink out.old out.new)
        (sink_told E.Sink err.old err.new)
        (exit_status result) }
{
    let status = run_over(alloc, arguments, files, input, out, err, disk, link);
    ExitCode::from(status)
}

// Runs the program over the arguments, and answers the number of its status.
fn run_over<F: Files, R: Source, W: Sink, E: Sink, D: Disk, L: Link>(
    alloc: Global,
    arguments: io::Result<Args>,
    files: &mut F,
    input: &mut R,
    out: &mut W,
    err: &mut E,
    disk: &mut D,
    link: &mut L,
) -> u8
    ensures { RunsOver arguments
        (source_told R.Source input.old input.new)
        (files_told F.Files files.old files.new)
        (disk_told D.Disk disk.old disk.new)
        (link_told L.Link link.old link.new)
        (sink_told W.Sink out.old out.new)
        (sink_told E.Sink err.old err.new)
        result }
{
    match arguments {
        Ok(arguments) => match words_of(alloc, arguments) {
            Ok(words) => gemline(alloc, &words, files, input, out, err, disk, link),
            Err(NoMemory) => report(&Outcome::NoMemory, None, err),
        },
        Err(error) => refuse(&error, err),
    }
}

// The words behind the program's name.
fn words_of(alloc: Global, mut arguments: Args) -> Result<Vec<String>, NoMemory>
    ensures { IfOk result (λ words. words.items ≡ drop 1 (into_iter_items arguments)) }
{
    let _name = arguments.next();
    let mut words = Vec::new(alloc);
    'words: while let Some(word) = arguments.next() {
        words.push(word)?;
    }
    Ok(words)
}

// Tells why the system gave no arguments, and answers the number of the status.
fn refuse<E: Sink>(error: &io::Error, err: &mut E) -> u8
    ensures status { result ≡ status_of (refusal_of (error_kind error.now)) }
    ensures line { WereSent (line_of [] (refusal_of (error_kind error.now)))
        (sink_told E.Sink err.old err.new) }
{
    match error.kind() {
        io::ErrorKind::OutOfMemory => report(&Outcome::NoMemory, None, err),
        _ => report(&Outcome::Usage, None, err),
    }
}

#[cfg(test)]
mod tests {
    use super::*;
    use disk_base::MemDisk;
    use gl_base::{MemFiles, MemLink, MemSink, MemSource, Row};

    /// Words that a system gives, the program's name in front.
    fn arguments_of(alloc: Global, words: &[&str]) -> Result<Args, NoMemory> {
        let mut all = Vec::new(alloc);
        for word in words {
            all.push(String::from_str(alloc, word)?)?;
        }
        Ok(all.into_iter())
    }

    /// The status of a run over these arguments, without a file, a byte of input or of a disk, or an answer of a link.
    fn status_of(
        alloc: Global,
        arguments: io::Result<Args>,
        out: &mut MemSink,
        err: &mut MemSink,
        disk: &mut MemDisk,
        link: &mut MemLink,
    ) -> ExitCode {
        let mut files = MemFiles::new(Row::new(alloc));
        let mut input = MemSource::new(Row::new(alloc));
        run_arguments(
            alloc, arguments, &mut files, &mut input, out, err, disk, link,
        )
    }

    /// Whether such a run ends with this status and this line.
    fn tells(
        alloc: Global,
        arguments: io::Result<Args>,
        out: &mut MemSink,
        wanted: u8,
        line: &[u8],
    ) -> bool {
        let link = MemLink::new(alloc, Row::new(alloc), 0);
        match (
            MemSink::new(alloc, 100),
            MemDisk::new(alloc, 0, 10, 10),
            link,
        ) {
            (Ok(mut err), Ok(mut disk), Ok(mut link)) => {
                status_of(alloc, arguments, out, &mut err, &mut disk, &mut link)
                    == ExitCode::from(wanted)
                    && err.bytes() == line
            }
            _ => false,
        }
    }

    fn ends_so(alloc: Global, arguments: io::Result<Args>, wanted: u8, line: &[u8]) -> bool {
        match MemSink::new(alloc, 100) {
            Ok(mut out) => tells(alloc, arguments, &mut out, wanted, line),
            Err(_) => false,
        }
    }

    fn words_end_so(alloc: Global, words: &[&str], wanted: u8, line: &[u8]) -> bool {
        match arguments_of(alloc, words) {
            Ok(arguments) => ends_so(alloc, Ok(arguments), wanted, line),
            Err(_) => false,
        }
    }

    #[test]
    fn takes_the_words_behind_the_name(rt: HostRuntime) {
        let alloc = rt.alloc();
        let replay = ["gemline", "replay", "plan", "schedule"];
        assert!(rt; words_end_so(alloc, &["gemline", "show"], 0, b""));
        assert!(rt; words_end_so(alloc, &replay, 66, b"gemline: 66 file plan\n"));
        let spool = ["gemline", "spool", "SPOOL"];
        assert!(rt; words_end_so(alloc, &spool, 78, b"gemline: 78 not a spool at 0\n"));
    }

    #[test]
    fn names_why_there_are_no_words(rt: HostRuntime) {
        let alloc = rt.alloc();
        let no_text = io::Error::from(io::ErrorKind::InvalidData);
        assert!(rt; ends_so(alloc, Err(no_text), 64, b"gemline: 64 usage\n"));
        let no_memory = io::Error::from(io::ErrorKind::OutOfMemory);
        assert!(rt; ends_so(alloc, Err(no_memory), 71, b"gemline: 71 memory\n"));
    }
}
