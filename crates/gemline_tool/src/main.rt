//! The program: real input and output, and the run of a tool by the commands that come.
#![tactic(auto)]

mod help;
mod live_beside;
mod reason;
mod words;

use file_disk::FileDisk;
use gemline_app::Outcome;
use gl_base::{SinkAnswer, copy_out};
use help::HELP;
use live_beside::LiveBeside;
use live_link::CalledLink;
use live_teller::LiveTeller;
use reason::Reason;
use std::env;
use std::process::ExitCode;
use system_io::{HostFiles, Writing};
use tool_app::{Names, report, tool};
use words::{Asked, asked_by, words_of};

fn main(rt: HostRuntime) -> ExitCode {
    ExitCode::from(run(&rt))
}

// Does what the arguments ask for, and answers the status to end with.
fn run(rt: &HostRuntime) -> u8 {
    let nothing = Names {
        plan: "",
        address: "",
        spool: "",
    };
    let words = match words_of(rt.alloc(), env::args(rt)) {
        Ok(words) => words,
        Err(outcome) => return tell(rt, &outcome, nothing, Reason::none()),
    };
    match asked_by(&words) {
        Some(Asked::Help) => write_help(rt, nothing),
        Some(Asked::Run(names)) => run_tool(rt, names),
        None => tell(rt, &Outcome::Usage, nothing, Reason::none()),
    }
}

// Writes how the program is used.
fn write_help(rt: &HostRuntime, names: Names<'_>) -> u8 {
    let mut out = Writing::new(rt.stdout());
    match copy_out(&mut out, HELP) {
        SinkAnswer::Done => 0,
        SinkAnswer::Failed => tell(rt, &Outcome::WriteFailed, names, Reason::of(out.reason())),
    }
}

// Runs the tool.
fn run_tool(rt: &HostRuntime, names: Names<'_>) -> u8 {
    let alloc = rt.alloc();
    let mut files = HostFiles::new(rt);
    let mut disk = FileDisk::new(rt);
    let mut out = Writing::new(rt.stdout());
    let Ok(mut told) = LiveTeller::new(alloc, LiveBeside::new(rt.stdin())) else {
        return tell(rt, &Outcome::NoMemory, names, Reason::none());
    };
    let Ok(mut link) = CalledLink::new(alloc, rt) else {
        return tell(rt, &Outcome::NoMemory, names, Reason::none());
    };
    let outcome = tool(
        alloc,
        names.plan,
        names.address,
        names.spool,
        &mut files,
        &mut told,
        &mut disk,
        &mut link,
        &mut out,
    );
    let reason = match &outcome {
        Outcome::FileFailed(_) => Reason::of(files.reason()),
        Outcome::LinkFailed => Reason::of(link.reason()),
        Outcome::DiskFailed => Reason::of(disk.reason()),
        Outcome::WriteFailed => Reason::of(out.reason()),
        _ => Reason::none(),
    };
    tell(rt, &outcome, names, reason)
}

// Tells how a run has ended, with what the system has said of it, and answers its status.
fn tell(rt: &HostRuntime, outcome: &Outcome, names: Names<'_>, reason: Reason) -> u8 {
    let mut err = Writing::new(rt.stderr());
    report(outcome, names, reason.as_bytes(), &mut err)
}
