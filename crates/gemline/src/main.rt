//! The program: real input and output, and the top call.
#![tactic(auto)]

mod arguments;

use arguments::run_arguments;
use file_disk::FileDisk;
use std::env;
use std::process::ExitCode;
use system_io::{HostFiles, Reading, Writing};
use tcp_link::TcpLink;

fn main(rt: HostRuntime) -> ExitCode {
    run_arguments(
        rt.alloc(),
        env::args(&rt),
        &mut HostFiles::new(&rt),
        &mut Reading::new(rt.stdin()),
        &mut Writing::new(rt.stdout()),
        &mut Writing::new(rt.stderr()),
        &mut FileDisk::new(&rt),
        &mut TcpLink::new(&rt),
    )
}
