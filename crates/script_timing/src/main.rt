//! Reads standard input as a script of the equipment, again and again, so that a script of bench/ can time it.
#![tactic(auto)]

use gl_base::Side;
use line_schedule::read_script;
use std::alloc::Global;
use std::env;
use std::io::{self, Read};
use std::process::ExitCode;

fn main(rt: HostRuntime) -> io::Result<ExitCode> {
    let turns = env::args(&rt)?
        .nth(1)
        .and_then(|word| word.as_str().parse::<u32>().ok())
        .unwrap_or(1);
    let mut text = Vec::new(rt.alloc());
    rt.stdin().read_to_end(&mut text)?;
    let lines = read_again(rt.alloc(), &text, turns);
    println!(rt; "{lines}")?;
    Ok(ExitCode::SUCCESS)
}

// Reads the script so many times, and says how many lines it told in all.
fn read_again(alloc: Global, text: &[u8], turns: u32) -> u64 {
    let mut lines = 0u64;
    for _ in 0..turns {
        lines = lines.wrapping_add(lines_told(alloc, text));
    }
    lines
}

fn lines_told(alloc: Global, text: &[u8]) -> u64 {
    match read_script(alloc, text, Side::Equipment) {
        Ok(script) => script.lines.len() as u64,
        Err(_) => 0,
    }
}
