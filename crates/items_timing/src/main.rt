//! Works on the bytes of standard input as an item, again and again, so that a script can time it.
#![tactic(auto)]

use gl_base::Row;
use secs_items::{BodyCheck, Item, Verdict, check, decode, encode_into};
use std::alloc::Global;
use std::env;
use std::io::{self, Read};
use std::process::ExitCode;

/// What is done with the bytes.
#[derive(Clone, Copy)]
enum Work {
    Decode,
    Check,
    Encode,
    Feed,
}

fn main(rt: HostRuntime) -> io::Result<ExitCode> {
    let mut words = env::args(&rt)?.skip(1);
    let Some(work) = words.next().and_then(|word| work_named(word.as_str())) else {
        return Ok(ExitCode::from(64));
    };
    let turns = words
        .next()
        .and_then(|word| word.as_str().parse::<u32>().ok())
        .unwrap_or(1);
    let mut bytes = Vec::new(rt.alloc());
    rt.stdin().read_to_end(&mut bytes)?;
    match decode(rt.alloc(), &bytes) {
        Ok(item) => {
            let done = work_on(rt.alloc(), work, turns, &bytes, &item);
            println!(rt; "{done} of {turns}")?;
        }
        Err(fault) => println!(rt; "{fault:?}")?,
    }
    Ok(ExitCode::SUCCESS)
}

fn work_named(word: &str) -> Option<Work> {
    match word {
        "decode" => Some(Work::Decode),
        "check" => Some(Work::Check),
        "encode" => Some(Work::Encode),
        "feed" => Some(Work::Feed),
        _ => None,
    }
}

// Does the work so many times, and says how often it came to something.
fn work_on(alloc: Global, work: Work, turns: u32, bytes: &[u8], item: &Item) -> u64 {
    let mut done = 0u64;
    for _ in 0..turns {
        let well = match work {
            Work::Decode => decode(alloc, bytes).is_ok(),
            Work::Check => check(bytes).is_ok(),
            Work::Encode => encode_into(item, &mut Row::new(alloc)).is_ok(),
            Work::Feed => is_whole_in_blocks(bytes),
        };
        done = done.wrapping_add(u64::from(well));
    }
    done
}

// Goes on with a block. Nothing that is timed has so many bytes.
fn feed(check: &mut BodyCheck, block: &[u8]) -> bool {
    if check.fed() > 7_000_000 || block.len() > 244 {
        return false;
    }
    check.feed(block);
    true
}

// Whether the bytes are an item, by a check that gets as many at once as a block has.
fn is_whole_in_blocks(bytes: &[u8]) -> bool {
    let mut check = BodyCheck::new();
    let mut rest = bytes;
    for _ in 0..bytes.len() / 244 + 1 {
        let (block, behind) = rest.split_at(rest.len().min(244));
        if !feed(&mut check, block) {
            return false;
        }
        rest = behind;
    }
    check.verdict() == Verdict::Whole
}
