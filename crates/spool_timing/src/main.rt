//! Puts messages into a spool file, purges it, keeps a setup there, or recovers it again and again, so that a script of
//! bench/ can time it.
#![tactic(auto)]

use disk_base::{Disk, DiskAnswer};
use file_disk::FileDisk;
use gl_base::Row;
use setup_store::{keep, load};
use spool_slots::{Raw, Spool, Stored};
use std::alloc::Global;
use std::process::ExitCode;
use std::{env, io};

fn main(rt: HostRuntime) -> io::Result<ExitCode> {
    let mut words = env::args(&rt)?.skip(1);
    let (Some(work), Some(file)) = (words.next(), words.next()) else {
        return Ok(ExitCode::from(64));
    };
    let turns = words
        .next()
        .and_then(|word| word.as_str().parse::<u32>().ok())
        .unwrap_or(1);
    let length = words
        .next()
        .and_then(|word| word.as_str().parse::<u32>().ok())
        .unwrap_or(16);
    let mut disk = FileDisk::new(&rt);
    let messages = match work.as_str() {
        "put" => put_again(rt.alloc(), &mut disk, file.as_str(), turns, length),
        "keep" => keep_again(rt.alloc(), &mut disk, file.as_str(), turns, length),
        "purge" => purge(&mut disk, file.as_str()),
        _ => recover_again(&mut disk, file.as_str(), turns),
    };
    match messages {
        Some(count) => {
            println!(rt; "{count}")?;
            Ok(ExitCode::SUCCESS)
        }
        None => Ok(ExitCode::from(74)),
    }
}

// Puts so many messages with bodies of this length into the spool file of this name, and says how many it then has.
fn put_again<D: Disk>(
    alloc: Global,
    disk: &mut D,
    file: &str,
    turns: u32,
    length: u32,
) -> Option<u32> {
    let body = vec![in alloc; 1; length as usize].ok()?;
    let mut spool = recovered(disk, file)?;
    for _ in 0..turns {
        spool = with_message(spool, &body)?;
    }
    Some(spool.len())
}

// With an S6F11 put at its end.
fn with_message<D: Disk + Drop>(spool: Spool<D>, body: &[u8]) -> Option<Spool<D>> {
    let message = Stored {
        stream: 6,
        function: 11,
        body,
    };
    match spool.stage(&message) {
        Ok(staged) => staged.seal().ok(),
        Err(_) => None,
    }
}

// Finds what is kept in the spool file of this name, and keeps a list of so many bytes there, as often, and says how
// many bytes it then keeps.
fn keep_again<D: Disk>(
    alloc: Global,
    disk: &mut D,
    file: &str,
    turns: u32,
    length: u32,
) -> Option<u32> {
    let list = list_of(alloc, length.saturating_sub(6))?;
    let mut spool = recovered(disk, file)?;
    for _ in 0..turns {
        spool = kept(alloc, spool, list.as_slice())?;
    }
    u32::try_from(load(alloc, &mut spool).ok()?.len()).ok()
}

// A list of one S2F43 with a text of this length.
fn list_of(alloc: Global, length: u32) -> Option<Row<u8>> {
    let text = vec![in alloc; 0; length as usize].ok()?;
    let mut list = Row::of(alloc, &[2, 43]).ok()?;
    list.extend(&length.to_be_bytes()).ok()?;
    list.extend(text.as_slice()).ok()?;
    Some(list)
}

// With this list kept behind the one that is found.
fn kept<D: Disk + Drop>(alloc: Global, mut spool: Spool<D>, list: &[u8]) -> Option<Spool<D>> {
    match load(alloc, &mut spool) {
        Ok(_) => keep(spool, list).ok(),
        Err(_) => None,
    }
}

// Takes all messages off the spool file of this name, and says how many are left.
fn purge<D: Disk>(disk: &mut D, file: &str) -> Option<u32> {
    let spool = recovered(disk, file)?;
    Some(spool.clear().ok()?.len())
}

// Recovers the spool file of this name so many times, and says how many messages it has.
fn recover_again<D: Disk>(disk: &mut D, file: &str, turns: u32) -> Option<u32> {
    let mut messages = 0;
    for _ in 0..turns {
        messages = recovered(disk, file)?.len();
    }
    Some(messages)
}

fn recovered<'a, D: Disk>(disk: &'a mut D, file: &str) -> Option<Spool<&'a mut D>> {
    match disk.attach(file, 0) {
        DiskAnswer::Done => Raw::new(disk).recover().ok(),
        DiskAnswer::Failed => None,
    }
}
