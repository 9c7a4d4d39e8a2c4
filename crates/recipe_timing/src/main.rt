//! Asks a store of recipes again and again, in a file or in memory, so that a script of bench/ can time it.
#![tactic(auto)]

ghost use Rattle.std.specs.Prelude.{◌≡◌, true, IfSome};
ghost use Rattle.recipe_disk.specs.Opening.{IsReady};

use disk_base::{Disk, DiskAnswer, MemDisk};
use file_disk::FileDisk;
use gem_recipes::{RecipeDrop, RecipeGet, RecipeKeeper, RecipeNames, RecipePut};
use recipe_disk::RecipeDisk;
use std::alloc::Global;
use std::process::ExitCode;
use std::time::{Clock, Instant};
use std::{env, io};

// What the list of a disk in memory has room for: calls, and written bytes.
const MOST_CALLS: u32 = 400_000;

const MOST_WRITTEN: u64 = 8 << 20;

fn main(rt: HostRuntime) -> io::Result<ExitCode> {
    let mut words = env::args(&rt)?.skip(1);
    let (Some(work), Some(file)) = (words.next(), words.next()) else {
        return Ok(ExitCode::from(64));
    };
    let turns = words
        .next()
        .and_then(|word| word.as_str().parse::<u32>().ok())
        .unwrap_or(1);
    let slots = words
        .next()
        .and_then(|word| word.as_str().parse::<u32>().ok())
        .unwrap_or(2);
    let alloc = rt.alloc();
    let mut disk = FileDisk::new(&rt);
    let done = match work.as_str() {
        "open" => open_again(&mut disk, file.as_str(), turns),
        "get" => get_again(&mut disk, alloc, file.as_str(), turns),
        "put" => put_again(&mut disk, file.as_str(), turns),
        "clear" => clear_once(&rt, alloc, slots),
        _ => reopen_again(alloc, slots, turns),
    };
    match done {
        Some(count) => {
            println!(rt; "{count}")?;
            Ok(ExitCode::SUCCESS)
        }
        None => Ok(ExitCode::from(74)),
    }
}

// The name of a recipe by its number; names that follow each other are far apart.
fn name_of(number: u32) -> [u8; 4] {
    number.wrapping_mul(2_654_435_761).to_be_bytes()
}

// Opens the file of this name so many times.
fn open_again<D: Disk>(disk: &mut D, file: &str, turns: u32) -> Option<u32> {
    match disk.attach(file, 0) {
        DiskAnswer::Done => {}
        DiskAnswer::Failed => return None,
    }
    for _ in 0..turns {
        let Ok(_store) = RecipeDisk::open(&mut *disk) else {
            return None;
        };
    }
    Some(turns)
}

// Whether the body of a recipe is found.
fn gets<D: Disk>(store: &mut RecipeDisk<D>, alloc: Global, number: u32) -> bool
    requires { IsReady D.Disk store.old }
    ensures { result ≡ true → IsReady D.Disk store.new }
{
    match store.get(alloc, &name_of(number)) {
        RecipeGet::Found(_) => true,
        RecipeGet::Unknown | RecipeGet::Failed | RecipeGet::NoMemory => false,
    }
}

// Gets recipes of a full store, one a turn.
fn gets_all<D: Disk>(store: &mut RecipeDisk<D>, alloc: Global, turns: u32) -> bool
    requires { IsReady D.Disk store.old }
{
    for turn in 0..turns {
        if !gets(store, alloc, turn % 4095) {
            return false;
        }
    }
    true
}

// Gets recipes of the file of this name.
fn get_again<D: Disk>(disk: &mut D, alloc: Global, file: &str, turns: u32) -> Option<u32> {
    match disk.attach(file, 0) {
        DiskAnswer::Done => {}
        DiskAnswer::Failed => return None,
    }
    let Ok(mut store) = RecipeDisk::open(disk) else {
        return None;
    };
    if gets_all(&mut store, alloc, turns) {
        return Some(turns);
    }
    None
}

// Whether a recipe is stored.
fn puts<D: Disk>(store: &mut RecipeDisk<D>, number: u32, body: &[u8]) -> bool
    requires { IsReady D.Disk store.old }
    ensures { result ≡ true → IsReady D.Disk store.new }
{
    match store.put(&name_of(number), body) {
        RecipePut::Stored => true,
        RecipePut::TooLong | RecipePut::NoSpace | RecipePut::Failed => false,
    }
}

// Puts recipes into a full store, one a turn, in place of those of the same names.
fn puts_all<D: Disk>(store: &mut RecipeDisk<D>, turns: u32) -> bool
    requires { IsReady D.Disk store.old }
{
    for turn in 0..turns {
        if !puts(store, turn % 4095, &[7; 1000]) {
            return false;
        }
    }
    true
}

// Puts recipes into the file of this name.
fn put_again<D: Disk>(disk: &mut D, file: &str, turns: u32) -> Option<u32> {
    match disk.attach(file, 0) {
        DiskAnswer::Done => {}
        DiskAnswer::Failed => return None,
    }
    let Ok(mut store) = RecipeDisk::open(disk) else {
        return None;
    };
    if puts_all(&mut store, turns) {
        return Some(turns);
    }
    None
}

// An empty store in memory.
fn formatted(alloc: Global, slots: u32) -> Option<RecipeDisk<MemDisk>>
    ensures { IfSome result (λ store. IsReady ⟦<MemDisk as Disk>⟧ store) }
{
    if slots < 2 || slots > 4096 {
        return None;
    }
    let size = 4096 + 65_536 * slots as u64;
    let Ok(disk) = MemDisk::new(alloc, size, MOST_CALLS, MOST_WRITTEN) else {
        return None;
    };
    let Ok(store) = RecipeDisk::format(disk, slots) else {
        return None;
    };
    Some(store)
}

// Puts a recipe into each slot but one.
fn fills<D: Disk>(store: &mut RecipeDisk<D>, slots: u32) -> bool
    requires { IsReady D.Disk store.old }
    ensures { result ≡ true → IsReady D.Disk store.new }
{
    for number in 1..slots {
        if !puts(store, number, &[1]) {
            return false;
        }
    }
    true
}

// Whether a recipe is deleted.
fn drops<D: Disk>(store: &mut RecipeDisk<D>, name: &[u8]) -> bool
    requires { IsReady D.Disk store.old }
    ensures { result ≡ true → IsReady D.Disk store.new }
{
    if name.is_empty() || name.len() > 80 {
        return false;
    }
    match store.delete(name) {
        RecipeDrop::Dropped => true,
        RecipeDrop::Unknown | RecipeDrop::Failed => false,
    }
}

// Lists all names, and deletes each.
fn clears<D: Disk>(store: &mut RecipeDisk<D>, alloc: Global) -> Option<()>
    requires { IsReady D.Disk store.old }
{
    let RecipeNames::Names(names) = store.names(alloc) else {
        return None;
    };
    for name in names.as_slice() {
        if !drops(store, name.as_slice()) {
            return None;
        }
    }
    Some(())
}

// A full store in memory.
fn filled(alloc: Global, slots: u32) -> Option<RecipeDisk<MemDisk>>
    ensures { IfSome result (λ store. IsReady ⟦<MemDisk as Disk>⟧ store) }
{
    let mut store = formatted(alloc, slots)?;
    if fills(&mut store, slots) {
        return Some(store);
    }
    None
}

// How many microseconds it takes to list the names of a full store in memory and delete each.
fn clear_once<C: Clock>(clock: &C, alloc: Global, slots: u32) -> Option<u32> {
    let mut store = filled(alloc, slots)?;
    let start = Instant::now(clock).ok()?;
    clears(&mut store, alloc)?;
    u32::try_from(start.elapsed(clock).ok()?.as_micros()).ok()
}

// Opens a full store in memory so many times.
fn reopen_again(alloc: Global, slots: u32, turns: u32) -> Option<u32> {
    let mut disk = filled(alloc, slots)?.into_disk();
    for _ in 0..turns {
        disk = RecipeDisk::open(disk).ok()?.into_disk();
    }
    Some(turns)
}
