//! `spool_ledger`: what each call of a ledger notes, and what the disk owes then.

use arrayvec::ArrayVec;
use gem_spool::Work;
use gl_base::{NoMemory, Row};
use message_end::Stop;
use message_flow::StepOut;
use spool_ledger::{Ledger, WaitingText};
use std::alloc::Global;

// What a ledger is asked: to store an S6F11 of two bytes, with the spool full to keep what stands or to overwrite it;
// to store one that takes all of three slots, or a byte more; to take up the next message of an unload that ends behind
// so many; and the rest.
#[derive(Clone, Copy)]
enum Asked {
    Store,
    StoreOver,
    StoreWhole,
    StoreTooLong,
    Purge,
    Confirm,
    Begin,
    TakeUp(u32),
    Activate(bool),
    Rest(bool),
    Rsda,
}

// A call; what it notes, each line with a semicolon behind it, and what the disk owes then, a letter for each work; and
// the oldest number and how many messages there are behind it.
type Asking = (Asked, &'static [u8], u64, u32);

// Of a new spool of three slots: the fourth message is discarded, or takes the place of the first, which is under way.
static ROWS: [Asking; 8] = [
    (Asked::Store, b"storing 0 S6F11 W;stored 0;P", 0, 1),
    (Asked::Store, b"storing 1 S6F11 W;stored 1;P", 0, 2),
    (Asked::StoreTooLong, b"toolong S6F11 W;", 0, 2),
    (Asked::Store, b"storing 2 S6F11 W;stored 2;P", 0, 3),
    (Asked::Store, b"discarded S6F11 W;", 0, 3),
    (Asked::Begin, b"", 0, 3),
    (Asked::TakeUp(2), b"try 0 0000002A;", 0, 3),
    (
        Asked::StoreOver,
        b"leaving 0 overwritten;gone 0;storing 3 S6F11 W;stored 3;DP",
        1,
        3,
    ),
];

// From there on: the reply to the first removes nothing, and two more are confirmed.
static LATER: [Asking; 8] = [
    (Asked::Confirm, b"", 1, 3),
    (Asked::TakeUp(2), b"try 1 0000002A;", 1, 3),
    (Asked::TakeUp(2), b"", 1, 3),
    (Asked::Confirm, b"leaving 1 confirmed;gone 1;D", 2, 2),
    (Asked::TakeUp(2), b"try 2 0000002A;", 2, 2),
    (Asked::Confirm, b"leaving 2 confirmed;gone 2;D", 3, 1),
    (Asked::TakeUp(2), b"", 3, 1),
    (Asked::Confirm, b"", 3, 1),
];

// Of a spool that is found with two messages.
static FOUND: [Asking; 8] = [
    (Asked::Rest(true), b"", 5, 2),
    (Asked::Rsda, b"0", 5, 2),
    (Asked::Begin, b"", 5, 2),
    (Asked::Rsda, b"1", 5, 2),
    (Asked::Purge, b"leaving 5 purged;gone 5;A", 7, 0),
    (Asked::Rest(true), b"", 7, 0),
    (Asked::TakeUp(0), b"", 7, 0),
    (Asked::Rest(false), b"", 7, 0),
];

static EMPTIED: [Asking; 7] = [
    (Asked::Rest(true), b"spool INACTIVE;", 7, 0),
    (Asked::Rsda, b"2", 7, 0),
    (Asked::Purge, b"", 7, 0),
    (Asked::Activate(false), b"", 7, 0),
    (Asked::Activate(true), b"spool ACTIVE;", 7, 0),
    (Asked::Activate(true), b"", 7, 0),
    (Asked::Store, b"storing 7 S6F11 W;stored 7;P", 7, 1),
];

// Of one that is found with a message of one slot and one of two: the oldest leave while there is no room, and none for
// a message that is too long.
static SIZED: [Asking; 6] = [
    (
        Asked::StoreOver,
        b"leaving 5 overwritten;gone 5;storing 8 S6F11 W;stored 8;DP",
        6,
        2,
    ),
    (
        Asked::StoreOver,
        b"leaving 6 overwritten;gone 6;storing 9 S6F11 W;stored 9;DP",
        8,
        2,
    ),
    (
        Asked::StoreWhole,
        b"leaving 8 overwritten;gone 8;leaving 9 overwritten;gone 9;storing 10 S6F11 W;stored 10;DDP",
        10,
        1,
    ),
    (Asked::Store, b"discarded S6F11 W;", 10, 1),
    (Asked::StoreTooLong, b"toolong S6F11 W;", 10, 1),
    (Asked::Purge, b"leaving 10 purged;gone 10;A", 13, 0),
];

// Of an empty spool with one number left.
static LAST: [Asking; 4] = [
    (Asked::StoreWhole, b"!", 9_223_372_036_854_775_807, 0),
    (
        Asked::StoreOver,
        b"storing 9223372036854775807 S6F11 W;stored 9223372036854775807;P",
        9_223_372_036_854_775_807,
        1,
    ),
    (Asked::StoreOver, b"!", 9_223_372_036_854_775_807, 1),
    (
        Asked::StoreTooLong,
        b"toolong S6F11 W;",
        9_223_372_036_854_775_807,
        1,
    ),
];

// Of one whose floor has come to the end of the numbers.
static SPENT: [Asking; 2] = [
    (Asked::StoreOver, b"!", 9_223_372_036_854_775_808, 0),
    (
        Asked::StoreTooLong,
        b"toolong S6F11 W;",
        9_223_372_036_854_775_808,
        0,
    ),
];

// What is told besides the notes.
fn aside(stopped: Result<(), Stop>) -> Result<&'static [u8], NoMemory> {
    match stopped {
        Ok(()) => Ok(b""),
        Err(Stop::NumbersSpent) => Ok(b"!"),
        Err(Stop::Full) => Ok(b"full"),
        Err(Stop::DiskFailed) => Ok(b"disk"),
        Err(Stop::NoMemory) => Err(NoMemory),
    }
}

fn store(
    alloc: Global,
    ledger: &mut Ledger,
    body: &[u8],
    overwrites: bool,
    out: &mut StepOut,
) -> Result<&'static [u8], NoMemory> {
    let body = Row::of(alloc, body)?;
    aside(ledger.store(alloc, 6, 11, body, overwrites, out))
}

fn take_up(
    alloc: Global,
    ledger: &mut Ledger,
    most: u32,
    out: &mut StepOut,
) -> Result<(), NoMemory> {
    match ledger.next_unload(most) {
        Some(number) => ledger.take_up(alloc, number, 42, None, out),
        None => Ok(()),
    }
}

fn rsda(ledger: &Ledger) -> &'static [u8] {
    match ledger.rsda() {
        0 => b"0",
        1 => b"1",
        _ => b"2",
    }
}

fn call(
    alloc: Global,
    ledger: &mut Ledger,
    asked: Asked,
    out: &mut StepOut,
) -> Result<&'static [u8], NoMemory> {
    match asked {
        Asked::Store => return store(alloc, ledger, &[1, 0], false, out),
        Asked::StoreOver => return store(alloc, ledger, &[1, 0], true, out),
        Asked::StoreWhole => return store(alloc, ledger, &[0; 12243], true, out),
        Asked::StoreTooLong => return store(alloc, ledger, &[0; 12244], true, out),
        Asked::Purge => ledger.purge(alloc, out)?,
        Asked::Confirm => ledger.confirm(alloc, out)?,
        Asked::Begin => ledger.begin_unload(),
        Asked::TakeUp(most) => take_up(alloc, ledger, most, out)?,
        Asked::Activate(enabled) => ledger.activate(alloc, enabled, out)?,
        Asked::Rest(communicating) => ledger.rest(alloc, communicating, out)?,
        Asked::Rsda => return Ok(rsda(ledger)),
    }
    Ok(b"")
}

fn letter(work: &Work) -> u8 {
    match work {
        Work::Put { .. } => b'P',
        Work::DropOldest { .. } => b'D',
        Work::Purge => b'A',
    }
}

// What a call notes and answers, and what the disk owes then.
fn told(alloc: Global, ledger: &mut Ledger, asked: Asked) -> Result<Row<u8>, NoMemory> {
    let mut out = StepOut {
        line: ArrayVec::new(),
        notes: Row::new(alloc),
    };
    let aside = call(alloc, ledger, asked, &mut out)?;
    let mut text = Row::new(alloc);
    for note in out.notes.as_slice() {
        text.extend(note.text.as_slice())?;
        text.push(b';')?;
    }
    text.extend(aside)?;
    for work in ledger.take_works(alloc).as_slice() {
        text.push(letter(work))?;
    }
    Ok(text)
}

fn goes(alloc: Global, ledger: &mut Ledger, asking: &Asking) -> bool {
    match told(alloc, ledger, asking.0) {
        Ok(text) => {
            text.as_slice() == asking.1 && ledger.first() == asking.2 && ledger.len() == asking.3
        }
        Err(_) => false,
    }
}

fn all_go(alloc: Global, ledger: &mut Ledger, askings: &[Asking]) -> bool {
    for asking in askings {
        if !goes(alloc, ledger, asking) {
            return false;
        }
    }
    true
}

fn overwrites(alloc: Global) -> bool {
    let Ok(mut ledger) = Ledger::new(alloc, 3, 0, &[]) else {
        return false;
    };
    all_go(alloc, &mut ledger, &ROWS) && all_go(alloc, &mut ledger, &LATER)
}

fn is_emptied(alloc: Global) -> bool {
    let Ok(mut ledger) = Ledger::new(alloc, 3, 5, &[1, 1]) else {
        return false;
    };
    all_go(alloc, &mut ledger, &FOUND) && all_go(alloc, &mut ledger, &EMPTIED)
}

fn makes_room(alloc: Global) -> bool {
    let Ok(mut ledger) = Ledger::new(alloc, 3, 5, &[1, 2]) else {
        return false;
    };
    all_go(alloc, &mut ledger, &SIZED)
}

fn ends(alloc: Global) -> bool {
    let Ok(mut ledger) = Ledger::new(alloc, 3, 9_223_372_036_854_775_807, &[]) else {
        return false;
    };
    let Ok(mut spent) = Ledger::new(alloc, 3, 9_223_372_036_854_775_808, &[]) else {
        return false;
    };
    all_go(alloc, &mut ledger, &LAST) && all_go(alloc, &mut spent, &SPENT)
}

fn is_text(text: Option<WaitingText>, bytes: &[u8]) -> bool {
    match text {
        Some(text) => text.into_body().as_slice() == bytes,
        None => false,
    }
}

// Takes the oldest of two messages up, with its text.
fn takes_up(alloc: Global, ledger: &mut Ledger) -> Result<(), NoMemory> {
    let mut out = StepOut {
        line: ArrayVec::new(),
        notes: Row::new(alloc),
    };
    let text = WaitingText::new(Row::of(alloc, &[1, 0])?);
    ledger.begin_unload();
    ledger.take_up(alloc, 5, 42, Some(text), &mut out)
}

static LEAVES: [Asking; 1] = [(Asked::Confirm, b"leaving 5 confirmed;gone 5;D", 6, 1)];

// A text that waits is let go once, and its message stays under way: its reply takes it off the list.
fn lets_go_once(alloc: Global) -> bool {
    let Ok(mut ledger) = Ledger::new(alloc, 3, 5, &[1, 1]) else {
        return false;
    };
    takes_up(alloc, &mut ledger).is_ok()
        && is_text(ledger.granted(), &[1, 0])
        && ledger.granted().is_none()
        && ledger.next_unload(0).is_none()
        && all_go(alloc, &mut ledger, &LEAVES)
}

static STAYS: [Asking; 2] = [(Asked::Confirm, b"", 5, 2), (Asked::TakeUp(0), b"", 5, 2)];

// An unload that ends keeps its message: a late reply removes nothing, and no other message is taken up.
fn stays(alloc: Global) -> bool {
    let Ok(mut ledger) = Ledger::new(alloc, 3, 5, &[1, 1]) else {
        return false;
    };
    let is_taken = takes_up(alloc, &mut ledger).is_ok();
    ledger.end_unload();
    is_taken && ledger.is_active() && ledger.len() == 2 && all_go(alloc, &mut ledger, &STAYS)
}

#[test]
fn each_call_is_told(rt: HostRuntime) {
    let alloc = rt.alloc();
    assert!(rt; overwrites(alloc));
    assert!(rt; is_emptied(alloc));
    assert!(rt; makes_room(alloc));
    assert!(rt; ends(alloc));
}

#[test]
fn a_message_under_way_stays(rt: HostRuntime) {
    let alloc = rt.alloc();
    assert!(rt; lets_go_once(alloc));
    assert!(rt; stays(alloc));
}
