//! What the words ask for.

ghost use Rattle.std.specs.Prelude.{◌≡◌, ◌≤◌, ◌∷◌, IfOk, IfSome, Some, map, option_map, string_bytes};
ghost use Rattle.clap.specs.Walk.{rows_of};
ghost use Rattle.clap.specs.Words.{found_of};
ghost use Rattle.command_words.specs.Asked.{IsInRange, asked_by};
ghost use Rattle.command_words.specs.Words.{Answers, asked_behind, asked_of, host_of, meant_by, polls_in, replay_of};

use crate::names::{Name, name_of};
use crate::numbers::number_in;
use crate::parsing::{is_set, matches_for, text_of};
use clap::ArgMatches;
use std::alloc::Global;

// How many slots a spool file has at most, and so how many messages.
const SLOTS_MOST: u32 = 65535;

// How many slots a journal in memory has at most.
const JOURNAL_MOST: u32 = 1024;

// How many rounds are made at most.
const ROUNDS_MOST: u32 = 10_000;

// How many polls an end makes at most, where its words don't say.
const POLLS_USUAL: u32 = 1_000_000;

/// What the program is asked to do, with the names of files as they stand in the words.
#[derive(Clone, Copy, Debug, PartialEq, Eq)]
pub enum Command<'a> {
    /// Write the lines of a capture.
    Show,
    /// Write the bytes of an item's text, in hex.
    Spell,
    /// Write the text of an item's bytes in hex.
    SpellHex,
    /// Write the trace of a schedule over a plan.
    Replay {
        plan: &'a str,
        schedule: &'a str,
    },
    /// The same, with a host that may restart: it has a journal of so many slots, in memory.
    JournalReplay {
        plan: &'a str,
        schedule: &'a str,
        slots: u32,
    },
    /// Run the equipment's end of a line with the peer that calls at an address, over a spool file, up to so many
    /// polls.
    Equipment {
        plan: &'a str,
        address: &'a str,
        spool: &'a str,
        polls: u32,
    },
    /// Run the host's end of a line with the peer at an address, up to so many polls.
    Host {
        plan: &'a str,
        address: &'a str,
        polls: u32,
    },
    /// The same of a host that lists what it takes in a journal, a spool file.
    JournalHost {
        plan: &'a str,
        address: &'a str,
        journal: &'a str,
        polls: u32,
    },
    /// Make a spool file of so many slots.
    Format {
        spool: &'a str,
        slots: u32,
    },
    /// Write the list of a spool file.
    Spool {
        spool: &'a str,
    },
    /// Drop so many of the first messages of a spool file, or all where there are fewer.
    Drop {
        spool: &'a str,
        count: u32,
    },
    /// Write the summary of the trace of so many made rounds.
    Make {
        rounds: u32,
    },
}

/// Why words are no command.
#[derive(Clone, Copy, Debug, PartialEq, Eq)]
pub enum WordsFault {
    /// The first word is no name, or the rest isn't what the command of that name takes.
    Usage,
    /// Memory ran out.
    NoMemory,
}

/// The command of the words after the program's name.
pub fn command_of<'a>(alloc: Global, words: &'a [String]) -> Result<Command<'a>, WordsFault>
    ensures command { Answers (asked_of (map string_bytes words.entry.now)) result }
    ensures range { IfOk result (λ command. IsInRange (asked_by command)) }
{
    match words.split_first() {
        Some((word, rest)) => command_behind(alloc, word.as_str(), rest),
        None => Err(WordsFault::Usage),
    }
}

// The command of a first word and the words behind it.
fn command_behind<'a>(
    alloc: Global,
    word: &str,
    words: &'a [String],
) -> Result<Command<'a>, WordsFault>
    ensures command { Answers (asked_of (word.now ∷ map string_bytes words.entry.now)) result }
    ensures range { IfOk result (λ command. IsInRange (asked_by command)) }
{
    match name_of(word) {
        Some(name) => command_named(alloc, name, words),
        None => Err(WordsFault::Usage),
    }
}

// The command of a name and the words behind it.
fn command_named<'a>(
    alloc: Global,
    name: Name,
    words: &'a [String],
) -> Result<Command<'a>, WordsFault>
    ensures command { Answers (asked_behind name (map string_bytes words.entry.now)) result }
    ensures range { IfOk result (λ command. IsInRange (asked_by command)) }
{
    match matches_for(alloc, name, words) {
        Ok(matches) => meant_by(name, &matches).ok_or(WordsFault::Usage),
        Err(fault) => Err(fault),
    }
}

// The command that a name is with what was found.
fn meant_by<'a>(name: Name, matches: &ArgMatches<'a>) -> Option<Command<'a>>
    ensures command { option_map asked_by result ≡ meant_by name (rows_of (found_of matches.now)) }
    ensures range { IfSome result (λ command. IsInRange (asked_by command)) }
{
    match name {
        Name::Show => Some(Command::Show),
        Name::Spell => Some(spelling(matches)),
        Name::Replay => replay(matches),
        Name::Equipment => equipment(matches),
        Name::Host => host(matches),
        Name::Format => format(matches),
        Name::Spool => spool(matches),
        Name::Drop => drop_first(matches),
        Name::Make => make(matches),
    }
}

fn spelling<'a>(matches: &ArgMatches<'a>) -> Command<'a>
    ensures { Some (asked_by result) ≡ meant_by Name.Spell (rows_of (found_of matches.now)) }
{
    if is_set(matches, "hex") {
        Command::SpellHex
    } else {
        Command::Spell
    }
}

fn replay<'a>(matches: &ArgMatches<'a>) -> Option<Command<'a>>
    ensures command { option_map asked_by result ≡ meant_by Name.Replay (rows_of (found_of matches.now)) }
    ensures range { IfSome result (λ command. IsInRange (asked_by command)) }
{
    let plan = text_of(matches, "PLAN")?;
    let schedule = text_of(matches, "SCHEDULE")?;
    replay_of(plan, schedule, text_of(matches, "journal"))
}

// A replay, over a journal of so many slots where they are said.
fn replay_of<'a>(plan: &'a str, schedule: &'a str, slots: Option<&'a str>) -> Option<Command<'a>>
    ensures command { option_map asked_by result
        ≡ replay_of plan.now schedule.now (option_map (λ text. text.now) slots.entry) }
    ensures range { IfSome result (λ command. IsInRange (asked_by command)) }
{
    match slots {
        Some(text) => {
            let slots = number_in(1, JOURNAL_MOST, text)?;
            Some(Command::JournalReplay {
                plan,
                schedule,
                slots,
            })
        }
        None => Some(Command::Replay { plan, schedule }),
    }
}

fn equipment<'a>(matches: &ArgMatches<'a>) -> Option<Command<'a>>
    ensures command { option_map asked_by result ≡ meant_by Name.Equipment (rows_of (found_of matches.now)) }
    ensures range { IfSome result (λ command. IsInRange (asked_by command)) }
{
    let plan = text_of(matches, "PLAN")?;
    let address = text_of(matches, "ADDRESS")?;
    let spool = text_of(matches, "SPOOL")?;
    let polls = polls_in(matches)?;
    Some(Command::Equipment {
        plan,
        address,
        spool,
        polls,
    })
}

fn host<'a>(matches: &ArgMatches<'a>) -> Option<Command<'a>>
    ensures command { option_map asked_by result ≡ meant_by Name.Host (rows_of (found_of matches.now)) }
    ensures range { IfSome result (λ command. IsInRange (asked_by command)) }
{
    let plan = text_of(matches, "PLAN")?;
    let address = text_of(matches, "ADDRESS")?;
    let polls = polls_in(matches)?;
    Some(host_of(plan, address, polls, text_of(matches, "journal")))
}

// A host, with a journal where its file is said.
fn host_of<'a>(plan: &'a str, address: &'a str, polls: u32, journal: Option<&'a str>) -> Command<'a>
    requires least { 1 ≤ polls }
    requires most { polls ≤ 4294967295 }
    ensures command { asked_by result
        ≡ host_of plan.now address.now polls (option_map (λ text. text.now) journal.entry) }
    ensures range { IsInRange (asked_by result) }
{
    match journal {
        Some(journal) => Command::JournalHost {
            plan,
            address,
            journal,
            polls,
        },
        None => Command::Host {
            plan,
            address,
            polls,
        },
    }
}

// How many polls are made at most.
fn polls_in(matches: &ArgMatches<'_>) -> Option<u32>
    ensures number { result ≡ polls_in (rows_of (found_of matches.now)) }
    ensures some { IfSome result (λ n. 1 ≤ n) }
    ensures most { IfSome result (λ n. n ≤ 4294967295) }
{
    match text_of(matches, "polls") {
        Some(text) => number_in(1, u32::MAX, text),
        None => Some(POLLS_USUAL),
    }
}

fn format<'a>(matches: &ArgMatches<'a>) -> Option<Command<'a>>
    ensures command { option_map asked_by result ≡ meant_by Name.Format (rows_of (found_of matches.now)) }
    ensures range { IfSome result (λ command. IsInRange (asked_by command)) }
{
    let spool = text_of(matches, "SPOOL")?;
    let slots = number_in(1, SLOTS_MOST, text_of(matches, "SLOTS")?)?;
    Some(Command::Format { spool, slots })
}

fn spool<'a>(matches: &ArgMatches<'a>) -> Option<Command<'a>>
    ensures command { option_map asked_by result ≡ meant_by Name.Spool (rows_of (found_of matches.now)) }
    ensures range { IfSome result (λ command. IsInRange (asked_by command)) }
{
    let spool = text_of(matches, "SPOOL")?;
    Some(Command::Spool { spool })
}

fn drop_first<'a>(matches: &ArgMatches<'a>) -> Option<Command<'a>>
    ensures command { option_map asked_by result ≡ meant_by Name.Drop (rows_of (found_of matches.now)) }
    ensures range { IfSome result (λ command. IsInRange (asked_by command)) }
{
    let spool = text_of(matches, "SPOOL")?;
    let count = number_in(1, SLOTS_MOST, text_of(matches, "N")?)?;
    Some(Command::Drop { spool, count })
}

fn make<'a>(matches: &ArgMatches<'a>) -> Option<Command<'a>>
    ensures command { option_map asked_by result ≡ meant_by Name.Make (rows_of (found_of matches.now)) }
    ensures range { IfSome result (λ command. IsInRange (asked_by command)) }
{
    let rounds = number_in(1, ROUNDS_MOST, text_of(matches, "N")?)?;
    Some(Command::Make { rounds })
}
