//! What `clap` makes of the words behind a name.

ghost use Rattle.std.specs.Prelude.{◌≡◌, true, map, option_map, string_bytes};
ghost use Rattle.clap.specs.Walk.{rows_of};
ghost use Rattle.clap.specs.Words.{app_of, fault_of, first_of, found_of, is_simple_and_free, kind_of, matches_of};
ghost use Rattle.command_words.specs.Told.{IsToldBy};
ghost use Rattle.command_words.specs.Words.{IsParse, found_in, is_set, refusals};

use crate::command::WordsFault;
use crate::forms::app_for;
use crate::names::Name;
use clap::error::ErrorKind;
use clap::{ArgMatches, Command, Error};
use std::alloc::Global;

/// What the words behind a name are to its command.
pub(crate) fn matches_for<'a>(
    alloc: Global,
    name: Name,
    words: &'a [String],
) -> Result<ArgMatches<'a>, WordsFault>
    ensures { IsParse
        (refusals name (map string_bytes words.entry.now))
        (found_in name (map string_bytes words.entry.now))
        result }
{
    match app_for(alloc, name) {
        Ok(command) => parse(command, words),
        Err(_) => Err(WordsFault::NoMemory),
    }
}

// What the words are to a command.
fn parse<'a>(command: Command<'a>, words: &'a [String]) -> Result<ArgMatches<'a>, WordsFault>
    requires { is_simple_and_free (app_of command) ≡ true }
    ensures { IsParse
        (fault_of (app_of command.entry) (map string_bytes words.entry.now))
        (matches_of (app_of command.entry) (map string_bytes words.entry.now))
        result }
{
    match command.try_get_matches_from(words) {
        Ok(matches) => Ok(matches),
        Err(error) => Err(fault_told_by(&error)),
    }
}

// Which fault an error is: its text isn't printed.
fn fault_told_by(error: &Error) -> WordsFault
    ensures { IsToldBy (kind_of error.now) result }
{
    match error.kind() {
        ErrorKind::OutOfMemory => WordsFault::NoMemory,
        _ => WordsFault::Usage,
    }
}

/// The text that was found for an argument.
pub(crate) fn text_of<'a>(matches: &ArgMatches<'a>, id: &str) -> Option<&'a str>
    ensures { option_map (λ text. text.now) result ≡ first_of id.now (rows_of (found_of matches.now)) }
{
    matches.get_str(id)
}

/// Whether a flag was found.
pub(crate) fn is_set(matches: &ArgMatches<'_>, id: &str) -> bool
    ensures { result ≡ is_set id.now (rows_of (found_of matches.now)) }
{
    match text_of(matches, id) {
        Some(text) => text == "true",
        None => false,
    }
}
