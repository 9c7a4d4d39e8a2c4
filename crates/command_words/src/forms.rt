//! The words that each command takes behind its name, as a simple command of `clap`.

ghost use Rattle.std.specs.Prelude.{◌≡◌, IfOk, false, map};
ghost use Rattle.clap.specs.Words.{app_of, rule_of};
ghost use Rattle.command_words.specs.Forms.{app_for, app_with, bare, rule_for, with_each};

use crate::names::Name;
use clap::{Arg, ArgAction, Command};
use std::alloc::{AllocError, Global};

/// How an argument is written.
#[derive(Clone, Copy, Debug, PartialEq, Eq)]
pub(crate) enum Role {
    /// In its place, and it must be given.
    Value,
    /// As `--id VALUE` or `--id=VALUE`.
    Option,
    /// As `--id`.
    Flag,
}

/// The command of a name.
#[tactic(auto, unfolding(crate::specs::Forms::app_for))]
pub(crate) fn app_for<'a>(alloc: Global, name: Name) -> Result<Command<'a>, AllocError>
    ensures { IfOk result (λ c. app_of c ≡ app_for name) }
{
    match name {
        Name::Show => app_with(alloc, "show", &[], &[], &[]),
        Name::Spell => app_with(alloc, "spell", &[], &[], &["hex"]),
        Name::Replay => app_with(alloc, "replay", &["PLAN", "SCHEDULE"], &["journal"], &[]),
        Name::Equipment => app_with(
            alloc,
            "equipment",
            &["PLAN", "ADDRESS", "SPOOL"],
            &["polls"],
            &[],
        ),
        Name::Host => app_with(
            alloc,
            "host",
            &["PLAN", "ADDRESS"],
            &["journal", "polls"],
            &[],
        ),
        Name::Format => app_with(alloc, "format", &["SPOOL", "SLOTS"], &[], &[]),
        Name::Spool => app_with(alloc, "spool", &["SPOOL"], &[], &[]),
        Name::Drop => app_with(alloc, "drop", &["SPOOL", "N"], &[], &[]),
        Name::Make => app_with(alloc, "make", &["N"], &[], &[]),
    }
}

/// A command of its name, its values in their order, its options and its flags.
pub(crate) fn app_with<'a>(
    alloc: Global,
    name: &'static str,
    values: &[&'static str],
    options: &[&'static str],
    flags: &[&'static str],
) -> Result<Command<'a>, AllocError>
    ensures { IfOk result (λ c. app_of c ≡ app_with name.now
        (map (λ id. id.now) values.now) (map (λ id. id.now) options.now) (map (λ id. id.now) flags.now)) }
{
    let command = with_each(alloc, bare(alloc, name), Role::Value, values)?;
    let command = with_each(alloc, command, Role::Option, options)?;
    with_each(alloc, command, Role::Flag, flags)
}

// A command without arguments. It takes the words behind its name, and has no help.
fn bare<'a>(alloc: Global, name: &'static str) -> Command<'a>
    ensures { app_of result ≡ bare name.now }
{
    Command::new(alloc, name)
        .no_binary_name(true)
        .disable_help_flag(true)
}

// The command with these arguments more.
fn with_each<'a>(
    alloc: Global,
    command: Command<'a>,
    role: Role,
    ids: &[&'static str],
) -> Result<Command<'a>, AllocError>
    ensures { IfOk result (λ c. app_of c ≡ with_each role (map (λ id. id.now) ids.now) (app_of command.entry)) }
{
    let mut built = command;
    for id in ids {
        built = built.arg(argument(alloc, role, *id))?;
    }
    Ok(built)
}

fn argument<'a>(alloc: Global, role: Role, id: &'static str) -> Arg<'a>
    ensures rule { rule_of result ≡ rule_for role id.now }
    ensures local { result.global ≡ false }
{
    let argument = Arg::new(alloc, id);
    match role {
        Role::Value => argument.required(true),
        Role::Option => argument.long(id),
        Role::Flag => argument.long(id).action(ArgAction::SetTrue),
    }
}
