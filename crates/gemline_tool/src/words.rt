//! The words behind the program's name, and what they ask for.

use gemline_app::Outcome;
use std::alloc::Global;
use std::env::Args;
use std::io;
use tool_app::Names;

/// What words ask for.
#[derive(Clone, Copy)]
pub(crate) enum Asked<'a> {
    /// How the program is used.
    Help,
    /// The run of a tool over these names.
    Run(Names<'a>),
}

/// The words behind the program's name, or why there are none: one that is no text is a fault of usage.
pub(crate) fn words_of(alloc: Global, arguments: io::Result<Args>) -> Result<Vec<String>, Outcome> {
    let mut arguments = match arguments {
        Ok(arguments) => arguments,
        Err(error) => return Err(refusal_of(&error)),
    };
    let _name = arguments.next();
    let mut words = Vec::new(alloc);
    'words: while let Some(word) = arguments.next() {
        if words.push(word).is_err() {
            return Err(Outcome::NoMemory);
        }
    }
    Ok(words)
}

fn refusal_of(error: &io::Error) -> Outcome {
    match error.kind() {
        io::ErrorKind::OutOfMemory => Outcome::NoMemory,
        _ => Outcome::Usage,
    }
}

/// What words ask for; none where they are none that are known. An option, which begins with `--`, is none but
/// `--help`.
pub(crate) fn asked_by(words: &[String]) -> Option<Asked<'_>> {
    match words {
        [word] if word.as_str() == "--help" => Some(Asked::Help),
        [plan, address, spool] if !words.iter().any(|word| is_option(word)) => Some(Asked::Run(
            Names {
                plan: plan.as_str(),
                address: address.as_str(),
                spool: spool.as_str(),
            },
        )),
        _ => None,
    }
}

fn is_option(word: &String) -> bool {
    word.as_bytes().starts_with(b"--")
}
