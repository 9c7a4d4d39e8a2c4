//! The words that commands begin with.

ghost use Rattle.std.specs.Prelude.{◌≡◌};
ghost use Rattle.command_words.specs.Words.{name_of};

/// The name of a command.
#[derive(Clone, Copy, Debug, PartialEq, Eq)]
pub(crate) enum Name {
    Show,
    Spell,
    Replay,
    Equipment,
    Host,
    Format,
    Spool,
    Drop,
    Make,
}

/// The name that a word is.
pub(crate) fn name_of(word: &str) -> Option<Name>
    ensures { result ≡ name_of word.now }
{
    if word == "show" {
        Some(Name::Show)
    } else if word == "spell" {
        Some(Name::Spell)
    } else if word == "replay" {
        Some(Name::Replay)
    } else if word == "equipment" {
        Some(Name::Equipment)
    } else if word == "host" {
        Some(Name::Host)
    } else if word == "format" {
        Some(Name::Format)
    } else if word == "spool" {
        Some(Name::Spool)
    } else if word == "drop" {
        Some(Name::Drop)
    } else if word == "make" {
        Some(Name::Make)
    } else {
        None
    }
}
