//! What holds of all words.

ghost use Rattle.command_words.specs.Laws.{RefusesOtherNames, TakesAllBehindHyphens, TakesPlainWords};
ghost use Rattle.command_words.specs.Worked.{AreAsWorked};

/// Words that begin with no name are no command's.
pub fn other_names_are_refused()
    ensures { RefusesOtherNames }
{}

/// A name with as many values as it takes, none of which begins with a hyphen, is its command, and its values are these
/// texts. A number has one to ten digits and is in its range.
pub fn plain_words_are_taken()
    ensures { TakesPlainWords }
{}

/// Behind `--` any texts are values.
pub fn hyphens_end_options()
    ensures { TakesAllBehindHyphens }
{}

/// Words worked by hand.
pub fn words_are_as_worked()
    ensures { AreAsWorked }
{}
