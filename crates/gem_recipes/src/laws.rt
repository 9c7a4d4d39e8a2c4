//! What holds of the recipes after every history of changes, and exchanges that can be followed by hand.

ghost use Rattle.gem_recipes.specs.Laws.{AnswersAreExchanges, DeletesInTurn, NumbersRise, RecipesAreLookedBackFor};
ghost use Rattle.gem_recipes.specs.Worked.{WorkedExchanges};

/// The body of a name after a history of changes is the one of the newest change that says something of it.
pub fn recipes_are_looked_back_for()
    ensures { RecipesAreLookedBackFor }
{}

/// What is stored gets a number above all others.
pub fn numbers_rise()
    ensures { NumbersRise }
{}

/// A deletion of several recipes is one of each in turn.
pub fn deletes_in_turn()
    ensures { DeletesInTurn }
{}

/// What is answered and left of the recipes is what an exchange of that request has and leaves: a deletion one by one is
/// the deletion of all that it means.
pub fn answers_are_exchanges()
    ensures { AnswersAreExchanges }
{}

/// Exchanges that are answered so, and some that aren't.
pub fn worked_exchanges()
    ensures { WorkedExchanges }
{}
