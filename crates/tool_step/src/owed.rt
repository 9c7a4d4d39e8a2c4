//! What a step asks of an object outside of the tool.

use gem_recipes::{RecipesAnswer, RecipesAsked};
use message_flow::Message;

/// What is asked of an object outside of the tool behind the works of the spool. The primary that asks for it is
/// answered behind that.
#[derive(Debug, Drop)]
pub enum Owed {
    /// The setup is kept, with this primary, which is accepted. Its text isn't needed any more, and left out.
    Keep(Message),
    /// This is asked of the recipes, by this primary, without its text as well.
    Recipes(RecipesAsked, Message),
    /// The recipes have answered so what this primary has asked of them.
    Answered(RecipesAnswer, Message),
}
