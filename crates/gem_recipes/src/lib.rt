//! The process programs of GEM, also called recipes (SEMI E30, process program management; SEMI E5, stream 7): what
//! keeps them, and what a host is answered.
#![tactic(auto)]

mod asking;
mod keeper;
mod laws;
mod no_recipes;
mod ppid;

pub use asking::{RecipesAnswer, RecipesAsked, Unanswered};
pub use keeper::{RecipeDrop, RecipeGet, RecipeKeeper, RecipeNames, RecipePut};
pub use laws::{
    answers_are_exchanges, deletes_in_turn, numbers_rise, recipes_are_looked_back_for,
    worked_exchanges,
};
pub use no_recipes::NoRecipes;
pub use ppid::Ppid;
