//! The recipes on a disk that can lose power: a file of slots, a recipe a slot.
#![tactic(auto)]

mod buckets;
mod format;
mod front;
mod head;
mod hints;
mod keeper;
mod laws;
mod listing;
mod reading;
mod recipe_disk;
mod scan;
mod settling;
mod sought;
mod survey;
mod tidying;

pub use laws::{recipes_are_of_newest_slots, worked_slots};
pub use recipe_disk::{RecipeDisk, RecipeOpening};
