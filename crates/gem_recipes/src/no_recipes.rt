//! The keeper of a tool that has no store for recipes.

ghost use Rattle.std.specs.Prelude.{◌≡◌, Some, false};
ghost use Rattle.std.specs.FinMap.{empty};
ghost use Rattle.gem_recipes.specs.NoRecipes.{none_fit, refusal_of};

use crate::keeper::{RecipeDrop, RecipeGet, RecipeKeeper, RecipeNames, RecipePut};
use gl_base::Row;
use std::alloc::Global;

// The most bytes of a body.
const MOST_BODY: usize = 65_442;

/// It offers no recipes, and has none and no slot for any: whatever it is asked, it refuses, and it never fails.
#[derive(Clone, Copy, Debug, PartialEq, Eq)]
pub struct NoRecipes;

// What a put of so many bytes is answered.
fn refusal(body_len: usize) -> RecipePut
    ensures { result ≡ refusal_of body_len }
{
    if body_len > MOST_BODY {
        RecipePut::TooLong
    } else {
        RecipePut::NoSpace
    }
}

impl RecipeKeeper for NoRecipes {
    ghost told = { λ keeper. Some empty };

    ghost slots = { λ keeper. 0 };

    ghost offers_is = { λ keeper. false };

    ghost sound = { λ keeper. Unit {0} };

    ghost faults = { λ keeper. 0 };

    ghost fits = { λ keeper recipes sound is. none_fit recipes is };

    fn offers(&self) -> bool {
        false
    }

    fn room(&mut self, _name: &[u8]) -> RecipePut {
        RecipePut::NoSpace
    }

    fn put(&mut self, _name: &[u8], body: &[u8]) -> RecipePut {
        refusal(body.len())
    }

    fn get(&mut self, _alloc: Global, _name: &[u8]) -> RecipeGet {
        RecipeGet::Unknown
    }

    fn delete(&mut self, _name: &[u8]) -> RecipeDrop {
        RecipeDrop::Unknown
    }

    fn names(&mut self, alloc: Global) -> RecipeNames {
        RecipeNames::Names(Row::new(alloc))
    }
}
