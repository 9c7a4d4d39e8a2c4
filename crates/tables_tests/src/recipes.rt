//! The keeper of a tool without a store for recipes: what it refuses.

use gem_recipes::{NoRecipes, RecipeDrop, RecipeGet, RecipeKeeper, RecipeNames, RecipePut};
use std::alloc::Global;

static LONGEST: [u8; 65_442] = [1; 65_442];

static TOO_LONG: [u8; 65_443] = [1; 65_443];

#[test]
fn it_offers_nothing_and_takes_nothing(rt: HostRuntime) {
    let mut keeper = NoRecipes;
    assert!(rt; !keeper.offers());
    assert_eq!(rt; keeper.room(b"A1"), RecipePut::NoSpace);
    assert_eq!(rt; keeper.put(b"A1", b"!\x01\x02"), RecipePut::NoSpace);
    assert_eq!(rt; keeper.put(b"A1", &LONGEST), RecipePut::NoSpace);
    assert_eq!(rt; keeper.put(b"A1", &TOO_LONG), RecipePut::TooLong);
    assert_eq!(rt; keeper.delete(b"A1"), RecipeDrop::Unknown);
}

fn knows_none(alloc: Global) -> bool {
    matches!(NoRecipes.get(alloc, b"A1"), RecipeGet::Unknown)
}

fn lists_none(alloc: Global) -> bool {
    match NoRecipes.names(alloc) {
        RecipeNames::Names(names) => names.is_empty(),
        RecipeNames::Failed | RecipeNames::NoMemory => false,
    }
}

#[test]
fn it_knows_no_name(rt: HostRuntime) {
    assert!(rt; knows_none(rt.alloc()));
    assert!(rt; lists_none(rt.alloc()));
}
