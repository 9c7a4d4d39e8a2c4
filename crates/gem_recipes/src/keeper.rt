//! A keeper of recipes as the layers above know it: its calls, and what clauses may say of what it holds.

ghost use Rattle.std.specs.Prelude.{◌≡◌, ℕ, Bool, Option, Some};
ghost use Rattle.gem_recipes.specs.Keeper.{AnswersDelete, AnswersGet, AnswersNames, AnswersPut, AnswersRoom, DeleteLeaves, HasKeeperCause, IsSoundUnless, PutLeaves, delete_failed, get_failed, names_failed, put_failed};
ghost use Rattle.gem_recipes.specs.Recipes.{IsPpid, Recipes, RecipesFit};

use gl_base::Row;
use std::alloc::Global;

/// What a put of a recipe came to, or would come to.
#[derive(Clone, Copy, Debug, PartialEq, Eq)]
pub enum RecipePut {
    Stored,
    /// The body has more than 65,442 bytes.
    TooLong,
    /// The name is new and all slots but one are taken, or no number is left.
    NoSpace,
    /// A fault, which the keeper has counted.
    Failed,
}

/// What a look-up of a recipe came to.
#[derive(Debug, Drop)]
pub enum RecipeGet {
    /// The body.
    Found(Row<u8>),
    /// There is no recipe of that name.
    Unknown,
    /// A fault, which the keeper has counted.
    Failed,
    NoMemory,
}

/// What a deletion of a recipe came to.
#[derive(Clone, Copy, Debug, PartialEq, Eq)]
pub enum RecipeDrop {
    Dropped,
    /// There is no recipe of that name.
    Unknown,
    /// A fault, which the keeper has counted.
    Failed,
}

/// What a listing of the recipes came to.
#[derive(Debug, Drop)]
pub enum RecipeNames {
    /// All names, in the order of their bytes.
    Names(Row<Row<u8>>),
    /// A fault, which the keeper has counted.
    Failed,
    NoMemory,
}

/// What keeps recipes. A name has 1 to 80 bytes, and a body any bytes, at most 65,442.
pub trait RecipeKeeper {
    /// The recipes, where the keeper tells them: over a disk in memory it does, over a real file it doesn't. No call
    /// changes whether it tells.
    ghost told: { Self → Option Recipes };

    /// How many slots it has, each for one recipe. One of them stays free for the successor of a recipe. No call
    /// changes how many there are.
    ghost slots: { Self → ℕ };

    /// Whether it is there for a host. No call changes it.
    ghost offers_is: { Self → Bool };

    /// That it can be asked. A call that fails leaves it so that it can't.
    ghost sound: { Self → Type 0 };

    /// How many faults were counted. The count rises by one where a call fails, and stands at every other call and at
    /// 2^64 - 1.
    ghost faults: { Self → ℕ };

    /// Whether a host is to be offered the recipes.
    fn offers(&self) -> bool
        ensures { result ≡ offers_is self.now };

    /// Answers what a put of this name with an empty body would, and changes nothing.
    fn room(&mut self, name: &[u8]) -> RecipePut
        requires name { IsPpid name.now }
        requires sound { sound self.old }
        ensures answer { AnswersRoom (slots self.old) name.now (told self.old) result }
        ensures told { told self.new ≡ told self.old }
        ensures same { (slots self.new ≡ slots self.old) × (offers_is self.new ≡ offers_is self.old) }
        ensures sound { IsSoundUnless (put_failed result) (sound self.new) }
        ensures cause { HasKeeperCause (put_failed result) (faults self.old) (faults self.new) };

    /// Stores a recipe, in place of the one of that name if there is one, with the next number: the greatest one and
    /// 1, or 0 where there is none. Where it fails, the recipe is stored or nothing has changed; every other refusal
    /// changes nothing.
    fn put(&mut self, name: &[u8], body: &[u8]) -> RecipePut
        requires name { IsPpid name.now }
        requires sound { sound self.old }
        ensures answer { AnswersPut (slots self.old) name.now body.now (told self.old) result }
        ensures told { PutLeaves (slots self.old) name.now body.now (told self.old) (told self.new) result }
        ensures same { (slots self.new ≡ slots self.old) × (offers_is self.new ≡ offers_is self.old) }
        ensures sound { IsSoundUnless (put_failed result) (sound self.new) }
        ensures cause { HasKeeperCause (put_failed result) (faults self.old) (faults self.new) };

    /// The body of the recipe of this name, and changes nothing.
    fn get(&mut self, alloc: Global, name: &[u8]) -> RecipeGet
        requires name { IsPpid name.now }
        requires sound { sound self.old }
        ensures answer { AnswersGet name.now (told self.old) result }
        ensures told { told self.new ≡ told self.old }
        ensures same { (slots self.new ≡ slots self.old) × (offers_is self.new ≡ offers_is self.old) }
        ensures sound { IsSoundUnless (get_failed result) (sound self.new) }
        ensures cause { HasKeeperCause (get_failed result) (faults self.old) (faults self.new) };

    /// Deletes the recipe of this name. Where it fails, it is deleted or nothing has changed.
    fn delete(&mut self, name: &[u8]) -> RecipeDrop
        requires name { IsPpid name.now }
        requires sound { sound self.old }
        ensures answer { AnswersDelete name.now (told self.old) result }
        ensures told { DeleteLeaves name.now (told self.old) (told self.new) result }
        ensures same { (slots self.new ≡ slots self.old) × (offers_is self.new ≡ offers_is self.old) }
        ensures sound { IsSoundUnless (delete_failed result) (sound self.new) }
        ensures cause { HasKeeperCause (delete_failed result) (faults self.old) (faults self.new) };

    /// The names of all recipes in the order of their bytes, and changes nothing.
    fn names(&mut self, alloc: Global) -> RecipeNames
        requires { sound self.old }
        ensures answer { AnswersNames (told self.old) result }
        ensures told { told self.new ≡ told self.old }
        ensures same { (slots self.new ≡ slots self.old) × (offers_is self.new ≡ offers_is self.old) }
        ensures sound { IsSoundUnless (names_failed result) (sound self.new) }
        ensures cause { HasKeeperCause (names_failed result) (faults self.old) (faults self.new) };

    /// While it can be asked, what it tells is what so many slots may hold.
    ghost fits: { (keeper : Self) (recipes : Recipes) → sound keeper → told keeper ≡ Some recipes →
        RecipesFit (slots keeper) recipes };
}

impl<K: RecipeKeeper> RecipeKeeper for &mut K {
    ghost told = { λ keeper. K.told keeper.now };

    ghost slots = { λ keeper. K.slots keeper.now };

    ghost offers_is = { λ keeper. K.offers_is keeper.now };

    ghost sound = { λ keeper. K.sound keeper.now };

    ghost faults = { λ keeper. K.faults keeper.now };

    ghost fits = { λ keeper recipes sound is. K.fits keeper.now recipes sound is };

    fn offers(&self) -> bool {
        (**self).offers()
    }

    fn room(&mut self, name: &[u8]) -> RecipePut {
        (**self).room(name)
    }

    fn put(&mut self, name: &[u8], body: &[u8]) -> RecipePut {
        (**self).put(name, body)
    }

    fn get(&mut self, alloc: Global, name: &[u8]) -> RecipeGet {
        (**self).get(alloc, name)
    }

    fn delete(&mut self, name: &[u8]) -> RecipeDrop {
        (**self).delete(name)
    }

    fn names(&mut self, alloc: Global) -> RecipeNames {
        (**self).names(alloc)
    }
}
