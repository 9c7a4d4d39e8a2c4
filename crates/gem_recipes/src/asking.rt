//! What a host asks of the recipes, and how a keeper answers it.

ghost use Rattle.std.specs.Prelude.{◌≡◌, ◌<◌, ℕ, All, List, bytes_eq, length, IfOk, OnOk};
ghost use Rattle.std.specs.List.{list_all, list_any};
ghost use Rattle.gem_recipes.specs.Asking.{AnswerFits, AreNames, DropsEach, DropsOne, Serves, StaysUnless, has_failed, has_name, is_change};
ghost use Rattle.gem_recipes.specs.Keeper.{IsOf};
ghost use Rattle.gem_recipes.specs.Recipes.{IsPpid, names_of};
ghost use Rattle.gem_recipes.specs.declared.asking.RecipesAsked.TheVariants as asking;

use crate::keeper::{RecipeDrop, RecipeGet, RecipeKeeper, RecipeNames, RecipePut};
use crate::ppid::Ppid;
use gl_base::{NoMemory, Row};
use std::alloc::Global;
use std::collections::BTreeSet;

// The greatest LENGTH that is granted.
const MOST_LENGTH: u32 = 65_438;

// PPGNT and ACKC7: it is granted or done; there is no space for it (PPGNT); its length is wrong; there is no space for
// it (ACKC7); its name is unknown.
const DONE: u8 = 0;

const NOT_GRANTED: u8 = 2;

const TOO_LONG: u8 = 2;

const NO_SPACE: u8 = 3;

const UNKNOWN: u8 = 4;

/// What a host asks of the recipes.
#[derive(Debug, Drop)]
pub enum RecipesAsked {
    /// S7F1: whether a recipe of this name and length may come.
    Inquire { name: Ppid, length: u32 },
    /// S7F3: this body is to be stored under this name.
    Send { name: Ppid, body: Row<u8> },
    /// S7F5: the body of this name.
    Ask(Ppid),
    /// S7F17: the recipes of these names are to be deleted, or all where none is named.
    Delete(Row<Ppid>),
    /// S7F19: all names.
    List,
}

/// What a host is answered by the recipes.
#[derive(Debug, Drop)]
pub enum RecipesAnswer {
    /// PPGNT of S7F2, or ACKC7 of S7F4 and S7F18.
    Code(u8),
    /// S7F6: this name with its body, or that there is no recipe of it.
    Body { name: Ppid, body: Option<Row<u8>> },
    /// S7F20: the names, in the order of their bytes.
    Names(Row<Row<u8>>),
}

/// Why nothing is answered.
#[derive(Clone, Copy, Debug, PartialEq, Eq)]
pub enum Unanswered {
    /// The keeper has failed. Some first of the changes that were asked for are made, or none.
    Failed,
    /// Memory ran out before anything was changed.
    NoMemory,
}

impl RecipesAsked {
    /// Whether it changes the recipes, so that it is carried out also where no answer is asked for.
    pub fn is_change(&self) -> bool
        ensures { result ≡ is_change self.now }
    {
        matches!(self, RecipesAsked::Send { .. } | RecipesAsked::Delete(_))
    }

    /// A keeper carries it out and answers it. It is asked once, and of a deletion for its names and then for each
    /// recipe that goes, each once, in the order in which they are named, or in that of their bytes where none is. A
    /// length that no recipe may have is refused without it.
    pub fn answer_by<K: RecipeKeeper>(
        self,
        alloc: Global,
        keeper: &mut K,
    ) -> Result<RecipesAnswer, Unanswered>
        requires { K.sound keeper.old }
        ensures serves { Serves (K.slots keeper.old) self (K.told keeper.old) (K.told keeper.new) result }
        ensures fits { IfOk result AnswerFits }
        ensures keeper { StaysUnless (has_failed result) K.RecipeKeeper keeper.old keeper.new }
    {
        match self {
            RecipesAsked::Inquire { name, length } => inquire(keeper, &name, length),
            RecipesAsked::Send { name, body } => send(keeper, &name, &body),
            RecipesAsked::Ask(name) => ask(alloc, keeper, name),
            RecipesAsked::Delete(names) => delete(alloc, keeper, names.as_slice()),
            RecipesAsked::List => list(alloc, keeper),
        }
    }
}

// Whether a recipe of this name and length may come.
fn inquire<K: RecipeKeeper>(
    keeper: &mut K,
    name: &Ppid,
    length: u32,
) -> Result<RecipesAnswer, Unanswered>
    requires { K.sound keeper.old }
    ensures serves { Serves (K.slots keeper.old) (asking.Inquire name.now length) (K.told keeper.old) (K.told keeper.new)
        result }
    ensures fits { IfOk result AnswerFits }
    ensures keeper { StaysUnless (has_failed result) K.RecipeKeeper keeper.old keeper.new }
{
    if length > MOST_LENGTH {
        return Ok(RecipesAnswer::Code(NOT_GRANTED));
    }
    match keeper.room(name.bytes()) {
        RecipePut::Stored => Ok(RecipesAnswer::Code(DONE)),
        RecipePut::NoSpace => Ok(RecipesAnswer::Code(NOT_GRANTED)),
        // (no body is too long that has no bytes)
        RecipePut::TooLong => Ok(RecipesAnswer::Code(NOT_GRANTED)),
        RecipePut::Failed => Err(Unanswered::Failed),
    }
}

// Stores a recipe.
fn send<K: RecipeKeeper>(
    keeper: &mut K,
    name: &Ppid,
    body: &Row<u8>,
) -> Result<RecipesAnswer, Unanswered>
    requires { K.sound keeper.old }
    ensures serves { Serves (K.slots keeper.old) (asking.Send name.now body.now) (K.told keeper.old) (K.told keeper.new)
        result }
    ensures fits { IfOk result AnswerFits }
    ensures keeper { StaysUnless (has_failed result) K.RecipeKeeper keeper.old keeper.new }
{
    match keeper.put(name.bytes(), body.as_slice()) {
        RecipePut::Stored => Ok(RecipesAnswer::Code(DONE)),
        RecipePut::TooLong => Ok(RecipesAnswer::Code(TOO_LONG)),
        RecipePut::NoSpace => Ok(RecipesAnswer::Code(NO_SPACE)),
        RecipePut::Failed => Err(Unanswered::Failed),
    }
}

// Looks a recipe up.
fn ask<K: RecipeKeeper>(
    alloc: Global,
    keeper: &mut K,
    name: Ppid,
) -> Result<RecipesAnswer, Unanswered>
    requires { K.sound keeper.old }
    ensures serves { Serves (K.slots keeper.old) (asking.Ask name) (K.told keeper.old) (K.told keeper.new) result }
    ensures fits { IfOk result AnswerFits }
    ensures keeper { StaysUnless (has_failed result) K.RecipeKeeper keeper.old keeper.new }
{
    match keeper.get(alloc, name.bytes()) {
        RecipeGet::Found(body) => Ok(RecipesAnswer::Body {
            name,
            body: Some(body),
        }),
        RecipeGet::Unknown => Ok(RecipesAnswer::Body { name, body: None }),
        RecipeGet::Failed => Err(Unanswered::Failed),
        RecipeGet::NoMemory => Err(Unanswered::NoMemory),
    }
}

// Names all recipes.
fn list<K: RecipeKeeper>(alloc: Global, keeper: &mut K) -> Result<RecipesAnswer, Unanswered>
    requires { K.sound keeper.old }
    ensures serves { Serves (K.slots keeper.old) asking.List (K.told keeper.old) (K.told keeper.new) result }
    ensures fits { IfOk result AnswerFits }
    ensures keeper { StaysUnless (has_failed result) K.RecipeKeeper keeper.old keeper.new }
{
    match keeper.names(alloc) {
        RecipeNames::Names(names) => Ok(RecipesAnswer::Names(names)),
        RecipeNames::Failed => Err(Unanswered::Failed),
        RecipeNames::NoMemory => Err(Unanswered::NoMemory),
    }
}

// Deletes these recipes, or all where none is named.
fn delete<K: RecipeKeeper>(
    alloc: Global,
    keeper: &mut K,
    names: &[Ppid],
) -> Result<RecipesAnswer, Unanswered>
    requires { K.sound keeper.old }
    ensures serves { Serves (K.slots keeper.old) (asking.Delete names.now) (K.told keeper.old) (K.told keeper.new) result }
    ensures fits { IfOk result AnswerFits }
    ensures keeper { StaysUnless (has_failed result) K.RecipeKeeper keeper.old keeper.new }
{
    match keeper.names(alloc) {
        RecipeNames::Names(known) => delete_of(alloc, keeper, known.as_slice(), names),
        RecipeNames::Failed => Err(Unanswered::Failed),
        RecipeNames::NoMemory => Err(Unanswered::NoMemory),
    }
}

// The same, where these are the names of all.
fn delete_of<K: RecipeKeeper>(
    alloc: Global,
    keeper: &mut K,
    known: &[Row<u8>],
    names: &[Ppid],
) -> Result<RecipesAnswer, Unanswered>
    requires known { All IsPpid known.now }
    requires sound { K.sound keeper.old }
    ensures serves { IsOf (K.told keeper.old) names_of known.now
        → Serves (K.slots keeper.old) (asking.Delete names.now) (K.told keeper.old) (K.told keeper.new) result }
    ensures fits { IfOk result AnswerFits }
    ensures keeper { StaysUnless (has_failed result) K.RecipeKeeper keeper.old keeper.new }
{
    if names.is_empty() {
        return drop_all(keeper, known);
    }
    match names_in(alloc, known) {
        Ok(left) => delete_known(keeper, left, names),
        Err(NoMemory) => Err(Unanswered::NoMemory),
    }
}

// Deletes these recipes, all of which are looked up before any of them goes.
fn delete_known<'a, K: RecipeKeeper>(
    keeper: &mut K,
    left: BTreeSet<&'a [u8], Global>,
    names: &[Ppid],
) -> Result<RecipesAnswer, Unanswered>
    requires some { 0 < length names.now }
    requires sound { K.sound keeper.old }
    ensures serves { AreNames (K.told keeper.old) (has_name (λ name. name.now) left.entry)
        → Serves (K.slots keeper.old) (asking.Delete names.now) (K.told keeper.old) (K.told keeper.new) result }
    ensures fits { IfOk result AnswerFits }
    ensures keeper { StaysUnless (has_failed result) K.RecipeKeeper keeper.old keeper.new }
{
    if has_all(&left, names) {
        drop_each(keeper, left, names)
    } else {
        Ok(RecipesAnswer::Code(UNKNOWN))
    }
}

// These names, to be looked up.
fn names_in<'a>(alloc: Global, names: &'a [Row<u8>]) -> Result<BTreeSet<&'a [u8], Global>, NoMemory>
    ensures { IfOk result (λ found. (name : List ℕ)
        → has_name (λ one. one.now) found name ≡ list_any (bytes_eq name) names.now) }
{
    let mut found: BTreeSet<&'a [u8], Global> = BTreeSet::new(alloc);
    for name in names {
        match found.insert(name.as_slice()) {
            Ok(_) => {}
            Err(_) => return Err(NoMemory),
        }
    }
    Ok(found)
}

// Whether all of these names are there.
fn has_all<'a>(left: &BTreeSet<&'a [u8], Global>, names: &[Ppid]) -> bool
    ensures { result ≡ list_all (has_name (λ one. one.now) left.now) names.now }
{
    for name in names {
        if !left.contains(name.bytes()) {
            return false;
        }
    }
    true
}

// Deletes the recipes of these names, which are those of all.
fn drop_all<K: RecipeKeeper>(keeper: &mut K, known: &[Row<u8>]) -> Result<RecipesAnswer, Unanswered>
    requires known { All IsPpid known.now }
    requires sound { K.sound keeper.old }
    ensures drops { DropsEach known.now (K.told keeper.old) (K.told keeper.new) result }
    ensures keeper { StaysUnless (has_failed result) K.RecipeKeeper keeper.old keeper.new }
{
    for name in known {
        drop_one(keeper, name.as_slice())?;
    }
    Ok(RecipesAnswer::Code(DONE))
}

// Deletes the recipes of these names, where the names of all are left. One that is named again is gone by then.
fn drop_each<'a, K: RecipeKeeper>(
    keeper: &mut K,
    left: BTreeSet<&'a [u8], Global>,
    names: &[Ppid],
) -> Result<RecipesAnswer, Unanswered>
    requires { K.sound keeper.old }
    ensures drops { AreNames (K.told keeper.old) (has_name (λ name. name.now) left.entry)
        → DropsEach names.now (K.told keeper.old) (K.told keeper.new) result }
    ensures fits { IfOk result AnswerFits }
    ensures keeper { StaysUnless (has_failed result) K.RecipeKeeper keeper.old keeper.new }
{
    let mut rest = left;
    for name in names {
        drop_left(keeper, &mut rest, name)?;
    }
    Ok(RecipesAnswer::Code(DONE))
}

// Deletes the recipe of this name, if the name is left, which it is no longer.
fn drop_left<'a, K: RecipeKeeper>(
    keeper: &mut K,
    left: &mut BTreeSet<&'a [u8], Global>,
    name: &Ppid,
) -> Result<(), Unanswered>
    requires { K.sound keeper.old }
    ensures drops { AreNames (K.told keeper.old) (has_name (λ one. one.now) left.old)
        → DropsOne name.now (K.told keeper.old) (K.told keeper.new) result }
    ensures left { AreNames (K.told keeper.old) (has_name (λ one. one.now) left.old)
        → OnOk result (AreNames (K.told keeper.new) (has_name (λ one. one.now) left.new)) }
    ensures keeper { StaysUnless (has_failed result) K.RecipeKeeper keeper.old keeper.new }
{
    let bytes = name.bytes();
    let there = left.remove(bytes);
    if there {
        drop_one(keeper, bytes)
    } else {
        Ok(())
    }
}

// Deletes the recipe of this name, if there is one.
fn drop_one<K: RecipeKeeper>(keeper: &mut K, name: &[u8]) -> Result<(), Unanswered>
    requires name { IsPpid name.now }
    requires sound { K.sound keeper.old }
    ensures drops { DropsOne name.now (K.told keeper.old) (K.told keeper.new) result }
    ensures keeper { StaysUnless (has_failed result) K.RecipeKeeper keeper.old keeper.new }
{
    match keeper.delete(name) {
        RecipeDrop::Dropped => Ok(()),
        RecipeDrop::Unknown => Ok(()),
        RecipeDrop::Failed => Err(Unanswered::Failed),
    }
}
