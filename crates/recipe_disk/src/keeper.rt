//! The calls of a keeper: each looks for what it is asked for, and changes the file or answers.

ghost use Rattle.std.specs.Prelude.{◌≡◌, true};
ghost use Rattle.gem_recipes.specs.Keeper.{AnswersDelete, AnswersGet, AnswersNames, AnswersPut, AnswersRoom, DeleteLeaves, HasKeeperCause, IsSoundUnless, PutLeaves, delete_failed, get_failed, names_failed, put_failed};
ghost use Rattle.gem_recipes.specs.Recipes.{IsPpid};
ghost use Rattle.recipe_disk.specs.Changes.{DeletesOn, IsKept, PutsOn, recipes_told};
ghost use Rattle.recipe_disk.specs.Hints.{KnowsSlots, KnowsUnless};
ghost use Rattle.recipe_disk.specs.Listing.{get_answer, names_answer};
ghost use Rattle.recipe_disk.specs.Opening.{IsReady, ready_fits};
ghost use Rattle.recipe_disk.specs.Reading.{HasLooked, put_answer_of};

use crate::buckets::{Buckets, move_slot, remove_slot};
use crate::head::BODY_MOST;
use crate::hints::{Hints, fingerprint};
use crate::listing::{read_body, read_names};
use crate::reading::DiskFailed;
use crate::recipe_disk::RecipeDisk;
use crate::settling::{NewRecipe, close_slot, replace};
use crate::survey::{find, look_over};
use disk_base::{Disk, DiskAnswer};
use gem_recipes::{RecipeDrop, RecipeGet, RecipeKeeper, RecipeNames, RecipePut};
use std::alloc::Global;

// Whether there is space for a recipe of this name.
fn room_for<D: Disk>(
    disk: &mut D,
    hints: &Hints,
    buckets: &Buckets,
    slots: u32,
    name: &[u8],
) -> RecipePut
    requires name { IsPpid name.now }
    requires kept { IsKept D.Disk disk.old slots }
    requires known { KnowsSlots (D.told disk.old) slots hints.now }
    ensures answer { AnswersRoom slots name.now (recipes_told (D.told disk.old)) result }
    ensures looked { HasLooked D.Disk disk.old disk.new (put_answer_of result) }
{
    match look_over(disk, hints, buckets, slots, name) {
        Ok(survey) => match survey.place(slots) {
            Some(_) => RecipePut::Stored,
            None => RecipePut::NoSpace,
        },
        Err(DiskFailed) => RecipePut::Failed,
    }
}

// Stores a recipe, if there is space for it.
fn put_on<D: Disk>(
    disk: &mut D,
    hints: &mut Hints,
    buckets: &mut Buckets,
    slots: u32,
    name: &[u8],
    body: &[u8],
) -> RecipePut
    requires name { IsPpid name.now }
    requires kept { IsKept D.Disk disk.old slots }
    requires known { KnowsSlots (D.told disk.old) slots hints.old }
    ensures done { PutsOn D.Disk disk.old disk.new slots name.now body.now result }
    ensures known { KnowsUnless (put_failed result) (D.told disk.new) slots hints.new }
{
    if body.len() > BODY_MOST {
        return RecipePut::TooLong;
    }
    let survey = match look_over(disk, hints, buckets, slots, name) {
        Ok(survey) => survey,
        Err(DiskFailed) => return RecipePut::Failed,
    };
    let slot = match survey.place(slots) {
        Some(slot) => slot,
        None => return RecipePut::NoSpace,
    };
    let recipe = NewRecipe {
        number: survey.next,
        name,
        body,
    };
    match replace(disk, hints, slot, survey.found, &recipe) {
        DiskAnswer::Done => {
            move_slot(buckets, fingerprint(name), survey.found, slot);
            RecipePut::Stored
        }
        DiskAnswer::Failed => RecipePut::Failed,
    }
}

// The body of a recipe.
fn get_on<D: Disk>(
    disk: &mut D,
    hints: &Hints,
    buckets: &Buckets,
    alloc: Global,
    slots: u32,
    name: &[u8],
) -> RecipeGet
    requires name { IsPpid name.now }
    requires kept { IsKept D.Disk disk.old slots }
    requires known { KnowsSlots (D.told disk.old) slots hints.now }
    ensures answer { AnswersGet name.now (recipes_told (D.told disk.old)) result }
    ensures looked { HasLooked D.Disk disk.old disk.new (get_answer result) }
{
    match find(disk, hints, buckets, slots, name) {
        Ok(found) => match found {
            Some(slot) => read_body(disk, alloc, slot),
            None => RecipeGet::Unknown,
        },
        Err(DiskFailed) => RecipeGet::Failed,
    }
}

// Deletes a recipe, if there is one.
fn delete_on<D: Disk>(
    disk: &mut D,
    hints: &mut Hints,
    buckets: &mut Buckets,
    slots: u32,
    name: &[u8],
) -> RecipeDrop
    requires name { IsPpid name.now }
    requires kept { IsKept D.Disk disk.old slots }
    requires known { KnowsSlots (D.told disk.old) slots hints.old }
    ensures done { DeletesOn D.Disk disk.old disk.new slots name.now result }
    ensures known { KnowsUnless (delete_failed result) (D.told disk.new) slots hints.new }
{
    let found = match find(disk, hints, buckets, slots, name) {
        Ok(found) => found,
        Err(DiskFailed) => return RecipeDrop::Failed,
    };
    let slot = match found {
        Some(slot) => slot,
        None => return RecipeDrop::Unknown,
    };
    match close_slot(disk, hints, slot) {
        DiskAnswer::Done => {
            remove_slot(buckets, fingerprint(name), slot);
            RecipeDrop::Dropped
        }
        DiskAnswer::Failed => RecipeDrop::Failed,
    }
}

// Whether an answer is that of a fault.
fn has_put_failed(answer: RecipePut) -> bool
    ensures { result ≡ put_failed answer }
{
    match answer {
        RecipePut::Failed => true,
        RecipePut::Stored | RecipePut::TooLong | RecipePut::NoSpace => false,
    }
}

fn has_get_failed(answer: &RecipeGet) -> bool
    ensures { result ≡ get_failed answer.now }
{
    match answer {
        RecipeGet::Failed => true,
        RecipeGet::Found(_) | RecipeGet::Unknown | RecipeGet::NoMemory => false,
    }
}

fn has_delete_failed(answer: RecipeDrop) -> bool
    ensures { result ≡ delete_failed answer }
{
    match answer {
        RecipeDrop::Failed => true,
        RecipeDrop::Dropped | RecipeDrop::Unknown => false,
    }
}

fn have_names_failed(answer: &RecipeNames) -> bool
    ensures { result ≡ names_failed answer.now }
{
    match answer {
        RecipeNames::Failed => true,
        RecipeNames::Names(_) | RecipeNames::NoMemory => false,
    }
}

/// Each call but `offers` looks for what it is asked for first, which is reads alone: of all slots for `names`, and else
/// of those whose hints have the fingerprint of the name. Where it changes nothing, it makes no other call of the disk.
/// A fault of the disk is its only fault, and behind one it can't be asked any more.
impl<D: Disk> RecipeKeeper for RecipeDisk<D> {
    ghost told = { λ v. recipes_told (D.told v.disk) };

    ghost slots = { λ v. v.slots };

    ghost offers_is = { λ v. true };

    ghost sound = { λ v. IsReady D.Disk v };

    ghost faults = { λ v. (D.health v.disk).faults };

    ghost fits = { λ v recipes ready is. ready_fits _ v recipes ready is };

    fn offers(&self) -> bool {
        true
    }

    fn room(&mut self, name: &[u8]) -> RecipePut
        requires name { IsPpid name.now }
        requires sound { IsReady D.Disk self.old }
        ensures answer { AnswersRoom self.old.slots name.now (recipes_told (D.told self.old.disk)) result }
        ensures told { recipes_told (D.told self.new.disk) ≡ recipes_told (D.told self.old.disk) }
        ensures same { (self.new.slots ≡ self.old.slots) × (true ≡ true) }
        ensures sound { IsSoundUnless (put_failed result) (IsReady D.Disk self.new) }
        ensures cause { HasKeeperCause (put_failed result) (D.health self.old.disk).faults
            (D.health self.new.disk).faults }
        ensures looked { HasLooked D.Disk self.old.disk self.new.disk (put_answer_of result) }
    {
        let answer = room_for(&mut self.disk, &self.hints, &self.buckets, self.slots, name);
        self.failed = has_put_failed(answer);
        answer
    }

    /// It writes the first slot that isn't open, and syncs; opens its gate, and syncs; and closes the slot of the old
    /// recipe of that name, if there is one, and syncs. A crash at any moment of it leaves the old recipes or the new
    /// ones.
    fn put(&mut self, name: &[u8], body: &[u8]) -> RecipePut
        requires name { IsPpid name.now }
        requires sound { IsReady D.Disk self.old }
        ensures answer { AnswersPut self.old.slots name.now body.now (recipes_told (D.told self.old.disk)) result }
        ensures told { PutLeaves self.old.slots name.now body.now (recipes_told (D.told self.old.disk))
            (recipes_told (D.told self.new.disk)) result }
        ensures same { (self.new.slots ≡ self.old.slots) × (true ≡ true) }
        ensures sound { IsSoundUnless (put_failed result) (IsReady D.Disk self.new) }
        ensures cause { HasKeeperCause (put_failed result) (D.health self.old.disk).faults
            (D.health self.new.disk).faults }
        ensures done { PutsOn D.Disk self.old.disk self.new.disk self.old.slots name.now body.now result }
    {
        let answer = put_on(
            &mut self.disk,
            &mut self.hints,
            &mut self.buckets,
            self.slots,
            name,
            body,
        );
        self.failed = has_put_failed(answer);
        answer
    }

    fn get(&mut self, alloc: Global, name: &[u8]) -> RecipeGet
        requires name { IsPpid name.now }
        requires sound { IsReady D.Disk self.old }
        ensures answer { AnswersGet name.now (recipes_told (D.told self.old.disk)) result }
        ensures told { recipes_told (D.told self.new.disk) ≡ recipes_told (D.told self.old.disk) }
        ensures same { (self.new.slots ≡ self.old.slots) × (true ≡ true) }
        ensures sound { IsSoundUnless (get_failed result) (IsReady D.Disk self.new) }
        ensures cause { HasKeeperCause (get_failed result) (D.health self.old.disk).faults
            (D.health self.new.disk).faults }
        ensures looked { HasLooked D.Disk self.old.disk self.new.disk (get_answer result) }
    {
        let answer = get_on(
            &mut self.disk,
            &self.hints,
            &self.buckets,
            alloc,
            self.slots,
            name,
        );
        self.failed = has_get_failed(&answer);
        answer
    }

    /// It closes the slot of that name, and syncs. A crash at any moment of it leaves the recipes with it or without.
    fn delete(&mut self, name: &[u8]) -> RecipeDrop
        requires name { IsPpid name.now }
        requires sound { IsReady D.Disk self.old }
        ensures answer { AnswersDelete name.now (recipes_told (D.told self.old.disk)) result }
        ensures told { DeleteLeaves name.now (recipes_told (D.told self.old.disk))
            (recipes_told (D.told self.new.disk)) result }
        ensures same { (self.new.slots ≡ self.old.slots) × (true ≡ true) }
        ensures sound { IsSoundUnless (delete_failed result) (IsReady D.Disk self.new) }
        ensures cause { HasKeeperCause (delete_failed result) (D.health self.old.disk).faults
            (D.health self.new.disk).faults }
        ensures done { DeletesOn D.Disk self.old.disk self.new.disk self.old.slots name.now result }
    {
        let answer = delete_on(
            &mut self.disk,
            &mut self.hints,
            &mut self.buckets,
            self.slots,
            name,
        );
        self.failed = has_delete_failed(answer);
        answer
    }

    fn names(&mut self, alloc: Global) -> RecipeNames
        requires { IsReady D.Disk self.old }
        ensures answer { AnswersNames (recipes_told (D.told self.old.disk)) result }
        ensures told { recipes_told (D.told self.new.disk) ≡ recipes_told (D.told self.old.disk) }
        ensures same { (self.new.slots ≡ self.old.slots) × (true ≡ true) }
        ensures sound { IsSoundUnless (names_failed result) (IsReady D.Disk self.new) }
        ensures cause { HasKeeperCause (names_failed result) (D.health self.old.disk).faults
            (D.health self.new.disk).faults }
        ensures looked { HasLooked D.Disk self.old.disk self.new.disk (names_answer result) }
    {
        let answer = read_names(&mut self.disk, alloc, self.slots);
        self.failed = have_names_failed(&answer);
        answer
    }
}
