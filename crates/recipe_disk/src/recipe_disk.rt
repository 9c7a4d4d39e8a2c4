//! A store of recipes in hand: how it is made on a disk, and taken up from one.

ghost use Rattle.std.specs.Prelude.{◌≡◌, ◌≤◌, false};
ghost use Rattle.recipe_disk.specs.Opening.{FormatsRecipes, OpensRecipes};
ghost use Rattle.recipe_disk.specs.Slot.{slot_place as place_of};

use crate::buckets::{Buckets, buckets_of, empty_buckets};
use crate::format::write_empty;
use crate::hints::{Hints, shut_hints};
use crate::reading::Reading;
use crate::scan::read_file;
use crate::tidying::close_stale;
use disk_base::{Disk, DiskAnswer};
use spool_file::NotSpool;
use std::marker::Model;

/// Recipes on a disk, each in a slot of a file. One slot stays free, in which the successor of a recipe is written
/// before the old one goes, so a loss of power leaves either of them. Hints of the slots and buckets of these, 80 KiB
/// in all, lie in the value itself, so that none of its calls but `get` and `names` takes memory: it is best lent.
#[derive(Debug, Drop)]
pub struct RecipeDisk<D: Disk> {
    pub(crate) disk: D,
    pub(crate) slots: u32,
    // whether a call has failed
    pub(crate) failed: bool,
    // of each slot, unless a call has failed
    pub(crate) hints: Hints,
    pub(crate) buckets: Buckets,
}

impl<D: Disk> Model for RecipeDisk<D> {
    ghost use Rattle.recipe_disk.specs.Hints.{KnowsUnless};
    ghost use Rattle.recipe_disk.specs.Opening.{RecipeView, recipe_code};

    ghost Value = { RecipeView D };

    ghost coded = { recipe_code D.code };

    ghost view = { λ s. record { disk = s.disk; slots = s.slots; failed = s.failed } };

    ghost invariant = { λ s. KnowsUnless s.failed (D.told s.disk) s.slots s.hints };
}

/// Why no store was taken up from a disk.
#[derive(Debug, Drop)]
pub enum RecipeOpening<D> {
    /// The bytes stand for no recipes: the first place at which they break.
    NotRecipes(D, NotSpool),
    Failed(D),
}

impl<D: Disk> RecipeDisk<D> {
    /// Makes the file of a store without recipes, for one fewer than there are slots, with one sync at its end. The
    /// disk is handed back where it fails. Until this is `Ok` a crash may leave anything.
    pub fn format(disk: D, slots: u32) -> Result<RecipeDisk<D>, D>
        requires some { 2 ≤ slots }
        requires most { slots ≤ 4096 }
        requires size { place_of slots ≤ D.size_is disk }
        ensures { FormatsRecipes D.Disk disk slots result }
    {
        let mut disk = disk;
        match write_empty(&mut disk, slots) {
            DiskAnswer::Done => Ok(RecipeDisk {
                disk,
                slots,
                failed: false,
                hints: shut_hints::<4096>(),
                buckets: empty_buckets(),
            }),
            DiskAnswer::Failed => Err(disk),
        }
    }

    /// Takes up the recipes for which the disk's bytes stand: syncs, tests the file, and closes the slots that a
    /// replacement left open when it was cut off, from the first one on. Bytes that stand for none are `NotRecipes`,
    /// with the first place at which they break; nothing was written then. Behind the sync every crash leaves the
    /// recipes.
    pub fn open(disk: D) -> Result<RecipeDisk<D>, RecipeOpening<D>>
        ensures { OpensRecipes D.Disk disk result }
    {
        let mut disk = disk;
        match disk.sync() {
            DiskAnswer::Failed => return Err(RecipeOpening::Failed(disk)),
            DiskAnswer::Done => {}
        }
        let mut hints = shut_hints::<4096>();
        let slots = match read_file(&mut disk, &mut hints) {
            Reading::Whole(slots) => slots,
            Reading::Broken(not_spool) => return Err(RecipeOpening::NotRecipes(disk, not_spool)),
            Reading::Failed => return Err(RecipeOpening::Failed(disk)),
        };
        match close_stale(&mut disk, &mut hints, slots) {
            DiskAnswer::Done => Ok(RecipeDisk {
                disk,
                slots,
                failed: false,
                buckets: buckets_of(&hints, slots),
                hints,
            }),
            DiskAnswer::Failed => Err(RecipeOpening::Failed(disk)),
        }
    }

    /// Gives the disk back as it is.
    pub fn into_disk(self) -> D
        ensures { result ≡ self.disk }
    {
        self.disk
    }
}
