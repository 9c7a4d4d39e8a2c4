//! What a step owes to the disk behind all that it is given: changes of the list, and perhaps a setup that is kept.

ghost use Rattle.std.specs.Prelude.{◌≡◌, true, length, ℕ, IfOk, IfSome};
ghost use Rattle.std.specs.Option.{option_map};
ghost use Rattle.gem_spool.specs.Standing.{count_of};
ghost use Rattle.gem_spool.specs.Works.{AreDue, AreSizedOn};
ghost use Rattle.setup_store.specs.Entries.{has_room};
ghost use Rattle.setup_store.specs.OnDisk.{HoldsKept};
ghost use Rattle.spool_works.specs.Owed.{CarriesOwed, KeepsOwed};

use crate::keeping::keep_setup;
use disk_base::Disk;
use gem_spool::{GemSpool, Undone, Work};

/// Carries changes of the list out, one after the other, and then keeps the bytes of a setup, if there are any. Each
/// change has to have its message, or room, when its turn comes, and the bytes have room in an area; a file without one
/// keeps none. Where the disk fails, `at` counts the changes before that call.
pub fn carry_owed<D: Disk>(
    spool: GemSpool<D>,
    works: &[Work],
    setup: Option<&[u8]>,
) -> Result<GemSpool<D>, Undone<D>>
    requires due { AreDue (count_of spool.spool) works.now }
    requires sized { AreSizedOn D.Disk spool.spool works.now }
    requires holds { HoldsKept D.Disk spool.spool }
    requires room { IfSome setup (λ bytes. has_room bytes.now ≡ true) }
    ensures carries { CarriesOwed D.Disk spool works.now (option_map (λ bytes. bytes.now) setup.entry) result }
    ensures holds { IfOk result (λ h. HoldsKept D.Disk h.spool) }
{
    // how it stands
    let _ = spool.len();
    match spool.carry_out(works) {
        Ok(spool) => keep_owed(spool, works.len(), setup),
        Err(undone) => Err(undone),
    }
}

// Keeps the bytes, behind so many changes.
fn keep_owed<D: Disk>(
    spool: GemSpool<D>,
    at: usize,
    setup: Option<&[u8]>,
) -> Result<GemSpool<D>, Undone<D>>
    requires holds { HoldsKept D.Disk spool.spool }
    requires room { IfSome setup (λ bytes. has_room bytes.now ≡ true) }
    ensures keeps { KeepsOwed D.Disk spool (option_map (λ bytes. bytes.now) setup.entry) at result }
    ensures holds { IfOk result (λ h. HoldsKept D.Disk h.spool) }
{
    match setup {
        None => Ok(spool),
        Some(bytes) => match keep_setup(spool, bytes) {
            Ok(spool) => Ok(spool),
            Err(spent) => Err(Undone { at, spent }),
        },
    }
}
