//! The work that keeps a setup, carried out on the spool of the equipment.

ghost use Rattle.std.specs.Prelude.{◌≡◌, true, IfOk};
ghost use Rattle.setup_store.specs.Entries.{has_room};
ghost use Rattle.setup_store.specs.OnDisk.{HoldsKept};
ghost use Rattle.spool_works.specs.KeptSetup.{KeepsSetup};

use disk_base::Disk;
use gem_spool::GemSpool;
use setup_store::{Keeping, keep};
use spool_slots::Spent;

/// Keeps the bytes of a list of primaries, which has room in an area; a file without one stays as it is. No message
/// changes, nor whether the spool is active. A crash before this is `Ok` leaves the setup that was kept or the new one.
pub fn keep_setup<D: Disk>(spool: GemSpool<D>, bytes: &[u8]) -> Result<GemSpool<D>, Spent<D>>
    requires holds { HoldsKept D.Disk spool.spool }
    requires room { has_room bytes.now ≡ true }
    ensures keeps { KeepsSetup D.Disk spool bytes.now result }
    ensures holds { IfOk result (λ h. HoldsKept D.Disk h.spool) }
{
    let (spool, active) = spool.take_apart();
    match keep(spool, bytes) {
        Ok(spool) => Ok(GemSpool::join(spool, active)),
        Err(Keeping::NoArea(spool)) => Ok(GemSpool::join(spool, active)),
        // (there is room)
        Err(Keeping::NoRoom(spool)) => Ok(GemSpool::join(spool, active)),
        Err(Keeping::Failed(spent)) => Err(spent),
    }
}
