//! The area behind the slots, in which a setup is kept, and the cell that names its bytes there. No call on them
//! changes the list, the mark or the floor.

ghost use Rattle.std.specs.Prelude.{◌≡◌, ◌⊎◌, ◌+◌, ◌≤◌, true, length};
ghost use Rattle.gate_cell.specs.Cell.{copy_place, names_second};
ghost use Rattle.spool_file.specs.Setup.{area_size, has_area as has_area_of, setup_cell};
ghost use Rattle.spool_slots.specs.Setup.{ReadsArea, ReadsCell, ReadsPlace, SetsCell, WritesArea};

use crate::cells::write_cell;
use crate::device::read_at;
use crate::spool::{Spool, taken_up};
use crate::states::{PlaceAnswer, Spent};
use disk_base::{Disk, DiskAnswer, settle};
use gate_cell::{CellAnswer, value_of};
use spool_file::{SETUP_CELL, has_area, slot_place};

// Where the copy of the setup's cell begins that a gate names.
fn copy_at(gate: u8) -> u64
    ensures place { result ≡ setup_cell + copy_place (names_second gate) }
    ensures either { (result ≡ setup_cell) ⊎ (result ≡ setup_cell + 8) }
{
    if gate % 2 == 1 {
        return SETUP_CELL + 8;
    }
    SETUP_CELL
}

impl<D: Disk> Spool<D> {
    /// Whether the file has an area, of 524,288 bytes behind the slots. Its size alone tells.
    pub fn area(&self) -> bool
        ensures { result ≡ has_area_of self.now.slots (D.size_is self.now.disk) }
    {
        has_area(self.known.slots, self.disk.size())
    }

    /// Reads the value of the setup's cell. `Failed` comes only where the disk has counted a fault.
    pub fn area_cell(&mut self) -> CellAnswer
        requires { has_area_of self.old.slots (D.size_is self.old.disk) ≡ true }
        ensures { ReadsCell D.Disk self.old self.new result }
    {
        let mut cell = [0; 17];
        match read_at(&mut self.disk, SETUP_CELL, &mut cell) {
            DiskAnswer::Failed => CellAnswer::Failed,
            DiskAnswer::Done => CellAnswer::Value(value_of(&cell)),
        }
    }

    /// Where the copy begins that has the cell's value, by a read of the cell's gate: 47 or 55. `Failed` comes only
    /// where the disk has counted a fault.
    pub fn area_place(&mut self) -> PlaceAnswer
        requires { has_area_of self.old.slots (D.size_is self.old.disk) ≡ true }
        ensures { ReadsPlace D.Disk self.old self.new result }
    {
        let mut gate = [0];
        match read_at(&mut self.disk, SETUP_CELL + 16, &mut gate) {
            DiskAnswer::Failed => return PlaceAnswer::Failed,
            DiskAnswer::Done => {}
        }
        PlaceAnswer::Place(copy_at(gate[0]))
    }

    /// Fills a buffer with the bytes from a place of the area on. `Failed` comes only where the disk has counted a
    /// fault.
    pub fn read_area(&mut self, at: u64, into: &mut [u8]) -> DiskAnswer
        requires area { has_area_of self.old.slots (D.size_is self.old.disk) ≡ true }
        requires within { at + length into.old ≤ area_size }
        ensures { ReadsArea D.Disk self.old self.new at into.new result }
    {
        let begin = slot_place(self.known.slots);
        read_at(&mut self.disk, begin + at, into)
    }

    /// Puts bytes in place of those from a place of the area on, and syncs. A crash before this is `Ok` leaves anything
    /// in their range. The other bytes of the area and the cell stay. `Err` comes only where the disk has counted a
    /// fault.
    pub fn write_area(self, at: u64, bytes: &[u8]) -> Result<Spool<D>, Spent<D>>
        requires area { has_area_of self.slots (D.size_is self.disk) ≡ true }
        requires within { at + length bytes.now ≤ area_size }
        ensures { WritesArea D.Disk self at bytes.now result }
    {
        let known = self.known;
        let mut disk = self.disk;
        match settle(&mut disk, slot_place(known.slots) + at, bytes) {
            DiskAnswer::Done => Ok(taken_up(disk, known)),
            DiskAnswer::Failed => Err(Spent { disk }),
        }
    }

    /// Writes another value of the setup's cell. At every moment the old value counts, or the new one, and names its
    /// bytes of the area. `Err` comes only where the disk has counted a fault; where it had room and went on, and a
    /// call behind the third failed, the cell's gate decides what a crash finds.
    pub fn set_area_cell(self, value: u64) -> Result<Spool<D>, Spent<D>>
        requires { has_area_of self.slots (D.size_is self.disk) ≡ true }
        ensures { SetsCell D.Disk self value result }
    {
        let known = self.known;
        match write_cell(self.disk, SETUP_CELL, value) {
            Ok(disk) => Ok(taken_up(disk, known)),
            Err(disk) => Err(Spent { disk }),
        }
    }
}
