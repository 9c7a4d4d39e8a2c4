//! The bytes of a cell, two copies of a number and a gate that names the one that counts, and the reading of its value.

ghost use Rattle.std.specs.Prelude.{◌≡◌, ◌+◌, ◌≤◌, false, Some, length};
ghost use Rattle.std.specs.Int.{w64, from_be_bytes};
ghost use Rattle.disk_base.specs.Calls.{Logs, read_call};
ghost use Rattle.disk_base.specs.Faults.{GoesAsListed, HasCause, IsLeftOut};
ghost use Rattle.disk_base.specs.Listed.{AsListed};
ghost use Rattle.disk_base.specs.SameDisk.{IsSameDisk};
ghost use Rattle.disk_base.specs.Story.{Story};
ghost use Rattle.gate_cell.specs.Calls.{ReadsCell, call_answer};
ghost use Rattle.gate_cell.specs.Cell.{cell_of, copy_bytes as bytes_of, copy_of as number_in, copy_place as place_of};
ghost use Rattle.gate_cell.specs.Cell.{names_second as is_odd};

use disk_base::{Disk, DiskAnswer};

/// What a reading of a cell comes to.
#[derive(Clone, Copy, Debug, PartialEq, Eq)]
pub enum CellAnswer {
    Value(u64),
    /// A fault, which the disk has counted.
    Failed,
}

/// Whether the copy that counts is copy 1, which the lowest bit of the gate says.
pub fn names_second(gate: u8) -> bool
    ensures { result ≡ is_odd gate }
{
    gate % 2 == 1
}

/// Where a copy stands in a cell.
pub fn copy_place(second: bool) -> u64
    ensures { result ≡ place_of second }
{
    if second { 8 } else { 0 }
}

// The number in a copy.
fn number_of(copy: &[u8]) -> u64
    requires { length copy.now ≡ 8 }
    ensures { result ≡ from_be_bytes w64 copy.now }
{
    u64::from_be_bytes([
        copy[0], copy[1], copy[2], copy[3], copy[4], copy[5], copy[6], copy[7],
    ])
}

// The number in a copy of a cell.
#[tactic(auto, unfolding(crate::specs::Cell::copy_of))]
fn copy_of(cell: &[u8], second: bool) -> u64
    requires { length cell.now ≡ 17 }
    ensures { result ≡ number_in cell.now second }
{
    let start = copy_place(second) as usize;
    number_of(&cell[start..start + 8])
}

/// The number in the copy of a cell that its gate names.
pub fn value_of(cell: &[u8]) -> u64
    requires { length cell.now ≡ 17 }
    ensures { result ≡ (cell_of cell.now).value }
{
    copy_of(cell, names_second(cell[16]))
}

/// Where this copy stands in the cell.
pub fn counting_place(cell: &[u8]) -> u64
    requires { length cell.now ≡ 17 }
    ensures place { result ≡ place_of (cell_of cell.now).second }
    ensures bound { result ≤ 8 }
{
    copy_place(names_second(cell[16]))
}

/// The bytes of a copy of a number.
#[tactic(auto, unfolding(crate::specs::Cell::copy_bytes))]
pub fn copy_bytes(value: u64) -> [u8; 8]
    ensures bytes { result ≡ bytes_of value }
    ensures len { length result ≡ 8 }
{
    value.to_be_bytes()
}

/// Reads the value of the cell that begins at a place: one call.
pub fn read_cell<D: Disk>(disk: &mut D, at: u64) -> CellAnswer
    requires { at + 17 ≤ D.size_is disk.old }
    ensures value { (s : Story) → D.told disk.old ≡ Some s → ReadsCell s at result }
    ensures told { D.told disk.new ≡ D.told disk.old }
    ensures size { D.size_is disk.new ≡ D.size_is disk.old }
    ensures calls { Logs (read_call at 17) (IsLeftOut (D.health disk.old) (D.health disk.new) 0 0)
        (D.calls disk.old) (D.calls disk.new) (call_answer result) }
    ensures listed { GoesAsListed (D.health disk.old) →
        AsListed (D.told disk.old) (D.calls disk.old) (D.told disk.new) (D.calls disk.new) }
    ensures cause { HasCause (D.health disk.old) (D.health disk.new) 1 0 ⊥ (call_answer result) }
    ensures same_disk { IsSameDisk D.Disk disk.old disk.new }
{
    let mut cell = [0; 17];
    match disk.read(at, &mut cell) {
        DiskAnswer::Failed => CellAnswer::Failed,
        DiskAnswer::Done => CellAnswer::Value(value_of(&cell)),
    }
}
