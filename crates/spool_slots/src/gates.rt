//! The gate of a number's slot, and those of a message: looked at, shut, and written.

ghost use Rattle.std.specs.Prelude.{◌≡◌, ◌+◌, ◌%◌, ◌<◌, ◌≤◌, ◌^◌, [], ◌∷◌, length, set, slice_index};
ghost use Rattle.spool_file.specs.Area.{any_below};
ghost use Rattle.spool_file.specs.Slot.{slot_place as place_of};
ghost use Rattle.spool_slots.specs.Calls.{gate_shut, number_place as number_place_of, synced};
ghost use Rattle.spool_slots.specs.Carried.{CarriesOut};
ghost use Rattle.spool_slots.specs.Changes.{HasSettled};
ghost use Rattle.spool_slots.specs.Losses.{opens};
ghost use Rattle.spool_slots.specs.Put.{HasSeenGate, HasSeenGates, shut_steps};

use crate::device::{read_at, sync_all, write_at};
use disk_base::{Disk, DiskAnswer, settle};
use spool_file::{CLOSED, OPEN, slot_of, slot_place};

/// The most slots of a message.
pub const SLOTS_MOST: usize = 257;

/// What a look at a gate came to.
#[derive(Clone, Copy, Debug)]
pub enum GateAnswer {
    /// Its byte.
    Is(u8),
    Failed,
}

/// Where the slot of a number begins.
pub fn number_place(slots: u32, number: u64) -> u64
    requires { 0 < slots }
    ensures place { result ≡ number_place_of slots number }
    ensures within { result + 4096 ≤ place_of slots }
{
    slot_place(slot_of(number, slots))
}

/// Writes the gate of a number's slot, and syncs.
pub fn settle_gate<D: Disk>(disk: &mut D, slots: u32, number: u64, gate: u8) -> DiskAnswer
    requires some { 0 < slots }
    requires within { place_of (number % slots) + 1 ≤ D.size_is disk.old }
    ensures { HasSettled D.Disk disk.old disk.new (place_of (number % slots)) (gate ∷ []) result }
{
    settle(disk, slot_place(slot_of(number, slots)), &[gate])
}

// ---- the looks

// Reads the gate of a number's slot.
fn look_at_gate<D: Disk>(disk: &mut D, slots: u32, number: u64) -> GateAnswer
    requires some { 0 < slots }
    requires within { place_of slots ≤ D.size_is disk.old }
    ensures { HasSeenGate D.Disk disk.old disk.new slots number result }
{
    let mut gate = [0];
    match read_at(disk, number_place(slots, number), &mut gate) {
        DiskAnswer::Failed => GateAnswer::Failed,
        DiskAnswer::Done => GateAnswer::Is(gate[0]),
    }
}

// Notes the gate that was read at a place of the row.
fn note_gate(gates: &mut [u8], place: u32, gate: u8)
    requires { place < length gates.old }
    ensures { gates.new ≡ set gates.old place gate }
{
    gates[place as usize] = gate;
}

/// Reads the gates of so many slots in a row, from that of a number on.
pub fn look_at_gates<D: Disk>(
    disk: &mut D,
    slots: u32,
    number: u64,
    size: u32,
    gates: &mut [u8],
) -> DiskAnswer
    requires some { 0 < slots }
    requires within { place_of slots ≤ D.size_is disk.old }
    requires long { size ≤ length gates.old }
    requires number { number + size ≤ 2 ^ 63 }
    ensures { HasSeenGates D.Disk disk.old disk.new slots number size gates.new result }
{
    for place in 0..size {
        match look_at_gate(disk, slots, number + place as u64) {
            GateAnswer::Failed => return DiskAnswer::Failed,
            GateAnswer::Is(gate) => note_gate(gates, place, gate),
        }
    }
    DiskAnswer::Done
}

// ---- the 00s

// The gate that was read at a place of the row.
fn gate_at(gates: &[u8], place: u32) -> u8
    requires { place < length gates.now }
    ensures { result ≡ slice_index gates.now place }
{
    gates[place as usize]
}

// Whether a gate is open.
fn is_open(gate: u8) -> bool
    ensures { result ≡ opens gate }
{
    gate == OPEN
}

// Whether one of the first gates is open.
fn any_open(gates: &[u8], size: u32) -> bool
    requires { size ≤ length gates.now }
    ensures { result ≡ any_below (λ p. opens (slice_index gates.now p)) size }
{
    for place in 0..size {
        if is_open(gate_at(gates, place)) {
            return true;
        }
    }
    false
}

// Closes the gate of a number's slot where it is open.
fn shut_gate<D: Disk>(disk: &mut D, slots: u32, number: u64, gate: u8) -> DiskAnswer
    requires some { 0 < slots }
    requires within { place_of slots ≤ D.size_is disk.old }
    ensures { CarriesOut D.Disk disk.old disk.new (gate_shut slots number (opens gate)) result }
{
    if is_open(gate) {
        return write_at(disk, number_place(slots, number), &[CLOSED]);
    }
    DiskAnswer::Done
}

// Closes the open ones of so many gates in a row.
fn shut_each<D: Disk>(disk: &mut D, slots: u32, number: u64, size: u32, gates: &[u8]) -> DiskAnswer
    requires some { 0 < slots }
    requires within { place_of slots ≤ D.size_is disk.old }
    requires long { size ≤ length gates.now }
    requires number { number + size ≤ 2 ^ 63 }
    ensures { CarriesOut D.Disk disk.old disk.new (shut_steps slots number size gates.now) result }
{
    for place in 0..size {
        match shut_gate(disk, slots, number + place as u64, gate_at(gates, place)) {
            DiskAnswer::Failed => return DiskAnswer::Failed,
            DiskAnswer::Done => {}
        }
    }
    DiskAnswer::Done
}

/// Closes those that are open, and syncs where there are any.
pub fn shut_gates<D: Disk>(
    disk: &mut D,
    slots: u32,
    number: u64,
    size: u32,
    gates: &[u8],
) -> DiskAnswer
    requires some { 0 < slots }
    requires within { place_of slots ≤ D.size_is disk.old }
    requires long { size ≤ length gates.now }
    requires number { number + size ≤ 2 ^ 63 }
    ensures { CarriesOut D.Disk disk.old disk.new (synced (shut_steps slots number size gates.now)) result }
{
    match shut_each(disk, slots, number, size, gates) {
        DiskAnswer::Failed => return DiskAnswer::Failed,
        DiskAnswer::Done => {}
    }
    if any_open(gates, size) {
        return sync_all(disk);
    }
    DiskAnswer::Done
}
