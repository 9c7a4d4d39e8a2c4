//! The list of kept primaries on the spool's device: taken up at a start, and kept anew.

ghost use Rattle.std.specs.Prelude.{◌≡◌, ◌+◌, ◌≤◌, ◌^◌, [], length, true, false, Some, Err, IfOk};
ghost use Rattle.disk_base.specs.Story.{Story};
ghost use Rattle.spool_slots.specs.Spool.{Rests, known_of};
ghost use Rattle.setup_store.specs.Copies.{copy_begin as begin_of, copy_number as number_in, kept_length as length_in};
ghost use Rattle.setup_store.specs.Copies.{list_place as place_of, names_list as is_good, spare_number as spare_in};
ghost use Rattle.setup_store.specs.Copies.{value_with as value_of};
ghost use Rattle.setup_store.specs.OnDisk.{HasValue, HoldsKept, Keeps, KeepsList, Loads, LoadsFrom, ReadsList};
ghost use Rattle.setup_store.specs.OnDisk.{WritesAndNames, WritesCopy, behind as behind_of, has_setup};
ghost use Rattle.setup_store.specs.declared.store.Loading.TheVariants.{NoArea};

use crate::reading::{has_room, list_break};
use disk_base::{Disk, DiskAnswer};
use gate_cell::CellAnswer;
use gl_base::Row;
use spool_file::{COPY_SIZE, NotSpool, slot_place};
use spool_slots::{PlaceAnswer, Spent, Spool};
use std::alloc::Global;

/// Why no list was taken up.
#[derive(Debug, Drop)]
pub enum Loading {
    /// The file has no area to keep one in.
    NoArea,
    /// The cell's value names no list, or the bytes that it names are none: where they break, as a place of the file.
    NotSetup(NotSpool),
    /// The disk failed, and has counted that.
    Failed,
    NoMemory,
}

/// Why a list wasn't kept.
#[derive(Debug, Drop)]
pub enum Keeping<D: Disk> {
    /// The file has no area to keep it in.
    NoArea(Spool<D>),
    /// It has more than 262,144 bytes.
    NoRoom(Spool<D>),
    /// The disk failed, and has counted that.
    Failed(Spent<D>),
}

// A value of the cell is the number of a copy, times this, and how many bytes the list has there.
const NUMBER: u64 = 0x1_0000_0000;

// How much one in the highest byte of a value counts.
const HIGHEST: u64 = 0x100_0000_0000_0000;

fn copy_number(value: u64) -> u64
    ensures { result ≡ number_in value }
{
    value / NUMBER
}

fn kept_length(value: u64) -> u64
    ensures { result ≡ length_in value }
{
    value % NUMBER
}

// Whether a value names a list in one of the two copies.
fn names_list(value: u64) -> bool
    ensures { result ≡ is_good value }
{
    copy_number(value) < 2 && kept_length(value) <= COPY_SIZE
}

// The copy that a value doesn't name, and the value that names so many bytes there.
fn spare_number(value: u64) -> u64
    ensures spare { result ≡ spare_in value }
    ensures range { result ≤ 1 }
{
    1 - copy_number(value) % 2
}

fn value_with(value: u64, list: &[u8]) -> u64
    requires { length list.now ≤ 262144 }
    ensures { result ≡ value_of value list.now }
{
    NUMBER * spare_number(value) + list.len() as u64
}

// Where a copy begins in the area, and in the file.
fn copy_begin(number: u64) -> u64
    requires { number ≤ 1 }
    ensures { result ≡ begin_of number }
{
    COPY_SIZE * number
}

fn list_place(slots: u32, number: u64) -> u64
    requires { number ≤ 1 }
    ensures place { result ≡ place_of slots number }
    ensures range { result ≤ 2 ^ 45 }
{
    slot_place(slots) + copy_begin(number)
}

/// Takes up the bytes of the list that is kept. It makes one read of the cell and one of the list, unless that is
/// empty, for which it takes the memory first. Bytes that are no list of entries are `NotSetup`, and so is a value that
/// names none, of which the cell's gate is read to tell the place. It writes nothing.
pub fn load<D: Disk>(alloc: Global, spool: &mut Spool<D>) -> Result<Row<u8>, Loading>
    ensures loads { Loads D.Disk spool.old spool.new result }
    ensures holds { IfOk result (λ bytes. HoldsKept D.Disk spool.new) }
    ensures none { result ≡ Err NoArea → HoldsKept D.Disk spool.new }
{
    rests(spool);
    if !spool.area() {
        return Err(Loading::NoArea);
    }
    match spool.area_cell() {
        CellAnswer::Failed => Err(Loading::Failed),
        CellAnswer::Value(value) => load_named(alloc, spool, value),
    }
}

// Tells that the bytes of its device are settled, and a spool's.
fn rests<D: Disk>(spool: &Spool<D>)
    ensures { (s : Story) → D.told spool.now.disk ≡ Some s → Rests s (known_of spool.now) }
{
    let _ = spool.len();
}

// The same, behind the look at the cell, which has this value.
fn load_named<D: Disk>(alloc: Global, spool: &mut Spool<D>, value: u64) -> Result<Row<u8>, Loading>
    requires area { has_setup D.Disk spool.old ≡ true }
    requires value { HasValue D.Disk spool.old value }
    requires rests { (s : Story) → D.told spool.old.disk ≡ Some s → Rests s (known_of spool.old) }
    ensures { LoadsFrom D.Disk spool.old spool.new [] value result }
{
    if !names_list(value) {
        return Err(value_break(spool, value));
    }
    match read_list(alloc, spool, value) {
        Err(why) => Err(why),
        Ok(bytes) => match list_break(bytes.as_slice()) {
            None => Ok(bytes),
            Some(found) => Err(Loading::NotSetup(behind(
                list_place(spool.slots(), copy_number(value)),
                found,
            ))),
        },
    }
}

// A place among the bytes of a list, as one of the file.
fn behind(begin: u64, found: NotSpool) -> NotSpool
    requires begin { begin ≤ 2 ^ 45 }
    requires within { found.at ≤ 2 ^ 32 }
    ensures { result ≡ behind_of begin found }
{
    NotSpool {
        at: begin + found.at,
        got: found.got,
    }
}

// Where a value of the cell breaks that names no list.
fn value_break<D: Disk>(spool: &mut Spool<D>, value: u64) -> Loading
    requires area { has_setup D.Disk spool.old ≡ true }
    requires bad { is_good value ≡ false }
    ensures { LoadsFrom D.Disk spool.old spool.new [] value (Err result) }
{
    match spool.area_place() {
        PlaceAnswer::Failed => Loading::Failed,
        PlaceAnswer::Place(at) => Loading::NotSetup(NotSpool {
            at,
            got: Some((value / HIGHEST) as u8),
        }),
    }
}

// The bytes that a value of the cell names.
fn read_list<D: Disk>(alloc: Global, spool: &mut Spool<D>, value: u64) -> Result<Row<u8>, Loading>
    requires area { has_setup D.Disk spool.old ≡ true }
    requires value { HasValue D.Disk spool.old value }
    requires rests { (s : Story) → D.told spool.old.disk ≡ Some s → Rests s (known_of spool.old) }
    requires good { is_good value ≡ true }
    ensures { ReadsList D.Disk spool.old spool.new value result }
{
    let len = kept_length(value) as usize;
    let Ok(mut bytes) = vec![in alloc; 0; len] else {
        return Err(Loading::NoMemory);
    };
    if len == 0 {
        return Ok(Row::from_vec(bytes));
    }
    match spool.read_area(copy_begin(copy_number(value)), bytes.as_mut_slice()) {
        DiskAnswer::Failed => Err(Loading::Failed),
        DiskAnswer::Done => Ok(Row::from_vec(bytes)),
    }
}

/// Keeps the bytes of a list in place of the one that was kept. It reads the cell, writes the list in the copy that the
/// cell doesn't name and syncs, unless the list is empty, and then lets the cell name it: eight calls of the disk, six
/// for an empty list. A crash before this is `Ok` leaves the old list or the new one, the old one where a call before
/// the last two failed; at these two the cell's gate decides. `NoArea` and `NoRoom` are answered before the first call.
pub fn keep<D: Disk>(spool: Spool<D>, list: &[u8]) -> Result<Spool<D>, Keeping<D>>
    // What is kept now is no longer than its copy.
    requires { HoldsKept D.Disk spool }
    ensures keeps { Keeps D.Disk spool list.now result }
    ensures holds { IfOk result (λ w. HoldsKept D.Disk w) }
{
    rests(&spool);
    if !spool.area() {
        return Err(Keeping::NoArea(spool));
    }
    if !has_room(list) {
        return Err(Keeping::NoRoom(spool));
    }
    match keep_list(spool, list) {
        Ok(spool) => Ok(spool),
        Err(spent) => Err(Keeping::Failed(spent)),
    }
}

// The same of a list that has room in an area.
fn keep_list<D: Disk>(spool: Spool<D>, list: &[u8]) -> Result<Spool<D>, Spent<D>>
    requires area { has_setup D.Disk spool ≡ true }
    requires room { length list.now ≤ 262144 }
    ensures { KeepsList D.Disk spool list.now result }
{
    let mut spool = spool;
    match spool.area_cell() {
        CellAnswer::Failed => Err(spool.retire()),
        CellAnswer::Value(value) => write_and_name(spool, value, list),
    }
}

// Behind the look at the cell, which has this value.
fn write_and_name<D: Disk>(spool: Spool<D>, value: u64, list: &[u8]) -> Result<Spool<D>, Spent<D>>
    requires area { has_setup D.Disk spool ≡ true }
    requires room { length list.now ≤ 262144 }
    ensures { WritesAndNames D.Disk spool value list.now result }
{
    match write_copy(spool, spare_number(value), list) {
        Ok(spool) => spool.set_area_cell(value_with(value, list)),
        Err(spent) => Err(spent),
    }
}

// Writes a list in a copy.
fn write_copy<D: Disk>(spool: Spool<D>, number: u64, list: &[u8]) -> Result<Spool<D>, Spent<D>>
    requires area { has_setup D.Disk spool ≡ true }
    requires number { number ≤ 1 }
    requires room { length list.now ≤ 262144 }
    ensures copy { WritesCopy D.Disk spool (begin_of number) list.now result }
    ensures area { IfOk result (λ w. has_setup D.Disk w ≡ true) }
{
    if list.is_empty() {
        return Ok(spool);
    }
    spool.write_area(copy_begin(number), list)
}
