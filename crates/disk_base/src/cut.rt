//! What a crash leaves: a chosen byte in each range written since the last good sync, and in all others the bytes now.

ghost use Rattle.std.specs.Prelude.{◌≡◌, ℕ, ◌+◌, ◌^◌, ◌<◌, ◌≤◌, true, false, IfOk};
ghost use Rattle.std.specs.Prelude.{List, [], ◌++◌, drop, fold, length, replicate};
ghost use Rattle.disk_base.specs.Cut.{byte_left, bytes_left, choice_left, marks_at, marks_of};
ghost use Rattle.disk_base.specs.Log.{AreHeld, AreSized, IsHeld, hull_under, loose_behind, loose_under};
ghost use Rattle.disk_base.specs.Story.{with_part};

use crate::disk::CallKind;
use crate::log::LoggedCall;
use crate::no_memory::NoMemory;
use std::alloc::Global;
use std::cmp::{max, min};
use std::ops::Range;

/// What a crash leaves in the ranges that were written since the last good sync.
#[derive(Clone, Copy, Debug, PartialEq, Eq)]
pub enum CutChoice {
    /// The settled bytes.
    Old,
    /// The bytes now.
    New,
    /// This byte everywhere.
    Fill(u8),
    /// The bytes now in so many of these places, the lowest ones, and the settled bytes in the rest.
    First(u64),
}

// What a place is left with, and the choice for the places behind it.
fn choose(choice: CutChoice, mark: bool, settled: u8, now: u8) -> (u8, CutChoice)
    ensures byte { result.0 ≡ byte_left mark choice settled now }
    ensures choice { result.1 ≡ choice_left mark choice }
{
    if !mark {
        return (now, choice);
    }
    match choice {
        CutChoice::Old => (settled, choice),
        CutChoice::New => (now, choice),
        CutChoice::Fill(byte) => (byte, choice),
        CutChoice::First(0) => (settled, choice),
        CutChoice::First(n) => (now, CutChoice::First(n - 1)),
    }
}

// How many places are looked at together, so that those in which nothing was written are copied at once.
const PAGE: usize = 256;

// Appends what the places of a range are left with, and gives the choice for those behind it.
fn leave(
    image: &mut Vec<u8>,
    choice: CutChoice,
    places: Range<usize>,
    marks: &[bool],
    settled: &[u8],
    now: &[u8],
) -> Result<CutChoice, NoMemory>
    requires marks { length marks.now ≡ length now.now }
    requires settled { length settled.now ≡ length now.now }
    requires places { (places.start ≤ places.end) × (places.end ≤ length now.now) }
    ensures { IfOk result (λ next.
        image.new.items
        ++ bytes_left next (drop places.end marks.now) (drop places.end settled.now) (drop places.end now.now)
        ≡ image.old.items
        ++ bytes_left choice (drop places.start marks.now) (drop places.start settled.now)
        (drop places.start now.now)) }
{
    let mut choice = choice;
    for place in places.start..places.end {
        let (byte, next) = choose(choice, marks[place], settled[place], now[place]);
        image.push(byte)?;
        choice = next;
    }
    Ok(choice)
}

// The same of all places, page by page.
fn leave_pages(
    image: &mut Vec<u8>,
    choice: CutChoice,
    marks: &[bool],
    settled: &[u8],
    now: &[u8],
) -> Result<(), NoMemory>
    requires marks { length marks.now ≡ length now.now }
    requires settled { length settled.now ≡ length now.now }
    ensures { IfOk result (λ done. image.new.items
        ≡ image.old.items ++ bytes_left choice marks.now settled.now now.now) }
{
    let mut choice = choice;
    let mut place = 0;
    while place < now.len() {
        let end = place + min(PAGE, now.len() - place);
        if marks[place..end].contains(&true) {
            choice = leave(image, choice, place..end, marks, settled, now)?;
        } else {
            image.extend_from_slice(&now[place..end])?;
        }
        place = end;
    }
    Ok(())
}

/// The bytes after a crash, where only the places from one on have marks, and no other is marked.
pub fn left_bytes(
    alloc: Global,
    choice: CutChoice,
    from: usize,
    marks: &[bool],
    settled: &[u8],
    now: &[u8],
) -> Result<Vec<u8>, NoMemory>
    requires marks { from + length marks.now ≤ length now.now }
    requires settled { length settled.now ≡ length now.now }
    ensures { IfOk result (λ image. image.items
        ≡ bytes_left choice (marks_at (length now.now) from marks.now) settled.now now.now) }
{
    let to = from + marks.len();
    let mut image = Vec::with_capacity(alloc, now.len())?;
    image.extend_from_slice(&now[..from])?;
    leave_pages(
        &mut image,
        choice,
        marks,
        &settled[from..to],
        &now[from..to],
    )?;
    image.extend_from_slice(&now[to..])?;
    Ok(image)
}

// Marks a range.
fn mark_part(marks: &mut [bool], at: usize, long: usize)
    requires { at + long ≤ length marks.old }
    ensures marks { marks.new ≡ with_part marks.old at (replicate long true) }
    ensures len { length marks.new ≡ length marks.old }
{
    marks[at..at + long].fill(true);
}

// Marks the range of a call that is a write, where the first mark is that of the place `from`.
fn mark_call(marks: &mut [bool], from: usize, kind: CallKind, at: usize, count: usize)
    requires { IsHeld from (from + length marks.old) kind at count }
    ensures marks { (size : ℕ) (loose : List (ℕ × ℕ)) → from + length marks.old ≤ size →
        marks_at size from marks.old ≡ marks_of size loose →
        marks_at size from marks.new ≡ marks_of size (loose_under kind at count loose) }
    ensures len { length marks.new ≡ length marks.old }
{
    match kind {
        CallKind::Write => mark_part(marks, at - from, count),
        CallKind::Attach | CallKind::Read | CallKind::Sync => {}
    }
}

// Marks the ranges of the writes among these calls, where none is marked.
fn mark_calls(marks: &mut [bool], from: usize, entries: &[LoggedCall])
    requires fresh { marks.old ≡ replicate (length marks.old) false }
    requires held { AreHeld from (from + length marks.old) entries.now }
    ensures marks { (size : ℕ) → from + length marks.old ≤ size →
        marks_at size from marks.new ≡ marks_of size (fold loose_behind [] entries.now) }
    ensures len { length marks.new ≡ length marks.old }
{
    let mut entries = entries;
    while let [entry, more @ ..] = entries {
        mark_call(marks, from, entry.kind, entry.at as usize, entry.count);
        entries = more;
    }
}

// The lowest place and the end of a range and of what a call writes.
fn widen(hull: (usize, usize), kind: CallKind, at: usize, count: usize) -> (usize, usize)
    requires { at + count < 2 ^ 64 }
    ensures { result ≡ hull_under kind at count hull }
{
    match kind {
        CallKind::Write => (min(hull.0, at), max(hull.1, at + count)),
        CallKind::Attach | CallKind::Read | CallKind::Sync => hull,
    }
}

// The range from the lowest to the highest place that these calls write to, an empty one where they write nothing.
fn hull_of(size: usize, entries: &[LoggedCall]) -> Range<usize>
    requires { AreSized size entries.now }
    ensures order { result.start ≤ result.end }
    ensures within { result.end ≤ size }
    ensures held { AreHeld result.start result.end entries.now }
{
    let mut hull = (size, 0);
    let mut entries = entries;
    while let [entry, more @ ..] = entries {
        hull = widen(hull, entry.kind, entry.at as usize, entry.count);
        entries = more;
    }
    hull.0..max(hull.0, hull.1)
}

/// The lowest place that these calls write to, and the marks of the places from there up to the highest.
pub fn mark_writes(
    alloc: Global,
    size: usize,
    entries: &[LoggedCall],
) -> Result<(usize, Vec<bool>), NoMemory>
    requires { AreSized size entries.now }
    ensures marks { IfOk result (λ marked.
        marks_at size marked.0 marked.1.items ≡ marks_of size (fold loose_behind [] entries.now)) }
    ensures len { IfOk result (λ marked. marked.0 + length marked.1.items ≤ size) }
{
    let hull = hull_of(size, entries);
    let mut marks = vec![in alloc; false; hull.end - hull.start]?;
    mark_calls(marks.as_mut_slice(), hull.start, entries);
    Ok((hull.start, marks))
}
