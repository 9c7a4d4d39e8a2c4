//! The list that is kept after one more accepted primary.

ghost use Rattle.std.specs.Prelude.{◌≡◌, ◌≤◌, ℕ, List, not, filter, length, nat_eq, IfOk, Some};
ghost use Rattle.std.specs.List.{list_all, list_any};
ghost use Rattle.setup_store.specs.Entries.{AreBytesOf, Entry, bytes_of, entry_of};
ghost use Rattle.setup_store.specs.Kept.{HasSame, are_among, covers, ids_of, kept, kept_by, named_by, takes_out};

use crate::change::Change;
use crate::entry::EntryView;
use crate::reading::first_entry;
use gl_base::{NoMemory, Row};
use indexmap::IndexSet;
use std::alloc::Global;

/// The list that is kept after one more accepted primary, as bytes, of the bytes of the list so far.
///
/// S2F33 without entries takes each S2F33 and S2F35 out of it, S2F43 each S2F43; S2F15, S2F37 and S5F3 take out those
/// of the same function that name identifiers and none but those that they name themselves, and S2F37 without a CEID
/// and S5F3 for all alarms take out all. The primary goes last, but S2F15, S2F33 and S2F35 without entries are left
/// out. An entry whose body hasn't its shape names no identifier.
pub fn next_kept(alloc: Global, list: &[u8], primary: &EntryView<'_>) -> Result<Row<u8>, NoMemory>
    // No longer list is kept, and no message has a longer body.
    requires list { length list.now ≤ 262144 }
    requires primary { length primary.now.body.now ≤ 7995148 }
    ensures { (entries : List Entry) → AreBytesOf entries list.now →
        IfOk result (λ next. next ≡ bytes_of (kept entries (entry_of primary.now))) }
{
    match Change::by(alloc, primary)? {
        Some(change) => behind_change(alloc, list, primary, &change),
        None => Row::of(alloc, list),
    }
}

// The same behind a primary that changes this.
fn behind_change(
    alloc: Global,
    list: &[u8],
    primary: &EntryView<'_>,
    change: &Change,
) -> Result<Row<u8>, NoMemory>
    requires list { length list.now ≤ 262144 }
    requires primary { length primary.now.body.now ≤ 7995148 }
    ensures { (entries : List Entry) → AreBytesOf entries list.now →
        IfOk result (λ next. next ≡ bytes_of (kept_by (Some change.now) entries (entry_of primary.now))) }
{
    let ids = set_of(alloc, change.ids(alloc)?.as_slice())?;
    let mut next = left_by(alloc, list, change, &ids)?;
    if !change.tells() {
        return Ok(next);
    }
    primary.put(&mut next)?;
    Ok(next)
}

// The entries that a change doesn't take out, which names these identifiers.
fn left_by(
    alloc: Global,
    list: &[u8],
    change: &Change,
    ids: &IndexSet<u32>,
) -> Result<Row<u8>, NoMemory>
    requires short { length list.now ≤ 262144 }
    requires ids { HasSame ids.now.keys (ids_of change.now) }
    ensures { (entries : List Entry) → AreBytesOf entries list.now →
        IfOk result (λ left. left ≡ bytes_of (filter (λ old. not (takes_out change.now old)) entries)) }
{
    let mut left = Row::new(alloc);
    let mut rest = list;
    'entries: while let Some((old, behind)) = first_entry(rest) {
        if !takes_out(alloc, change, ids, &old)? {
            old.put(&mut left)?;
        }
        rest = behind;
    }
    Ok(left)
}

// Whether an older entry tells no more behind a change, which names these identifiers.
fn takes_out(
    alloc: Global,
    change: &Change,
    ids: &IndexSet<u32>,
    old: &EntryView<'_>,
) -> Result<bool, NoMemory>
    requires short { length old.now.body.now ≤ 7995148 }
    requires ids { HasSame ids.now.keys (ids_of change.now) }
    ensures { IfOk result (λ out. out ≡ takes_out change.now (entry_of old.now)) }
{
    match change {
        Change::Constants(_) if old.is_of(2, 15) => are_among(alloc, ids, old),
        Change::Definitions(list) => {
            Ok(list.as_slice().is_empty() && (old.is_of(2, 33) || old.is_of(2, 35)))
        }
        Change::Events { .. } if old.is_of(2, 37) => covers(alloc, ids, old),
        Change::Rule(_) => Ok(old.is_of(2, 43)),
        Change::Alarms { .. } if old.is_of(5, 3) => covers(alloc, ids, old),
        _ => Ok(false),
    }
}

// Whether these identifiers are all that the entry names; where they are none, they stand for all.
fn covers(alloc: Global, ids: &IndexSet<u32>, old: &EntryView<'_>) -> Result<bool, NoMemory>
    requires { length old.now.body.now ≤ 7995148 }
    ensures { (all : List ℕ) → HasSame ids.now.keys all →
        IfOk result (λ covered. covered ≡ covers all (entry_of old.now)) }
{
    if ids.is_empty() {
        return Ok(true);
    }
    are_among(alloc, ids, old)
}

// Whether the entry names identifiers, and none but these.
fn are_among(alloc: Global, ids: &IndexSet<u32>, old: &EntryView<'_>) -> Result<bool, NoMemory>
    requires { length old.now.body.now ≤ 7995148 }
    ensures { (all : List ℕ) → HasSame ids.now.keys all →
        IfOk result (λ are. are ≡ are_among all (named_by (entry_of old.now))) }
{
    Ok(are_some_in(ids, named_by(alloc, old)?.as_slice()))
}

// Whether there are some, and each is in the set.
fn are_some_in(ids: &IndexSet<u32>, others: &[u32]) -> bool
    ensures { result ≡ are_among ids.now.keys others.now }
{
    !others.is_empty() && are_all_in(ids, others)
}

fn are_all_in(ids: &IndexSet<u32>, others: &[u32]) -> bool
    ensures { result ≡ list_all (λ id. list_any (nat_eq id) ids.now.keys) others.now }
{
    others.iter().all(|id| ids.contains(id))
}

// The identifiers that an entry names.
fn named_by(alloc: Global, entry: &EntryView<'_>) -> Result<Row<u32>, NoMemory>
    requires { length entry.now.body.now ≤ 7995148 }
    ensures { IfOk result (λ ids. ids ≡ named_by (entry_of entry.now)) }
{
    match Change::by(alloc, entry)? {
        Some(change) => change.ids(alloc),
        None => Ok(Row::new(alloc)),
    }
}

// These identifiers, to look for.
fn set_of(alloc: Global, ids: &[u32]) -> Result<IndexSet<u32>, NoMemory>
    ensures { IfOk result (λ set. HasSame set.keys ids.now) }
{
    let mut set = IndexSet::new(alloc);
    for id in ids {
        set.insert(*id)?;
    }
    Ok(set)
}
