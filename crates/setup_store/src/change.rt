//! What a primary changes of the setup.

ghost use Rattle.std.specs.Prelude.{◌≡◌, ◌≤◌, length, map, IfOk};
ghost use Rattle.setup_store.specs.Entries.{entry_of};
ghost use Rattle.setup_store.specs.Kept.{change_by, change_in, change_of, ids_of, tells};

use crate::entry::EntryView;
use gem_shapes::{Definition, Linking, Request, RuleEntry, TablesRequest, read_request};
use gl_base::{NoMemory, Row};
use secs_items::BodyCheck;
use std::alloc::Global;

/// What a primary changes of the setup.
#[derive(Debug, Drop)]
pub enum Change {
    /// S2F15.
    Constants(Row<(u32, u32)>),
    /// S2F33.
    Definitions(Row<Definition>),
    /// S2F35.
    Linkings(Row<Linking>),
    /// S2F37: these events, or all where there is none.
    Events { on: bool, ceids: Row<u32> },
    /// S2F43.
    Rule(Row<RuleEntry>),
    /// S5F3: an alarm, or all where `alid` is `None`.
    Alarms { on: bool, alid: Option<u32> },
}

impl Change {
    /// What an entry changes; nothing where its body isn't of its shape.
    pub(crate) fn by(alloc: Global, entry: &EntryView<'_>) -> Result<Option<Change>, NoMemory>
        requires { length entry.now.body.now ≤ 7995148 }
        ensures { IfOk result (λ change. change ≡ change_by (entry_of entry.now)) }
    {
        let mut check = BodyCheck::new();
        check.feed(entry.body);
        match read_request(alloc, entry.stream, entry.function, entry.body, &check)? {
            Some(request) => Ok(Change::in_request(request)),
            None => Ok(None),
        }
    }

    fn in_request(request: Request<'_>) -> Option<Change>
        ensures { result ≡ change_in request.entry }
    {
        match request {
            Request::OfTables(asked) => Change::of(asked),
            _ => None,
        }
    }

    fn of(asked: TablesRequest<'_>) -> Option<Change>
        ensures { result ≡ change_of asked.entry }
    {
        match asked {
            TablesRequest::SetConstants(list) => Some(Change::Constants(list)),
            TablesRequest::Define { list, .. } => Some(Change::Definitions(list)),
            TablesRequest::Link { list, .. } => Some(Change::Linkings(list)),
            TablesRequest::EnableEvents { on, ceids } => Some(Change::Events { on, ceids }),
            TablesRequest::ReplaceRule(list) => Some(Change::Rule(list)),
            TablesRequest::EnableAlarms { on, alid } => Some(Change::Alarms { on, alid }),
            _ => None,
        }
    }

    /// The identifiers that it names.
    pub(crate) fn ids(&self, alloc: Global) -> Result<Row<u32>, NoMemory>
        ensures { IfOk result (λ ids. ids ≡ ids_of self.now) }
    {
        match self {
            Change::Constants(list) => ecids_of(alloc, list.as_slice()),
            Change::Events { ceids, .. } => Row::of(alloc, ceids.as_slice()),
            Change::Alarms {
                alid: Some(alid),
                ..
            } => Row::of(alloc, &[*alid]),
            _ => Ok(Row::new(alloc)),
        }
    }

    /// Whether it tells something itself, and not only that nothing is told.
    pub(crate) fn tells(&self) -> bool
        ensures { result ≡ tells self.now }
    {
        match self {
            Change::Constants(list) => !list.as_slice().is_empty(),
            Change::Definitions(list) => !list.as_slice().is_empty(),
            Change::Linkings(list) => !list.as_slice().is_empty(),
            Change::Events { .. } | Change::Rule(_) | Change::Alarms { .. } => true,
        }
    }
}

fn ecids_of(alloc: Global, list: &[(u32, u32)]) -> Result<Row<u32>, NoMemory>
    ensures { IfOk result (λ ecids. ecids ≡ map (λ e. e.0) list.now) }
{
    let mut ecids = Row::new(alloc);
    for (ecid, _) in list {
        ecids.push(*ecid)?;
    }
    Ok(ecids)
}
