//! The reports that stand.

ghost use Rattle.std.specs.Prelude.{◌≡◌, ◌<◌, ◌≤◌, ◌+◌, ℕ, [], not, nat_eq, length, is_some, OnErr, OnOk, if◌then◌else◌};
ghost use Rattle.std.specs.List.{IsDistinct, find};
ghost use Rattle.std.specs.Map.{keys_of};
ghost use Rattle.std.specs.Option.{option_copied, unwrap_or};
ghost use Rattle.indexmap.specs.IndexMap.{index_map_len, spare};
ghost use Rattle.gem_reports.specs.Tables.{report_of, vids_behind, vids_in};

use gl_base::{NoMemory, Row};
use indexmap::IndexMap;
use std::alloc::Global;
use std::marker::Model;

/// The reports that stand: the VIDs of each, by its RPTID.
#[derive(Drop)]
pub(crate) struct Standing {
    reports: IndexMap<u32, Row<u32>>,
}

impl Model for Standing {
    ghost use Rattle.std.specs.Coded.{coded×, coded_list, coded_ℕ};
    ghost use Rattle.gem_reports.specs.Tables.{ReportTable};

    ghost Value = { ReportTable };

    ghost coded = { coded_list (coded× coded_ℕ (coded_list coded_ℕ)) };

    ghost view = { λ inside. inside.reports.entries };
}

impl Standing {
    pub(crate) fn new(alloc: Global) -> Standing
        ensures { result ≡ [] }
    {
        Standing {
            reports: IndexMap::new(alloc),
        }
    }

    pub(crate) fn get(&self, rptid: u32) -> Option<&Row<u32>>
        ensures { option_copied result ≡ vids_in self.now rptid }
    {
        self.reports.get(&rptid)
    }

    /// The VIDs of a report; none where it doesn't stand.
    pub(crate) fn vids(&self, rptid: u32) -> &[u32]
        ensures { result.now ≡ unwrap_or (vids_in self.now rptid) [] }
    {
        match self.reports.get(&rptid) {
            Some(vids) => vids.as_slice(),
            None => &[],
        }
    }

    pub(crate) fn len(&self) -> usize
        ensures { result ≡ length self.now }
    {
        self.reports.len()
    }

    /// The first of these that doesn't stand.
    pub(crate) fn first_unknown<'a>(&self, rptids: &'a [u32]) -> Option<&'a u32>
        ensures { option_copied result ≡ find (λ rptid. not (is_some (vids_in self.now rptid))) rptids.now }
    {
        rptids
            .iter()
            .find(|rptid| !self.reports.contains_key(*rptid))
    }

    /// Gives each of these reports its VIDs; one without VIDs is deleted. Where memory runs out nothing changes.
    pub(crate) fn change(&mut self, changes: IndexMap<u32, Row<u32>>) -> Result<(), NoMemory>
        ensures each { OnOk result ((rptid : ℕ) →
            vids_in self.new rptid ≡ vids_behind changes.entries self.old rptid) }
        ensures distinct { OnOk result (IsDistinct nat_eq (keys_of self.new)) }
        ensures refused { OnErr result (self.new ≡ self.old) }
    {
        self.reports.reserve(changes.len())?;
        change_each(&mut self.reports, changes);
        Ok(())
    }

    pub(crate) fn clear(&mut self)
        ensures { self.new ≡ [] }
    {
        self.reports.clear();
    }
}

// Makes the changes, for which there is room.
fn change_each(reports: &mut IndexMap<u32, Row<u32>>, mut changes: IndexMap<u32, Row<u32>>)
    requires room { index_map_len changes ≤ spare reports.old }
    requires distinct { IsDistinct nat_eq (keys_of reports.old.entries) }
    ensures each { (rptid : ℕ) →
        vids_in reports.new.entries rptid ≡ vids_behind changes.entries reports.old.entries rptid }
    ensures distinct { IsDistinct nat_eq (keys_of reports.new.entries) }
{
    'changes: while let Some((rptid, vids)) = changes.pop() {
        change_one(reports, rptid, vids);
    }
}

// Makes one change, for which there is room.
fn change_one(reports: &mut IndexMap<u32, Row<u32>>, rptid: u32, vids: Row<u32>)
    requires { 0 < spare reports.old }
    ensures each { (other : ℕ) → vids_in reports.new.entries other ≡
        (if nat_eq rptid other then report_of vids else vids_in reports.old.entries other) }
    ensures distinct { IsDistinct nat_eq (keys_of reports.new.entries) }
    ensures room { spare reports.old ≤ spare reports.new + 1 }
{
    if vids.is_empty() {
        reports.swap_remove(&rptid);
    } else {
        let _put = reports.insert(rptid, vids);
    }
}
