//! A request that defines reports, worked through beside what stands.

ghost use Rattle.std.specs.Prelude.{◌≡◌, ◌∷◌, ◌-◌, ℕ, List, nat_eq, not, is_some, length, IfOk, OnOk, Option, if◌then◌else◌};
ghost use Rattle.std.specs.List.{find};
ghost use Rattle.std.specs.Option.{option_copied};
ghost use Rattle.secs_items.specs.declared.item.Item.{Item};
ghost use Rattle.gem_vars.specs.Tables.{value_in};
ghost use Rattle.gem_reports.specs.declared.answers.Drack.TheVariants as drack;
ghost use Rattle.gem_reports.specs.Answers.{past_with_definitions, define_entry, drack_by, drack_of};
ghost use Rattle.gem_reports.specs.Drafts.{IsDraft};
ghost use Rattle.gem_reports.specs.History.{ReportEntry};
ghost use Rattle.gem_reports.specs.Tables.{HasReports, vids_behind};

use crate::answers::Drack;
use crate::standing::Standing;
use gem_shapes::Definition;
use gem_vars::Vars;
use gl_base::{NoMemory, Row};
use indexmap::{IndexMap, IndexSet};
use std::alloc::Global;

// The most reports.
const MOST_REPORTS: usize = 1_024;

/// What the entries so far change of the reports that stand. It has the entries of its own request alone, so that it
/// costs no more where many reports stand.
#[derive(Drop)]
pub(crate) struct Draft {
    /// The VIDs of the newest entry of each RPTID.
    pub(crate) changes: IndexMap<u32, Row<u32>>,
    /// How many reports stand then.
    pub(crate) count: usize,
    /// The reports that were deleted on the way.
    pub(crate) deleted: IndexSet<u32>,
}

impl Draft {
    /// The draft before any entry.
    pub(crate) fn new(alloc: Global, standing: &Standing) -> Draft
        ensures { (past : List ReportEntry) → HasReports standing.now past →
            IsDraft standing.now result.changes.entries result.count result.deleted.keys past past }
    {
        Draft {
            changes: IndexMap::new(alloc),
            count: standing.len(),
            deleted: IndexSet::new(alloc),
        }
    }

    fn stands(&self, standing: &Standing, rptid: u32) -> bool
        ensures { result ≡ is_some (vids_behind self.now.changes.entries standing.now rptid) }
    {
        match self.changes.get(&rptid) {
            Some(vids) => !vids.as_slice().is_empty(),
            None => standing.get(rptid).is_some(),
        }
    }

    fn verdict(&self, vars: &Vars, standing: &Standing, entry: &Definition) -> Drack
        ensures { result ≡ drack_by (value_in vars.now)
            (vids_behind self.now.changes.entries standing.now entry.now.rptid) self.now.count entry.now }
    {
        if entry.vids.as_slice().is_empty() {
            return Drack::Done;
        }
        if self.stands(standing, entry.rptid) {
            return Drack::Defined(entry.rptid);
        }
        match first_unknown(vars, entry.vids.as_slice()) {
            Some(vid) => Drack::UnknownVid(*vid),
            None if self.count < MOST_REPORTS => Drack::Done,
            None => Drack::NoSpace,
        }
    }

    // How many reports stand without this one.
    fn count_without(&self, standing: &Standing, rptid: u32) -> usize
        ensures { result ≡ (if is_some (vids_behind self.now.changes.entries standing.now rptid)
            then self.now.count - 1 else self.now.count) }
    {
        if self.stands(standing, rptid) {
            self.count.saturating_sub(1)
        } else {
            self.count
        }
    }

    // Takes in an entry that isn't refused.
    fn enter(
        &mut self,
        alloc: Global,
        standing: &Standing,
        entry: &Definition,
    ) -> Result<(), NoMemory>
        ensures { (value : ℕ → Option Item) (start past : List ReportEntry) →
            IsDraft standing.now self.old.changes.entries self.old.count self.old.deleted.keys start past →
            drack.Done ≡ drack_by value (vids_behind self.old.changes.entries standing.now entry.now.rptid)
            self.old.count entry.now →
            OnOk result (IsDraft standing.now self.new.changes.entries self.new.count self.new.deleted.keys start
            (define_entry entry.now ∷ past)) }
    {
        let vids = entry.vids.as_slice();
        if vids.is_empty() {
            self.deleted.insert(entry.rptid)?;
            self.count = self.count_without(standing, entry.rptid);
        } else {
            self.count = self.count.saturating_add(1);
        }
        self.changes.insert(entry.rptid, Row::of(alloc, vids)?)?;
        Ok(())
    }

    /// Works through the entries, up to the first that is refused.
    pub(crate) fn enter_each(
        &mut self,
        alloc: Global,
        vars: &Vars,
        standing: &Standing,
        list: &[Definition],
    ) -> Result<Drack, NoMemory>
        ensures answer { (start past : List ReportEntry) →
            IsDraft standing.now self.old.changes.entries self.old.count self.old.deleted.keys start past →
            IfOk result (λ answer. answer ≡ drack_of (value_in vars.now) past list.now) }
        ensures draft { (start past : List ReportEntry) →
            IsDraft standing.now self.old.changes.entries self.old.count self.old.deleted.keys start past →
            IfOk result (λ answer. answer ≡ drack.Done →
            IsDraft standing.now self.new.changes.entries self.new.count self.new.deleted.keys start
            (past_with_definitions past list.now)) }
    {
        for entry in list {
            let answer = self.verdict(vars, standing, entry);
            if !answer.is_done() {
                return Ok(answer);
            }
            self.enter(alloc, standing, entry)?;
        }
        Ok(Drack::Done)
    }
}

// The first of these that is no variable.
fn first_unknown<'a>(vars: &Vars, vids: &'a [u32]) -> Option<&'a u32>
    ensures { option_copied result ≡ find (λ vid. not (is_some (value_in vars.now vid))) vids.now }
{
    vids.iter().find(|vid| vars.value(**vid).is_none())
}
