//! A request that links events, worked through on a copy.

ghost use Rattle.std.specs.Prelude.{◌≡◌, ◌+◌, ◌-◌, List, nat_eq, ℕ, length, IfOk, OnOk, Some};
ghost use Rattle.std.specs.List.{IsDistinct};
ghost use Rattle.std.specs.Map.{keys_of};
ghost use Rattle.gem_reports.specs.declared.answers.Lrack.TheVariants as lrack;
ghost use Rattle.gem_reports.specs.Answers.{lrack_by, lrack_of, past_after_link};
ghost use Rattle.gem_reports.specs.Drafts.{IsLinkDraft};
ghost use Rattle.gem_reports.specs.Events.{links_in_table, rptids_in, with_links_of};
ghost use Rattle.gem_reports.specs.History.{ReportEntry};
ghost use Rattle.gem_reports.specs.Tables.{vids_in};
ghost use Rattle.secs_items.specs.Measures.{capped};

use crate::answers::Lrack;
use crate::events::Events;
use crate::standing::Standing;
use gem_shapes::Linking;
use gl_base::{NoMemory, Row};
use std::alloc::Global;

// The most links.
const MOST_LINKS: usize = 4_096;

/// The events as they stand after the entries so far, and how many links they have.
#[derive(Drop)]
pub(crate) struct Links {
    pub(crate) events: Events,
    pub(crate) count: usize,
}

impl Links {
    fn verdict(&self, standing: &Standing, entry: &Linking) -> Lrack
        ensures { result ≡ lrack_by (rptids_in self.now.events entry.now.ceid) (vids_in standing.now) self.now.count
            entry.now }
    {
        match self.events.get(entry.ceid) {
            None => Lrack::UnknownCeid(entry.ceid),
            Some(event) => self.verdict_beside(standing, event.rptids.as_slice(), entry),
        }
    }

    // The verdict on an entry whose event has these links.
    fn verdict_beside(&self, standing: &Standing, links: &[u32], entry: &Linking) -> Lrack
        ensures { result ≡ lrack_by (Some links.now) (vids_in standing.now) self.now.count entry.now }
    {
        let rptids = entry.rptids.as_slice();
        if rptids.is_empty() {
            return Lrack::Done;
        }
        if !links.is_empty() {
            return Lrack::Linked(entry.ceid);
        }
        match standing.first_unknown(rptids) {
            Some(rptid) => Lrack::UnknownRptid(*rptid),
            None if self.count.saturating_add(rptids.len()) > MOST_LINKS => Lrack::NoSpace,
            None => Lrack::Done,
        }
    }

    fn enter(&mut self, alloc: Global, entry: &Linking) -> Result<(), NoMemory>
        ensures table { OnOk result (self.new.events ≡ with_links_of entry.now.ceid entry.now.rptids self.old.events) }
        ensures distinct { OnOk result (IsDistinct nat_eq (keys_of self.old.events)) }
        ensures count { OnOk result (self.new.count ≡ capped
            (self.old.count - length (links_in_table self.old.events entry.now.ceid) + length entry.now.rptids)) }
    {
        let rptids = Row::of(alloc, entry.rptids.as_slice())?;
        let had = self.events.links(entry.ceid).len();
        self.count = self.count.saturating_sub(had).saturating_add(rptids.len());
        self.events.set_links(entry.ceid, rptids);
        Ok(())
    }

    /// Works through the entries, up to the first that is refused.
    pub(crate) fn enter_each(
        &mut self,
        alloc: Global,
        standing: &Standing,
        list: &[Linking],
    ) -> Result<Lrack, NoMemory>
        ensures answer { (events : List ℕ) (past : List ReportEntry) →
            IsLinkDraft self.old.events self.old.count standing.now events past →
            IfOk result (λ answer. answer ≡ lrack_of events past list.now) }
        ensures draft { (events : List ℕ) (past : List ReportEntry) →
            IsLinkDraft self.old.events self.old.count standing.now events past →
            IfOk result (λ answer. answer ≡ lrack.Done →
            IsLinkDraft self.new.events self.new.count standing.now events (past_after_link past list.now)) }
    {
        for entry in list {
            let answer = self.verdict(standing, entry);
            if !answer.is_done() {
                return Ok(answer);
            }
            self.enter(alloc, entry)?;
        }
        Ok(Lrack::Done)
    }
}
