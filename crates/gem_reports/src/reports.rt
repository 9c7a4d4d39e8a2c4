//! The events and reports of a tool, behind S2F33, S2F35 and S2F37. A refused request changes nothing, so definitions
//! are tried beside what stands, and links on a copy; what is only judged is tried on a draft that is dropped.

ghost use Rattle.std.specs.Prelude.{◌≡◌, ◌≢◌, ◌&&◌, List, ℕ, [], ◌∷◌, IfOk, Ok};
ghost use Rattle.gem_vars.specs.Tables.{value_in};
ghost use Rattle.gem_reports.specs.declared.answers.Drack.TheVariants as drack;
ghost use Rattle.gem_reports.specs.declared.answers.Erack.TheVariants as erack;
ghost use Rattle.gem_reports.specs.declared.answers.Lrack.TheVariants as lrack;
ghost use Rattle.gem_reports.specs.Answers.{drack_of, erack_of, lrack_of, past_after_define, past_after_link};
ghost use Rattle.gem_reports.specs.Bodies.{event_body_at, report_body_at};
ghost use Rattle.gem_reports.specs.Drafts.{IsLinkDraft};
ghost use Rattle.gem_reports.specs.History.{ReportEntry, enabled_at, is_event};
ghost use Rattle.gem_reports.specs.History.ReportEntry.{Enable};
ghost use Rattle.gem_reports.specs.Tables.{StandsFor};

use crate::answers::{Drack, Erack, Lrack};
use crate::draft::Draft;
use crate::events::Events;
use crate::links::Links;
use crate::standing::Standing;
use gem_shapes::{Definition, Linking};
use gem_vars::Vars;
use gl_base::NoMemory;
use indexmap::IndexSet;
use std::alloc::Global;
use std::marker::Model;

/// The events of the plan, each enabled or not, the reports that the host defined, and which of them each event
/// carries.
#[derive(Drop)]
pub struct Reports {
    pub(crate) events: Events,
    pub(crate) standing: Standing,
}

impl Model for Reports {
    ghost use Rattle.std.specs.Prelude.{refl};
    ghost use Rattle.std.specs.Coded.{code_by, coded×, coded_list, coded_ℕ};
    ghost use Rattle.gem_reports.specs.contracts.event.Event as event;
    ghost use Rattle.gem_reports.specs.Events.{EventTable};
    ghost use Rattle.gem_reports.specs.Tables.{ReportTable, ReportsView};

    ghost Value = { ReportsView };

    ghost coded = { code_by
        (EventTable × ReportTable)
        (coded×
        (coded_list (coded× coded_ℕ event.the_row.coded))
        (coded_list (coded× coded_ℕ (coded_list coded_ℕ))))
        (λ v. (v.events, v.reports))
        (λ p. record { events = p.0; reports = p.1 })
        (λ _. refl) };

    ghost view = { λ inside. record { events = inside.events; reports = inside.standing } };
}

impl Reports {
    /// The events with these CEIDs, after no request: there are no reports, and no event is enabled. A CEID that is
    /// given again is the same event.
    pub fn new(alloc: Global, events: &[u32]) -> Result<Reports, NoMemory>
        ensures { IfOk result (λ reports. StandsFor reports events.now []) }
    {
        let standing = Standing::new(alloc);
        let events = Events::new(alloc, events)?;
        Ok(Reports { events, standing })
    }

    /// S2F33: defines reports. An entry without VIDs deletes its report with the links to it, and changes nothing where
    /// it doesn't stand; a list without entries deletes all reports and links.
    ///
    /// The answer is that of the first entry that can't be entered, and then none is: an entry with VIDs is `Defined`
    /// where its report stands already, else `UnknownVid` with the first VID that is no variable, else `NoSpace` where
    /// there are 1,024 reports. Each entry is judged by what the entries before it leave.
    pub fn define(
        &mut self,
        alloc: Global,
        vars: &Vars,
        list: &[Definition],
    ) -> Result<Drack, NoMemory>
        ensures answer { (events : List ℕ) (past : List ReportEntry) → StandsFor self.old events past →
            IfOk result (λ answer. answer ≡ drack_of (value_in vars.now) past list.now) }
        ensures stands { (events : List ℕ) (past : List ReportEntry) → StandsFor self.old events past →
            result ≡ Ok drack.Done → StandsFor self.new events (past_after_define past list.now) }
        ensures refused { result ≢ Ok drack.Done → self.new ≡ self.old }
    {
        if list.is_empty() {
            self.events.unlink_all(alloc);
            self.standing.clear();
            return Ok(Drack::Done);
        }
        let mut draft = Draft::new(alloc, &self.standing);
        let answer = draft.enter_each(alloc, vars, &self.standing, list)?;
        if !answer.is_done() {
            return Ok(answer);
        }
        let events = self.events.without(alloc, &draft.deleted)?;
        self.standing.change(draft.changes)?;
        self.events = events;
        Ok(Drack::Done)
    }

    /// What [`Reports::define`] would answer. It changes nothing.
    pub fn judge_define(
        &self,
        alloc: Global,
        vars: &Vars,
        list: &[Definition],
    ) -> Result<Drack, NoMemory>
        ensures { (events : List ℕ) (past : List ReportEntry) → StandsFor self.now events past →
            IfOk result (λ answer. answer ≡ drack_of (value_in vars.now) past list.now) }
    {
        Draft::new(alloc, &self.standing).enter_each(alloc, vars, &self.standing, list)
    }

    /// S2F35: links reports to events. An entry without RPTIDs unlinks its event; a list without entries changes
    /// nothing.
    ///
    /// The answer is that of the first entry that can't be entered, and then none is: an entry is `UnknownCeid` where
    /// the plan has no such event; and one with RPTIDs is else `Linked` where the event has links, else `UnknownRptid`
    /// with the first RPTID that doesn't stand, else `NoSpace` where there would be more than 4,096 links. Each entry
    /// is judged by what the entries before it leave.
    pub fn link(&mut self, alloc: Global, list: &[Linking]) -> Result<Lrack, NoMemory>
        ensures answer { (events : List ℕ) (past : List ReportEntry) → StandsFor self.old events past →
            IfOk result (λ answer. answer ≡ lrack_of events past list.now) }
        ensures stands { (events : List ℕ) (past : List ReportEntry) → StandsFor self.old events past →
            result ≡ Ok lrack.Done → StandsFor self.new events (past_after_link past list.now) }
        ensures refused { result ≢ Ok lrack.Done → self.new ≡ self.old }
    {
        let mut draft = self.link_draft(alloc)?;
        let answer = draft.enter_each(alloc, &self.standing, list)?;
        if !answer.is_done() {
            return Ok(answer);
        }
        self.events = draft.events;
        Ok(Lrack::Done)
    }

    /// What [`Reports::link`] would answer. It changes nothing.
    pub fn judge_link(&self, alloc: Global, list: &[Linking]) -> Result<Lrack, NoMemory>
        ensures { (events : List ℕ) (past : List ReportEntry) → StandsFor self.now events past →
            IfOk result (λ answer. answer ≡ lrack_of events past list.now) }
    {
        self.link_draft(alloc)?
            .enter_each(alloc, &self.standing, list)
    }

    // A copy before any entry.
    fn link_draft(&self, alloc: Global) -> Result<Links, NoMemory>
        ensures { (events : List ℕ) (past : List ReportEntry) → StandsFor self.now events past →
            IfOk result (λ draft. IsLinkDraft draft.events draft.count self.now.reports events past) }
    {
        Ok(Links {
            events: self.events.without(alloc, &IndexSet::new(alloc))?,
            count: self.events.link_count(),
        })
    }

    /// S2F37: enables the events with these CEIDs, or disables them; a list without CEIDs is all events.
    ///
    /// `Unknown` with the first CEID that the plan doesn't have, and then nothing changes.
    pub fn enable(&mut self, on: bool, list: &[u32]) -> Erack
        ensures answer { (events : List ℕ) (past : List ReportEntry) → StandsFor self.old events past →
            result ≡ erack_of events list.now }
        ensures stands { (events : List ℕ) (past : List ReportEntry) → StandsFor self.old events past →
            result ≡ erack.Done → StandsFor self.new events (Enable on list.now ∷ past) }
        ensures refused { result ≢ erack.Done → self.new ≡ self.old }
    {
        let answer = self.judge_enable(list);
        if let Erack::Done = answer {
            self.events.enable(on, list);
        }
        answer
    }

    /// What [`Reports::enable`] would answer. It changes nothing.
    pub fn judge_enable(&self, list: &[u32]) -> Erack
        ensures { (events : List ℕ) (past : List ReportEntry) → StandsFor self.now events past →
            result ≡ erack_of events list.now }
    {
        match self.events.first_unknown(list) {
            Some(ceid) => Erack::Unknown(*ceid),
            None => Erack::Done,
        }
    }

    /// Whether the event is enabled; false where the plan doesn't have it.
    pub fn enabled(&self, ceid: u32) -> bool
        ensures { (events : List ℕ) (past : List ReportEntry) → StandsFor self.now events past →
            result ≡ (is_event events ceid && enabled_at past ceid) }
    {
        match self.events.get(ceid) {
            Some(event) => event.is_enabled,
            None => false,
        }
    }

    /// Whether the plan has the event.
    pub fn known(&self, ceid: u32) -> bool
        ensures { (events : List ℕ) (past : List ReportEntry) → StandsFor self.now events past →
            result ≡ is_event events ceid }
    {
        self.events.contains(ceid)
    }
}
