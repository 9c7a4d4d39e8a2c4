//! The plan's events.

ghost use Rattle.std.specs.Prelude.{◌≡◌, ◌==◌, [], false, not, nat_eq, length, is_some, IfOk};
ghost use Rattle.std.specs.List.{IsDistinct, find};
ghost use Rattle.std.specs.Map.{keys_of, lookup};
ghost use Rattle.std.specs.Option.{option_copied};
ghost use Rattle.secs_items.specs.Measures.{capped};
ghost use Rattle.gem_tables.specs.Rows.{with_each, with_row};
ghost use Rattle.gem_reports.specs.Events.{enabled_by, events_at, links_in, links_in_table, with_no_links, with_enabled, with_links, without};

use crate::event::Event;
use gl_base::{NoMemory, Row};
use indexmap::{IndexMap, IndexSet};
use std::alloc::Global;
use std::marker::Model;

/// The events of the plan, each enabled or not, with its links.
#[derive(Drop)]
pub(crate) struct Events {
    rows: IndexMap<u32, Event>,
}

impl Model for Events {
    ghost use Rattle.std.specs.Coded.{coded×, coded_list, coded_ℕ};
    ghost use Rattle.gem_reports.specs.contracts.event.Event as event;
    ghost use Rattle.gem_reports.specs.Events.{EventTable};

    ghost Value = { EventTable };

    ghost coded = { coded_list (coded× coded_ℕ event.the_row.coded) };

    ghost view = { λ inside. inside.rows.entries };
}

impl Events {
    /// The events after no request. A CEID that is given again is the same event.
    pub(crate) fn new(alloc: Global, ceids: &[u32]) -> Result<Events, NoMemory>
        ensures { IfOk result (λ events. events ≡ events_at ceids.now []) }
    {
        let mut rows = IndexMap::new(alloc);
        for ceid in ceids {
            let event = Event {
                is_enabled: false,
                rptids: Row::new(alloc),
            };
            rows.insert(*ceid, event)?;
        }
        Ok(Events { rows })
    }

    pub(crate) fn get(&self, ceid: u32) -> Option<&Event>
        ensures { option_copied result ≡ lookup (nat_eq ceid) self.now }
    {
        self.rows.get(&ceid)
    }

    pub(crate) fn contains(&self, ceid: u32) -> bool
        ensures { result ≡ is_some (lookup (nat_eq ceid) self.now) }
    {
        self.rows.contains_key(&ceid)
    }

    /// The reports that are linked to the event; none where the plan doesn't have it.
    pub(crate) fn links(&self, ceid: u32) -> &[u32]
        ensures { result.now ≡ links_in_table self.now ceid }
    {
        match self.rows.get(&ceid) {
            Some(event) => event.rptids.as_slice(),
            None => &[],
        }
    }

    /// The first of these that is no event of the plan.
    pub(crate) fn first_unknown<'a>(&self, ceids: &'a [u32]) -> Option<&'a u32>
        ensures { option_copied result ≡ find (λ ceid. not (is_some (lookup (nat_eq ceid) self.now))) ceids.now }
    {
        ceids.iter().find(|ceid| !self.rows.contains_key(*ceid))
    }

    /// How many links there are, or `usize::MAX` where there are more.
    pub(crate) fn link_count(&self) -> usize
        ensures { result ≡ capped (links_in self.now) }
    {
        let mut count: usize = 0;
        for (_, event) in self.rows.iter() {
            count = count.saturating_add(event.rptids.len());
        }
        count
    }

    /// A copy that has no links to these reports.
    pub(crate) fn without(&self, alloc: Global, rptids: &IndexSet<u32>) -> Result<Events, NoMemory>
        ensures { IfOk result (λ events. events ≡ with_each (without rptids.now.keys) self.now) }
    {
        let mut rows = IndexMap::new(alloc);
        for (ceid, event) in self.rows.iter() {
            rows.insert(*ceid, event.without(alloc, rptids)?)?;
        }
        Ok(Events { rows })
    }

    /// Gives the event other links, and answers whether the plan has it.
    pub(crate) fn set_links(&mut self, ceid: u32, rptids: Row<u32>) -> bool
        ensures there { result ≡ is_some (lookup (nat_eq ceid) self.old) }
        ensures table { self.new ≡ with_row ceid (with_links rptids) self.old }
        ensures distinct { IsDistinct nat_eq (keys_of self.old) }
    {
        match self.rows.get_mut(&ceid) {
            None => false,
            Some(event) => {
                event.rptids = rptids;
                true
            }
        }
    }

    fn set_enabled(&mut self, ceid: u32, on: bool) -> bool
        ensures there { result ≡ is_some (lookup (nat_eq ceid) self.old) }
        ensures table { self.new ≡ with_row ceid (with_enabled on) self.old }
        ensures distinct { IsDistinct nat_eq (keys_of self.old) }
    {
        match self.rows.get_mut(&ceid) {
            None => false,
            Some(event) => {
                event.is_enabled = on;
                true
            }
        }
    }

    /// Takes all links away.
    pub(crate) fn unlink_all(&mut self, alloc: Global)
        ensures { self.new ≡ with_each with_no_links self.old }
    {
        for i in 0..self.rows.len() {
            self.rows[i].rptids = Row::new(alloc);
        }
    }

    /// Enables these events, or disables them; where none is named, all.
    pub(crate) fn enable(&mut self, on: bool, ceids: &[u32])
        ensures { self.new ≡ with_each (enabled_by on ceids.now) self.old }
    {
        if ceids.is_empty() {
            self.enable_all(on);
        } else {
            self.enable_each(on, ceids);
        }
    }

    fn enable_all(&mut self, on: bool)
        ensures { self.new ≡ with_each (enabled_by on []) self.old }
    {
        for i in 0..self.rows.len() {
            self.rows[i].is_enabled = on;
        }
    }

    fn enable_each(&mut self, on: bool, ceids: &[u32])
        requires { (length ceids.now == 0) ≡ false }
        ensures { self.new ≡ with_each (enabled_by on ceids.now) self.old }
    {
        for ceid in ceids {
            self.set_enabled(*ceid, on);
        }
    }
}
