//! The table of alarms: the tool sets and clears them, the host enables them and asks for lists.

ghost use Rattle.std.specs.Prelude.{◌≡◌, ◌≢◌, [], ◌∷◌, ◌++◌, List, map, IfOk, OnOk, None, Some};
ghost use Rattle.gem_tables.specs.Rows.{with_row};
ghost use Rattle.gem_alarms.specs.declared.alarms.Ackc5.TheVariants as ackc5;
ghost use Rattle.gem_alarms.specs.declared.alarms.AlarmStep.TheVariants as step;
ghost use Rattle.gem_alarms.specs.declared.plan.AlarmPlan.{AlarmPlan};
ghost use Rattle.gem_alarms.specs.Alarms.{ackc5_of, all_enabled, body_of, enabled_by, entry_item, enabled_items, enabled_list_of, items_of, list_of, step_of, with_enabled, with_set};
ghost use Rattle.gem_alarms.specs.History.{AlarmEntry, alarms_at};
ghost use Rattle.gem_alarms.specs.History.AlarmEntry.{Change, Enable};
ghost use Rattle.gem_alarms.specs.Plan.{AlarmsFit};

use crate::alarm::{Alarm, unknown_item};
use crate::plan::AlarmPlan;
use gl_base::{NoMemory, Row};
use indexmap::IndexMap;
use secs_items::Item;
use std::alloc::Global;
use std::marker::Model;

/// What a command for an alarm does.
#[derive(Clone, Copy, Debug, PartialEq, Eq)]
pub enum AlarmStep {
    /// The plan has no such alarm.
    Unknown,
    /// The alarm is in that state already.
    Same,
    /// The alarm's state changes. It is enabled, so that S5F1 is due, or not.
    Changed { enabled: bool },
}

/// The acknowledgement of S5F3.
#[derive(Clone, Copy, Debug, PartialEq, Eq)]
pub enum Ackc5 {
    Done,
    /// The plan has no alarm with this ALID.
    Unknown(u32),
}

/// The alarms of the plan, each set or not, and enabled or not.
#[derive(Drop)]
pub struct Alarms {
    pub(crate) alarms: IndexMap<u32, Alarm>,
}

impl Model for Alarms {
    ghost use Rattle.std.specs.Coded.{coded×, coded_list, coded_ℕ};
    ghost use Rattle.gem_alarms.specs.contracts.alarm.Alarm as alarm;
    ghost use Rattle.gem_alarms.specs.Alarms.{AlarmTable};

    ghost Value = { AlarmTable };

    ghost coded = { coded_list (coded× coded_ℕ alarm.the_row.coded) };

    ghost view = { λ inside. inside.alarms.entries };
}

impl Alarms {
    /// The alarms as planned, after no command and no request: none is set. The plan must fit.
    pub fn new(alloc: Global, plan: &[AlarmPlan]) -> Result<Alarms, NoMemory>
        requires { AlarmsFit plan.now }
        ensures { IfOk result (λ alarms. alarms ≡ alarms_at plan.now []) }
    {
        let mut alarms = IndexMap::new(alloc);
        for planned in plan {
            let alarm = Alarm {
                category: planned.category,
                text: Row::of(alloc, planned.text.as_slice())?,
                is_enabled: planned.enabled,
                is_set: false,
            };
            alarms.insert(planned.alid, alarm)?;
        }
        Ok(Alarms { alarms })
    }

    /// A command that sets the alarm, or clears it.
    ///
    /// `Unknown` exactly where the plan has no such alarm, and then nothing changes; `Same` exactly where the alarm is
    /// in that state already.
    pub fn change(&mut self, alid: u32, set: bool) -> AlarmStep
        ensures step { result ≡ step_of self.old alid set }
        ensures table { self.new ≡ with_row alid (with_set set) self.old }
        ensures unknown { result ≡ step.Unknown → self.new ≡ self.old }
    {
        match self.alarms.get_mut(&alid) {
            None => AlarmStep::Unknown,
            Some(alarm) => {
                let was = alarm.is_set;
                alarm.is_set = set;
                if was == set {
                    AlarmStep::Same
                } else {
                    AlarmStep::Changed {
                        enabled: alarm.is_enabled,
                    }
                }
            }
        }
    }

    /// S5F3: enables an alarm, or disables it; `None` is all alarms.
    ///
    /// `Unknown` exactly where the plan has no alarm with this ALID, and then nothing changes.
    pub fn enable(&mut self, alid: Option<u32>, on: bool) -> Ackc5
        ensures answer { result ≡ ackc5_of self.old alid }
        ensures table { self.new ≡ enabled_by alid on self.old }
        ensures refused { result ≢ ackc5.Done → self.new ≡ self.old }
    {
        let Some(alid) = alid else {
            for i in 0..self.alarms.len() {
                self.alarms[i].is_enabled = on;
            }
            return Ackc5::Done;
        };
        match self.alarms.get_mut(&alid) {
            None => Ackc5::Unknown(alid),
            Some(alarm) => {
                alarm.is_enabled = on;
                Ackc5::Done
            }
        }
    }

    /// What [`Alarms::enable`] would answer. It changes nothing.
    pub fn judge_enable(&self, alid: Option<u32>) -> Ackc5
        ensures { result ≡ ackc5_of self.now alid }
    {
        match alid {
            Some(alid) if !self.alarms.contains_key(&alid) => Ackc5::Unknown(alid),
            _ => Ackc5::Done,
        }
    }

    /// The body of S5F1, and a row of S5F6: ALCD, ALID and ALTX. Of an unknown alarm ALCD and ALTX are empty.
    pub fn body(&self, alloc: Global, alid: u32) -> Result<Item, NoMemory>
        ensures { IfOk result (λ body. body ≡ body_of self.now alid) }
    {
        match self.alarms.get(&alid) {
            Some(alarm) => alarm.item(alloc, alid),
            None => unknown_item(alloc, alid),
        }
    }

    /// The body of S5F6: the alarms with these ALIDs in their order, or where there is none, all in the plan's order.
    pub fn list(&self, alloc: Global, ids: &[u32]) -> Result<Item, NoMemory>
        ensures { IfOk result (λ list. list ≡ list_of self.now ids.now) }
    {
        if ids.is_empty() {
            return Ok(Item::L(self.all_items(alloc)?));
        }
        let mut items = Row::new(alloc);
        for alid in ids {
            items.push(self.body(alloc, *alid)?)?;
        }
        Ok(Item::L(items))
    }

    fn all_items(&self, alloc: Global) -> Result<Row<Item>, NoMemory>
        ensures { IfOk result (λ items. items ≡ map entry_item self.now) }
    {
        let mut items = Row::new(alloc);
        for (alid, alarm) in self.alarms.iter() {
            items.push(alarm.item(alloc, *alid)?)?;
        }
        Ok(items)
    }

    /// The body of S5F8: the enabled alarms, in the plan's order.
    pub fn enabled_list(&self, alloc: Global) -> Result<Item, NoMemory>
        ensures { IfOk result (λ list. list ≡ enabled_list_of self.now) }
    {
        let mut items = Row::new(alloc);
        for (alid, alarm) in self.alarms.iter() {
            if alarm.is_enabled {
                items.push(alarm.item(alloc, *alid)?)?;
            }
        }
        Ok(Item::L(items))
    }
}
