//! The tables of the equipment, and what its tool does to them.

ghost use Rattle.std.specs.Prelude.{◌≡◌, ◌*◌, ◌<◌, ◌^◌, Bool, IfOk, OnOk, OnErr};
ghost use Rattle.std.specs.Option.{option_copied};
ghost use Rattle.gem_alarms.specs.Alarms.{ackc5_of, step_of};
ghost use Rattle.gem_remote.specs.Commands.{ackc10_of};
ghost use Rattle.gem_reports.specs.Reporting.{drack_in, erack_in, is_enabled_in, is_planned, lrack_in};
ghost use Rattle.spool_rule.specs.Rule.{answer_of, covered, rule_after};
ghost use Rattle.gem_vars.specs.Settings.{eac_of, refusal_of};
ghost use Rattle.gem_vars.specs.Tables.{constant_in, value_in};
ghost use Rattle.equipment_tables.specs.Plan.{EquipmentPlanFits};
ghost use Rattle.equipment_tables.specs.Tables.{alarm_after, alarms_by, constants_by, definitions_by, delay_of, events_by, is_done, linkings_by, may_spool, most_transmitted, overwrites, planned_tables, set_after, state_of, value_of, with_rule};

use crate::plan::EquipmentPlan;
use gem_alarms::{Ackc5, AlarmStep, Alarms};
use gem_remote::Remote;
use gem_reports::{Drack, Erack, Lrack, Reports, reports_go_by_what_stands};
use gem_shapes::{Definition, Linking};
use gem_vars::{Eac, Setting, Vars};
use gl_base::{NoMemory, Row};
use secs_items::Item;
use spool_rule::{RuleAnswer, RuleEntry, SpoolRule};
use std::alloc::Global;
use std::marker::Model;

// The ECIDs of EstablishCommunicationsTimeout, in seconds, of EnableSpool and OverWriteSpool, each 0 or 1, and of
// MaxSpoolTransmit.
const TIMEOUT: u32 = 1;

const ENABLE_SPOOL: u32 = 2;

const OVERWRITE_SPOOL: u32 = 3;

const MAX_TRANSMIT: u32 = 4;

/// The tables of the equipment: variables and constants, events and reports, alarms, remote commands and terminals,
/// which primaries are spooled, and what the equipment is called. Their rows are on the heap.
#[derive(Drop)]
pub struct Tables {
    pub(crate) vars: Vars,
    pub(crate) reports: Reports,
    pub(crate) alarms: Alarms,
    pub(crate) remote: Remote,
    pub(crate) rule: SpoolRule,
    pub(crate) mdln: Row<u8>,
    pub(crate) softrev: Row<u8>,
}

impl Model for Tables {
    ghost use Rattle.std.specs.Prelude.{ℕ, List, refl};
    ghost use Rattle.std.specs.Coded.{code_by, coded×, coded_list, coded_ℕ};
    ghost use Rattle.gem_alarms.specs.contracts.alarms.Alarms as alarms_code;
    ghost use Rattle.gem_alarms.specs.Alarms.{AlarmTable};
    ghost use Rattle.gem_remote.specs.contracts.remote.Remote as remote_code;
    ghost use Rattle.gem_remote.specs.declared.plan.RemotePlan.{RemotePlan};
    ghost use Rattle.gem_reports.specs.contracts.reports.Reports as reports_code;
    ghost use Rattle.gem_reports.specs.Laws.{HasPast};
    ghost use Rattle.gem_reports.specs.Tables.{ReportsView};
    ghost use Rattle.spool_rule.specs.contracts.rule.SpoolRule as rule_code;
    ghost use Rattle.spool_rule.specs.declared.rule.SpoolRule.{SpoolRule};
    ghost use Rattle.gem_vars.specs.contracts.vars.Vars as vars_code;
    ghost use Rattle.gem_vars.specs.Tables.{VarsTable};
    ghost use Rattle.equipment_tables.specs.Tables.{TablesView};

    ghost Value = { TablesView };

    ghost coded = { code_by
        (VarsTable × (ReportsView × (AlarmTable × (RemotePlan × (SpoolRule × (List ℕ × List ℕ))))))
        (coded× vars_code.the_row.coded (coded× reports_code.the_row.coded (coded× alarms_code.the_row.coded
        (coded× remote_code.the_row.coded (coded× rule_code.the_row.coded
        (coded× (coded_list coded_ℕ) (coded_list coded_ℕ)))))))
        (λ t. (t.vars, (t.reports, (t.alarms, (t.remote, (t.rule, (t.mdln, t.softrev)))))))
        (λ p. record {
          vars = p.0;
          reports = p.1.0;
          alarms = p.1.1.0;
          remote = p.1.1.1.0;
          rule = p.1.1.1.1.0;
          mdln = p.1.1.1.1.1.0;
          softrev = p.1.1.1.1.1.1;
        })
        (λ _. refl) };

    ghost view = { λ inside. record {
      vars = inside.vars;
      reports = inside.reports;
      alarms = inside.alarms;
      remote = inside.remote;
      rule = inside.rule;
      mdln = inside.mdln;
      softrev = inside.softrev;
    } };

    ghost invariant = { λ inside. HasPast inside.reports };
}

impl Tables {
    /// The tables as planned, before any command and any request. The plan must fit.
    pub fn new(alloc: Global, plan: &EquipmentPlan) -> Result<Tables, NoMemory>
        requires { EquipmentPlanFits plan.now }
        ensures { IfOk result (λ tables. state_of tables ≡ planned_tables plan.now) }
    {
        reports_go_by_what_stands();
        let vars = Vars::new(alloc, &plan.vars)?;
        let events = plan.events.as_slice();
        let reports = Reports::new(alloc, events)?;
        let planned = plan.alarms.as_slice();
        let alarms = Alarms::new(alloc, planned)?;
        let remote = Remote::new(alloc, &plan.remote)?;
        let spooled = plan.spooled.as_slice();
        let rule = SpoolRule::new(spooled);
        let model = plan.mdln.as_slice();
        let mdln = Row::of(alloc, model)?;
        let revision = plan.softrev.as_slice();
        let softrev = Row::of(alloc, revision)?;
        Ok(Tables {
            vars,
            reports,
            alarms,
            remote,
            rule,
            mdln,
            softrev,
        })
    }

    /// The variables and constants.
    pub fn vars(&self) -> &Vars
        ensures { result.now ≡ (state_of self.now).vars }
    {
        &self.vars
    }

    /// The tool sets a variable. `false`: the plan has no such variable, or the value isn't one for it, and nothing
    /// changes.
    pub fn set(&mut self, alloc: Global, vid: u32, value: &Item) -> Result<bool, NoMemory>
        ensures done { IfOk result (λ done. done ≡ is_done (refusal_of self.old.vars vid value.now)) }
        ensures table { OnOk result (state_of self.new ≡ set_after vid value.now (state_of self.old)) }
    {
        match self.vars.set(alloc, vid, value) {
            Ok(()) => Ok(true),
            Err(Setting::NoMemory) => Err(NoMemory),
            Err(Setting::Unknown(_) | Setting::Kind(_) | Setting::TooLong(_)) => Ok(false),
        }
    }

    /// The tool sets an alarm, or clears it. `Unknown` exactly where the plan has no such alarm, and then nothing
    /// changes; `Same` exactly where the alarm is in that state already.
    pub fn change(&mut self, alid: u32, set: bool) -> AlarmStep
        ensures step { result ≡ step_of self.old.alarms alid set }
        ensures table { state_of self.new ≡ alarm_after alid set (state_of self.old) }
    {
        self.alarms.change(alid, set)
    }

    /// Whether the plan has the event.
    pub fn is_event(&self, ceid: u32) -> bool
        ensures { result ≡ is_planned (state_of self.now).reports ceid }
    {
        reports_go_by_what_stands();
        self.reports.known(ceid)
    }

    /// Whether the event is enabled; false where the plan doesn't have it.
    pub fn is_enabled(&self, ceid: u32) -> bool
        ensures { result ≡ is_enabled_in (state_of self.now).reports ceid }
    {
        reports_go_by_what_stands();
        self.reports.enabled(ceid)
    }

    /// The value of a constant, `None` exactly where there is none with this ECID.
    pub fn constant(&self, ecid: u32) -> Option<u32>
        ensures { result ≡ constant_in self.now.vars ecid }
    {
        self.vars.constant(ecid)
    }

    /// How long the equipment waits before it asks for communication again, in milliseconds.
    pub fn delay(&self) -> u64
        ensures delay { result ≡ delay_of (state_of self.now) }
        ensures short { result < 2 ^ 62 }
    {
        u64::from(self.vars.constant(TIMEOUT).unwrap_or(0)) * 1000
    }

    /// Whether the spool may become active: EnableSpool is 1.
    pub fn may_spool(&self) -> bool
        ensures { result ≡ may_spool (state_of self.now) }
    {
        self.constant(ENABLE_SPOOL).unwrap_or(0) != 0
    }

    /// Whether a message that finds the spool full takes the place of the oldest: OverWriteSpool is 1.
    pub fn overwrites(&self) -> bool
        ensures { result ≡ overwrites (state_of self.now) }
    {
        self.constant(OVERWRITE_SPOOL).unwrap_or(0) != 0
    }

    /// How many messages may go to the host in answer to one request for the spool, MaxSpoolTransmit; 0 is no bound.
    pub fn most_transmitted(&self) -> u32
        ensures { result ≡ most_transmitted (state_of self.now) }
    {
        self.constant(MAX_TRANSMIT).unwrap_or(0)
    }

    /// Whether this primary is spooled: by the newest S2F43 that was accepted, and by the plan where none was.
    pub fn covers(&self, stream: u8, function: u8) -> bool
        ensures { result ≡ covered (state_of self.now).rule stream function }
    {
        self.rule.covers(stream, function)
    }

    /// S2F15, as [`Vars::set_constants`] answers it.
    pub(crate) fn set_constants(&mut self, list: &[(u32, u32)]) -> Eac
        ensures answer { result ≡ eac_of self.old.vars list.now }
        ensures table { state_of self.new ≡ constants_by result list.now (state_of self.old) }
    {
        self.vars.set_constants(list)
    }

    /// S2F33, as [`Reports::define`] answers it.
    pub(crate) fn define(&mut self, alloc: Global, list: &[Definition]) -> Result<Drack, NoMemory>
        ensures answer { IfOk result (λ drack. drack ≡
            drack_in (value_of (state_of self.old)) (state_of self.old).reports list.now) }
        ensures table { IfOk result (λ drack. state_of self.new ≡ definitions_by drack list.now (state_of self.old)) }
    {
        reports_go_by_what_stands();
        self.reports.define(alloc, &self.vars, list)
    }

    /// S2F35, as [`Reports::link`] answers it.
    pub(crate) fn link(&mut self, alloc: Global, list: &[Linking]) -> Result<Lrack, NoMemory>
        ensures answer { IfOk result (λ lrack. lrack ≡ lrack_in (state_of self.old).reports list.now) }
        ensures table { IfOk result (λ lrack. state_of self.new ≡ linkings_by lrack list.now (state_of self.old)) }
    {
        reports_go_by_what_stands();
        self.reports.link(alloc, list)
    }

    /// S2F37, as [`Reports::enable`] answers it.
    pub(crate) fn enable_events(&mut self, on: bool, ceids: &[u32]) -> Erack
        ensures answer { result ≡ erack_in (state_of self.old).reports ceids.now }
        ensures table { state_of self.new ≡ events_by result on ceids.now (state_of self.old) }
    {
        reports_go_by_what_stands();
        self.reports.enable(on, ceids)
    }

    /// S2F43, as [`SpoolRule::replace`] answers it.
    pub(crate) fn replace_rule(
        &mut self,
        alloc: Global,
        list: &[RuleEntry],
    ) -> Result<RuleAnswer, NoMemory>
        ensures answer { IfOk result (λ answer. answer ≡ answer_of list.now) }
        ensures table { OnOk result (state_of self.new ≡
            with_rule (rule_after list.now (state_of self.old).rule) (state_of self.old)) }
    {
        self.rule.replace(alloc, list)
    }

    /// S5F3, as [`Alarms::enable`] answers it.
    pub(crate) fn enable_alarms(&mut self, on: bool, alid: Option<u32>) -> Ackc5
        ensures answer { result ≡ ackc5_of self.old.alarms alid }
        ensures table { state_of self.new ≡ alarms_by result alid on (state_of self.old) }
    {
        self.alarms.enable(alid, on)
    }
}
