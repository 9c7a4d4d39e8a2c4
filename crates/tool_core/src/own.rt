//! What the equipment is between two calls, and what is read off it.

ghost use Rattle.std.specs.Prelude.{◌≡◌, ◌≤◌, ◌++◌, ◌∷◌, [], IfOk, OnOk};
ghost use Rattle.block_codec.specs.Protocol.{longest_text};
ghost use Rattle.line_end.specs.Plan.{LinePlanFits};
ghost use Rattle.tool_core.specs.Node.{own_of, tracing_of};
ghost use Rattle.tool_step.specs.Equipment.{new_own, no_traces};
ghost use Rattle.tool_step.specs.Setup.{carried_lines, found_list, set_up as set_up_so};
ghost use Rattle.message_end.specs.Ends.{printed};
ghost use Rattle.equipment_tables.specs.Tables.{planned_tables, state_of};
ghost use Rattle.tool_step.specs.Own.{is_communicating_in, is_enabled_in, is_local_in, is_online_in, with_for_grant, with_reports, with_waiting_data};
ghost use Rattle.equipment_tables.specs.Plan.{EquipmentPlanFits};

use crate::setup::KeptSetup;
use crate::spoolable::{ForGrant, Live};
use equipment_tables::{EquipmentPlan, Tables};
use gem_states::{Comms, CommsState, Control, ControlState};
use gem_trace::Traces;
use gl_base::{NoMemory, Row};
use line_end::LinePlan;
use message_end::MessageEnd;
use message_flow::StepOut;
use secs_items::Item;
use spool_ledger::Ledger;
use std::alloc::Global;
use std::marker::Model;
use tool_step::{Kind, Owed};

/// A plan that fits.
#[derive(Drop)]
pub struct Planned {
    pub(crate) plan: EquipmentPlan,
}

impl Model for Planned {
    ghost use Rattle.equipment_tables.specs.contracts.plan.EquipmentPlan as plan_code;
    ghost use Rattle.equipment_tables.specs.declared.plan.EquipmentPlan.{EquipmentPlan};
    ghost use Rattle.equipment_tables.specs.Plan.{EquipmentPlanFits};

    ghost Value = { EquipmentPlan };

    ghost coded = { plan_code.the_row.coded };

    ghost view = { λ inside. inside.plan };

    ghost invariant = { λ inside. EquipmentPlanFits inside.plan };
}

/// The core of the equipment's end, and what the equipment keeps beside it.
#[derive(Drop)]
pub struct Tool {
    pub core: MessageEnd<Kind>,
    pub own: Own,
}

/// The traces that run; the S6F1 that the samples of a step have brought, of which so many have had their turn; and
/// those that wait for their grants.
#[derive(Drop)]
pub struct Tracing {
    pub running: Traces,
    pub made: Row<Item>,
    pub routed: usize,
    pub for_grant: Vec<ForGrant>,
}

/// What the equipment keeps beside the core: its plan and tables, the setup that its file keeps, if it has room for
/// one, its two state models, the reports that wait for their grants, those that aren't answered yet, what becomes of
/// the spool, the system bytes with which a message of it was tried last, what this step asks of an object outside,
/// whether a host is offered recipes, its traces, how many events have happened since the start, and whether its first
/// step is over.
#[derive(Drop)]
pub struct Own {
    pub plan: Planned,
    pub tables: Tables,
    pub setup: Option<KeptSetup>,
    pub comms: Comms,
    pub control: Control,
    pub for_grant: Vec<ForGrant>,
    pub reports: Vec<Live>,
    pub ledger: Ledger,
    pub tried: Option<u32>,
    pub owed: Option<Owed>,
    pub offers: bool,
    pub tracing: Tracing,
    pub events: u32,
    pub has_begun: bool,
}

impl Planned {
    /// A plan that fits, by what its caller knows of it.
    pub fn of(plan: EquipmentPlan) -> Planned
        requires { EquipmentPlanFits plan }
        ensures { result ≡ plan }
    {
        Planned { plan }
    }

    /// The plan.
    pub fn get(&self) -> &EquipmentPlan
        ensures value { result.now ≡ self.now }
        ensures fits { EquipmentPlanFits self.now }
    {
        &self.plan
    }

    /// The line's part of the plan.
    pub(crate) fn line(&self) -> LinePlan
        ensures value { result ≡ self.now.line }
        ensures fits { LinePlanFits result }
    {
        self.plan.line
    }

    /// Whether the communication is enabled from the start.
    pub(crate) fn is_enabling(&self) -> bool
        ensures { result ≡ self.now.enable }
    {
        self.plan.enable
    }
}

impl Tracing {
    /// No trace runs.
    pub(crate) fn new(alloc: Global) -> Tracing
        ensures { tracing_of result ≡ no_traces }
    {
        Tracing {
            running: Traces::new(alloc),
            made: Row::new(alloc),
            routed: 0,
            for_grant: Vec::new(alloc),
        }
    }
}

// The tables of a start, with the setup that was found.
fn set_up(
    alloc: Global,
    plan: &EquipmentPlan,
    setup: &Option<KeptSetup>,
    out: &mut StepOut,
) -> Result<Tables, NoMemory>
    requires { EquipmentPlanFits plan.now }
    ensures tables { IfOk result (λ tables. state_of tables
        ≡ set_up_so (planned_tables plan.now) (found_list setup.now)) }
    ensures notes { IfOk result (λ tables. out.new.notes
        ≡ out.old.notes ++ printed (carried_lines (planned_tables plan.now) (found_list setup.now))) }
    ensures line { out.new.line ≡ out.old.line }
{
    let mut tables = Tables::new(alloc, plan)?;
    if let Some(list) = setup {
        list.carry_out(alloc, &mut tables, out)?;
    }
    Ok(tables)
}

impl Own {
    /// What is kept at a start, with the setup that was found, which is carried out, and what is known of the spool.
    pub(crate) fn new(
        alloc: Global,
        plan: EquipmentPlan,
        setup: Option<KeptSetup>,
        ledger: Ledger,
        out: &mut StepOut,
    ) -> Result<Own, NoMemory>
        requires { EquipmentPlanFits plan }
        ensures own { IfOk result (λ own. own_of own ≡ new_own plan setup ledger) }
        ensures notes { IfOk result (λ own. out.new.notes
            ≡ out.old.notes ++ printed (carried_lines (planned_tables plan) (found_list setup))) }
        ensures line { out.new.line ≡ out.old.line }
    {
        let tables = set_up(alloc, &plan, &setup, out)?;
        let control = Control::new(plan.control);
        Ok(Own {
            plan: Planned::of(plan),
            tables,
            setup,
            comms: Comms::new(),
            control,
            for_grant: Vec::new(alloc),
            reports: Vec::new(alloc),
            ledger,
            tried: None,
            owed: None,
            offers: false,
            tracing: Tracing::new(alloc),
            events: 0,
            has_begun: false,
        })
    }

    /// The most bytes of a text.
    pub(crate) fn max_body(&self) -> u32
        ensures value { result ≡ self.now.plan.line.max_body }
        ensures least { 244 ≤ result }
        ensures most { result ≤ longest_text }
    {
        self.plan.line().max_body
    }

    /// Whether the communication is enabled.
    pub(crate) fn is_enabled(&self) -> bool
        ensures { result ≡ is_enabled_in self.now.comms.state }
    {
        !matches!(self.comms.state(), CommsState::Disabled)
    }

    /// Whether the communication is established.
    pub(crate) fn is_communicating(&self) -> bool
        ensures { result ≡ is_communicating_in self.now.comms.state }
    {
        matches!(self.comms.state(), CommsState::Communicating)
    }

    /// Whether the equipment is on-line.
    pub(crate) fn is_online(&self) -> bool
        ensures { result ≡ is_online_in self.now.control.state }
    {
        matches!(
            self.control.state(),
            ControlState::Local | ControlState::Remote
        )
    }

    /// Whether the operator has the equipment on-line by himself.
    pub(crate) fn is_local(&self) -> bool
        ensures { result ≡ is_local_in self.now.control.state }
    {
        matches!(self.control.state(), ControlState::Local)
    }

    /// A report waits for its grant.
    pub(crate) fn keep(&mut self, waiting: ForGrant) -> Result<(), NoMemory>
        ensures { OnOk result (own_of self.new ≡
            with_for_grant (self.old.for_grant.items ++ waiting ∷ []) (own_of self.old)) }
    {
        match self.for_grant.push(waiting) {
            Ok(()) => Ok(()),
            Err(_failed) => Err(NoMemory),
        }
    }

    /// An S6F1 waits for its grant.
    pub(crate) fn keep_traced(&mut self, waiting: ForGrant) -> Result<(), NoMemory>
        ensures { OnOk result (own_of self.new ≡
            with_waiting_data (self.old.tracing.for_grant.items ++ waiting ∷ []) (own_of self.old)) }
    {
        match self.tracing.for_grant.push(waiting) {
            Ok(()) => Ok(()),
            Err(_failed) => Err(NoMemory),
        }
    }

    /// A report was sent, and awaits its answer.
    pub(crate) fn await_answer(&mut self, live: Live) -> Result<(), NoMemory>
        ensures { OnOk result (own_of self.new ≡
            with_reports (self.old.reports.items ++ live ∷ []) (own_of self.old)) }
    {
        match self.reports.push(live) {
            Ok(()) => Ok(()),
            Err(_failed) => Err(NoMemory),
        }
    }
}
