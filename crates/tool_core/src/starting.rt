//! The equipment as it starts, with what is known of its spool, and when it next acts by itself.

ghost use Rattle.std.specs.Prelude.{◌≡◌, ◌+◌, ◌≤◌, ◌^◌, ◌++◌, [], length, IfOk};
ghost use Rattle.equipment_tables.specs.Tables.{planned_tables};
ghost use Rattle.message_end.specs.Ends.{printed};
ghost use Rattle.tool_step.specs.Setup.{carried_lines, found_list};
ghost use Rattle.trace_log.specs.Text.{IsStartNote};
ghost use Rattle.equipment_tables.specs.Plan.{EquipmentPlanFits};
ghost use Rattle.tool_core.specs.Node.{node_of};
ghost use Rattle.tool_core.specs.Starting.{IsNotedBehind, IsStartNoted, new_node};
ghost use Rattle.tool_step.specs.Step.{deadline_of};

use crate::own::{Own, Tool};
use crate::setup::{KeptSetup, note_setup};
use equipment_tables::EquipmentPlan;
use gl_base::{NoMemory, Side};
use message_end::{MessageEnd, least};
use message_flow::StepOut;
use spool_ledger::Ledger;
use std::alloc::Global;
use tool_step::Kind;
use trace_log::equipment_started_note;

/// How many system bytes are reserved at once.
pub const MORE: u32 = 4_096;

impl Tool {
    /// A start, which is noted, with the setup that was found, where the file has room for one, with what is known of
    /// the spool, and with the system bytes from a base on. The setup is carried out, and what is refused of it noted.
    pub fn start_on(
        alloc: Global,
        plan: &EquipmentPlan,
        setup: Option<KeptSetup>,
        ledger: Ledger,
        base: u32,
        out: &mut StepOut,
    ) -> Result<Box<Tool>, NoMemory>
        requires plan { EquipmentPlanFits plan.now }
        requires numbers { base + 4096 ≤ 2 ^ 32 }
        ensures node { IfOk result (λ tool. node_of tool.value ≡ new_node plan.now setup ledger base) }
        ensures noted { IfOk result (λ tool. IsStartNoted plan.now setup (length ledger.sizes) base out.old out.new) }
        ensures line { out.new.line ≡ out.old.line }
    {
        note_start(alloc, u64::from(ledger.len()), u64::from(base), out)?;
        note_setup(alloc, &setup, out)?;
        boxed(alloc, Tool::start(alloc, plan, setup, ledger, base, out)?)
    }

    // As it starts, with its setup carried out.
    fn start(
        alloc: Global,
        plan: &EquipmentPlan,
        setup: Option<KeptSetup>,
        ledger: Ledger,
        base: u32,
        out: &mut StepOut,
    ) -> Result<Tool, NoMemory>
        requires plan { EquipmentPlanFits plan.now }
        requires numbers { base + 4096 ≤ 2 ^ 32 }
        ensures node { IfOk result (λ tool. node_of tool ≡ new_node plan.now setup ledger base) }
        ensures notes { IfOk result (λ tool. out.new.notes
            ≡ out.old.notes ++ printed (carried_lines (planned_tables plan.now) (found_list setup))) }
        ensures line { out.new.line ≡ out.old.line }
    {
        let core: MessageEnd<Kind> = MessageEnd::new(
            alloc,
            Side::Equipment,
            &plan.line,
            base,
            u64::from(MORE),
        )?;
        let copy = plan.copy(alloc)?;
        let own = Own::new(alloc, copy, setup, ledger, out)?;
        Ok(Tool { core, own })
    }

    /// When it next acts by itself.
    pub fn deadline(&self) -> Option<u64>
        ensures { result ≡ deadline_of (node_of self.now) }
    {
        let timers = least(self.core.deadline(), self.own.comms.deadline());
        least(timers, self.own.tracing.running.deadline())
    }
}

// Puts what the equipment keeps on the heap.
fn boxed(alloc: Global, tool: Tool) -> Result<Box<Tool>, NoMemory>
    ensures { IfOk result (λ boxed. boxed.value ≡ tool) }
{
    match Box::new(alloc, tool) {
        Ok(boxed) => Ok(boxed),
        Err(_failed) => Err(NoMemory),
    }
}

// Notes a start that finds so many messages, with this first number.
fn note_start(alloc: Global, len: u64, base: u64, out: &mut StepOut) -> Result<(), NoMemory>
    ensures noted { IfOk result (λ done. IsNotedBehind (IsStartNote len base) [] out.old out.new) }
    ensures line { out.new.line ≡ out.old.line }
{
    out.notes.push(equipment_started_note(alloc, len, base)?)
}
