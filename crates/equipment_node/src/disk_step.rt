//! A step over the spool's disk. It is asked at three places alone: for more system bytes before all else, for the
//! works that are owed behind what the step is given, and for the oldest message before an unload goes on.

ghost use Rattle.std.specs.Prelude.{All, ◌≡◌, ◌≢◌, ◌∷◌, [], ◌<◌, ◌≤◌, ◌%◌, ◌^◌, ◌-◌, nat_le, length, List, ℕ, true};
ghost use Rattle.std.specs.Prelude.{Err, IfOk, IfSome, Some};
ghost use Rattle.std.specs.Option.{option_map};
ghost use Rattle.arrayvec.specs.ArrayVec.{array_vec_len};
ghost use Rattle.gem_spool.specs.Standing.{Standing, Stands, count_of};
ghost use Rattle.gem_spool.specs.Works.{AreDue, AreSizedOn};
ghost use Rattle.message_flow.specs.declared.step.Note.{Note};
ghost use Rattle.message_flow.specs.declared.step.StepOut.{StepOut as Out};
ghost use Rattle.trace_log.specs.Log.{Happening};
ghost use Rattle.trace_log.specs.declared.commands.ToolCommand.{ToolCommand};
ghost use Rattle.trace_log.specs.Commands.{ToolCommandFits};
ghost use Rattle.message_end.specs.declared.end.Stop.TheVariants.{DiskFailed, NumbersSpent};
ghost use Rattle.message_end.specs.Core.{Step, step_in};
ghost use Rattle.message_end.specs.Core.Went.{Goes};
ghost use Rattle.message_end.specs.Ends.{Input, IsEmpty, MayTake, input_of, printed};
ghost use Rattle.spool_ledger.specs.Ledger.{carried_out};
ghost use Rattle.spool_ledger.specs.Sizes.{oldest_of};
ghost use Rattle.spool_ledger.specs.Unloading.{next_number as unload_number};
ghost use Rattle.equipment_tables.specs.Tables.{most_transmitted};
ghost use Rattle.equipment_node.specs.Amid.{Acts, Carries, DoesLast, HasOpened, IsAt, IsBegun, IsCounted, IsReady};
ghost use Rattle.equipment_node.specs.Amid.{IsSendable, Opens, ReadsSo, StopsAt, WorksFit, WorksSo, asked_node};
ghost use Rattle.equipment_node.specs.Amid.{disk_worked, done_last, opened, settled_node, setup_if};
ghost use Rattle.setup_store.specs.Entries.{has_room};
ghost use Rattle.setup_store.specs.OnDisk.{HoldsKept};
ghost use Rattle.equipment_node.specs.Breaking.{BreaksBy, Passes};
ghost use Rattle.tool_step.specs.Disk.{read_works, reserve_works, standing_in, works_behind, works_of};
ghost use Rattle.spool_works.specs.DiskWorks.DiskWork.{ReadOldest};
ghost use Rattle.equipment_node.specs.DiskCalls.{CallsInStep};
ghost use Rattle.equipment_node.specs.HandedBack.{WorksHandBack};
ghost use Rattle.spool_works.specs.DiskCalls.{HasCalled, HasMade, all_disk_calls, disk_in};
ghost use Rattle.tool_step.specs.Equipment.{EquipmentView, begun_step, needs_numbers};
ghost use Rattle.spool_works.specs.HandedBack.{HandsBack};
ghost use Rattle.tool_step.specs.Losses.{losses, losses_of};
ghost use Rattle.tool_core.specs.Node.{node_of, own_of};
ghost use Rattle.tool_core.specs.Serving.{IsKept};
ghost use Rattle.tool_law.proofs.Offers.{IsOffered};
ghost use Rattle.tool_law.specs.Sound.{CanBeSent};
ghost use Rattle.tool_step.specs.Recipes.{RecipesView};
ghost use Rattle.equipment_node.specs.Keeping.{ByDisk, CanBeAsked, HandsBoth, HoldsServed, KeepsOf, LeavesRecipes};
ghost use Rattle.equipment_node.specs.Keeping.{StaysUnasked};
ghost use Rattle.equipment_node.specs.Stepping.{IsOn, IsTold, Steps};

use crate::notes_cut::cut_notes;
use crate::serving::serve_last;
use disk_base::Disk;
use gem_recipes::RecipeKeeper;
use gem_spool::{GemSpool, Kept, Unread, Work};
use message_end::Stop;
use message_flow::{NodeInput, StepOut};
use spool_file::body_most;
use spool_works::{Ended, carry_owed};
use std::alloc::Global;
use tool_core::{MORE, Spoolable, Tool, primary_function};
use trace_log::ToolCommand;

// Fewer system bytes than a step may need.
const FEW: u64 = 128;

/// One step. Where it stops nothing is sent.
pub(crate) fn step_on<D: Disk, K: RecipeKeeper>(
    tool: &mut Tool,
    alloc: Global,
    spool: GemSpool<D>,
    keeper: &mut K,
    input: NodeInput<'_, ToolCommand>,
    now: u64,
    out: &mut StepOut,
) -> Result<GemSpool<D>, Ended<D>>
    requires now { now < 2 ^ 62 }
    requires input { MayTake ToolCommandFits (input_of input) }
    requires out { IsEmpty out.old }
    requires ready { IsReady D.Disk spool.spool (node_of tool.old) }
    requires keeper { CanBeAsked K.RecipeKeeper keeper.old (own_of tool.old.own) }
    ensures ready { IfOk result (λ g. IsReady D.Disk g.spool (node_of tool.new)) }
    ensures keeper { IfOk result (λ g. CanBeAsked K.RecipeKeeper keeper.new (own_of tool.new.own)) }
    ensures steps { (s : EquipmentView) → node_of tool.old ≡ s.node → IsOn D.Disk spool.spool s
        → IsTold (D.told spool.spool.disk) → KeepsOf K.RecipeKeeper keeper.old s
        → Steps D.Disk s (input_of input.entry) now (node_of tool.new) out.new result }
    ensures recipes { (s : EquipmentView) → node_of tool.old ≡ s.node → IsOn D.Disk spool.spool s
        → IsTold (D.told spool.spool.disk) → IsKept K.RecipeKeeper keeper.old s.recipes
        → LeavesRecipes K.RecipeKeeper s (input_of input.entry) now keeper.new result }
    ensures calls { (s : EquipmentView) → node_of tool.old ≡ s.node → IsOn D.Disk spool.spool s
        → IsTold (D.told spool.spool.disk)
        → ByDisk K.RecipeKeeper keeper.old keeper.new
        (HasCalled D.Disk disk_in spool.spool.disk (standing_in s) (works_of s (input_of input.entry) now))
        (λ disk. HasMade D.Disk spool.spool.disk disk
        (all_disk_calls (standing_in s) (works_of s (input_of input.entry) now)))
        result }
    ensures breaks { (s : EquipmentView) → node_of tool.old ≡ s.node → IsOn D.Disk spool.spool s
        → IsTold (D.told spool.spool.disk)
        → ByDisk K.RecipeKeeper keeper.old keeper.new
        (BreaksBy D.Disk disk_in spool.spool.disk (losses s (input_of input.entry) now) out.new.notes)
        (Passes D.Disk spool.spool.disk (losses s (input_of input.entry) now))
        result }
    ensures back { HandsBoth D.Disk disk_in spool.spool.disk K.RecipeKeeper keeper.old keeper.new result }
    ensures unasked { StaysUnasked K.RecipeKeeper keeper.old keeper.new }
{
    match whole_step(tool, alloc, spool, keeper, input, now, out) {
        Ok(spool) => Ok(spool),
        Err(ended) => {
            out.line.clear();
            Err(ended)
        }
    }
}

// All of a step.
fn whole_step<D: Disk, K: RecipeKeeper>(
    tool: &mut Tool,
    alloc: Global,
    spool: GemSpool<D>,
    keeper: &mut K,
    input: NodeInput<'_, ToolCommand>,
    now: u64,
    out: &mut StepOut,
) -> Result<GemSpool<D>, Ended<D>>
    requires now { now < 2 ^ 62 }
    requires input { MayTake ToolCommandFits (input_of input) }
    requires out { IsEmpty out.old }
    requires ready { IsReady D.Disk spool.spool (node_of tool.old) }
    requires keeper { CanBeAsked K.RecipeKeeper keeper.old (own_of tool.old.own) }
    ensures ready { IfOk result (λ g. IsReady D.Disk g.spool (node_of tool.new)) }
    ensures keeper { IfOk result (λ g. CanBeAsked K.RecipeKeeper keeper.new (own_of tool.new.own)) }
    ensures acts { (s : EquipmentView) → node_of tool.old ≡ s.node → IsOn D.Disk spool.spool s
        → IsTold (D.told spool.spool.disk) → KeepsOf K.RecipeKeeper keeper.old s
        → Acts D.Disk s (input_of input.entry) now (node_of tool.new) out.new result }
    ensures recipes { (s : EquipmentView) → node_of tool.old ≡ s.node → IsOn D.Disk spool.spool s
        → IsTold (D.told spool.spool.disk) → IsKept K.RecipeKeeper keeper.old s.recipes
        → LeavesRecipes K.RecipeKeeper s (input_of input.entry) now keeper.new result }
    ensures calls { (s : EquipmentView) → node_of tool.old ≡ s.node → IsOn D.Disk spool.spool s
        → IsTold (D.told spool.spool.disk)
        → ByDisk K.RecipeKeeper keeper.old keeper.new
        (HasCalled D.Disk disk_in spool.spool.disk (standing_in s) (works_of s (input_of input.entry) now))
        (λ disk. HasMade D.Disk spool.spool.disk disk
        (all_disk_calls (standing_in s) (works_of s (input_of input.entry) now)))
        result }
    ensures breaks { (s : EquipmentView) → node_of tool.old ≡ s.node → IsOn D.Disk spool.spool s
        → IsTold (D.told spool.spool.disk)
        → ByDisk K.RecipeKeeper keeper.old keeper.new
        (BreaksBy D.Disk disk_in spool.spool.disk (losses s (input_of input.entry) now) out.new.notes)
        (Passes D.Disk spool.spool.disk (losses s (input_of input.entry) now))
        result }
    ensures back { HandsBoth D.Disk disk_in spool.spool.disk K.RecipeKeeper keeper.old keeper.new result }
    ensures unasked { StaysUnasked K.RecipeKeeper keeper.old keeper.new }
{
    match step_works(tool, alloc, spool, input, now, out) {
        Ok((spool, oldest)) => serve_last(tool, alloc, spool, keeper, oldest, now, out),
        Err(ended) => Err(ended),
    }
}

// All that the disk is asked in a step: what comes behind it are the last parts.
fn step_works<D: Disk>(
    tool: &mut Tool,
    alloc: Global,
    spool: GemSpool<D>,
    input: NodeInput<'_, ToolCommand>,
    now: u64,
    out: &mut StepOut,
) -> Result<(GemSpool<D>, Option<(u64, Spoolable)>), Ended<D>>
    requires now { now < 2 ^ 62 }
    requires input { MayTake ToolCommandFits (input_of input) }
    requires out { IsEmpty out.old }
    requires ready { IsReady D.Disk spool.spool (node_of tool.old) }
    ensures ready { IfOk result (λ worked. IsReady D.Disk worked.0.spool (node_of tool.new)) }
    ensures offers { IfOk result (λ worked. IsOffered (own_of tool.old.own) (own_of tool.new.own)) }
    ensures can { IfOk result (λ worked. IsSendable worked.1) }
    ensures room { IfOk result (λ worked. array_vec_len out.new.line ≤ 514) }
    ensures acts { (s : EquipmentView) → node_of tool.old ≡ s.node → IsOn D.Disk spool.spool s
        → IsTold (D.told spool.spool.disk)
        → WorksSo D.Disk s (input_of input.entry) now (node_of tool.new) out.new result }
    ensures calls { (s : EquipmentView) → node_of tool.old ≡ s.node → IsOn D.Disk spool.spool s
        → CallsInStep D.Disk disk_worked spool.spool.disk s (input_of input.entry) now result }
    ensures breaks { (s : EquipmentView) → node_of tool.old ≡ s.node → IsOn D.Disk spool.spool s
        → IsTold (D.told spool.spool.disk)
        → BreaksBy D.Disk disk_worked spool.spool.disk (losses s (input_of input.entry) now) out.new.notes result }
    ensures disk { WorksHandBack D.Disk spool.spool.disk result }
{
    match reserve(tool, spool, out) {
        Ok(spool) => from_input(tool, alloc, spool, input, now, out),
        Err(ended) => Err(ended),
    }
}

// More system bytes are reserved where few are left.
fn reserve<D: Disk>(
    tool: &mut Tool,
    spool: GemSpool<D>,
    out: &mut StepOut,
) -> Result<GemSpool<D>, Ended<D>>
    requires ready { IsReady D.Disk spool.spool (node_of tool.old) }
    ensures opens { (s : EquipmentView) → node_of tool.old ≡ s.node → IsOn D.Disk spool.spool s
        → IsTold (D.told spool.spool.disk) → Opens D.Disk s (node_of tool.new) result }
    ensures calls { (s : EquipmentView) → node_of tool.old ≡ s.node → IsOn D.Disk spool.spool s
        → IsTold (D.told spool.spool.disk)
        → HasCalled D.Disk disk_in spool.spool.disk (standing_in s) (reserve_works s) result }
    ensures breaks { (s : EquipmentView) → node_of tool.old ≡ s.node → IsOn D.Disk spool.spool s
        → IsTold (D.told spool.spool.disk) → out.old.notes ≡ []
        → BreaksBy D.Disk disk_in spool.spool.disk (losses_of s (standing_in s) [] (reserve_works s) [])
        out.new.notes result }
    ensures ready { IfOk result (λ g. IsReady D.Disk g.spool (node_of tool.new)) }
    ensures own { own_of tool.new.own ≡ own_of tool.old.own }
    ensures notes { out.new.notes ≡ out.old.notes }
    ensures line { out.new.line.items ≡ out.old.line.items }
    ensures disk { HandsBack D.Disk spool.spool.disk result }
{
    if has_enough(tool) {
        return Ok(spool);
    }
    reserve_more(tool, spool, out)
}

// Whether as many system bytes are left as a step may need.
fn has_enough(tool: &Tool) -> bool
    ensures { result ≡ nat_le 128 (tool.now.core.numbers.end - tool.now.core.numbers.next) }
{
    tool.core.left() >= FEW
}

// More system bytes are reserved.
fn reserve_more<D: Disk>(
    tool: &mut Tool,
    spool: GemSpool<D>,
    out: &mut StepOut,
) -> Result<GemSpool<D>, Ended<D>>
    requires ready { IsReady D.Disk spool.spool (node_of tool.old) }
    ensures opens { (s : EquipmentView) → node_of tool.old ≡ s.node → needs_numbers s ≡ true
        → IsOn D.Disk spool.spool s → IsTold (D.told spool.spool.disk)
        → Opens D.Disk s (node_of tool.new) result }
    ensures calls { (s : EquipmentView) → node_of tool.old ≡ s.node → needs_numbers s ≡ true
        → IsOn D.Disk spool.spool s → IsTold (D.told spool.spool.disk)
        → HasCalled D.Disk disk_in spool.spool.disk (standing_in s) (reserve_works s) result }
    ensures breaks { (s : EquipmentView) → node_of tool.old ≡ s.node → needs_numbers s ≡ true
        → IsOn D.Disk spool.spool s → IsTold (D.told spool.spool.disk) → out.old.notes ≡ []
        → BreaksBy D.Disk disk_in spool.spool.disk (losses_of s (standing_in s) [] (reserve_works s) [])
        out.new.notes result }
    ensures ready { IfOk result (λ g. IsReady D.Disk g.spool (node_of tool.new)) }
    ensures own { own_of tool.new.own ≡ own_of tool.old.own }
    ensures notes { out.new.notes ≡ out.old.notes }
    ensures line { out.new.line.items ≡ out.old.line.items }
    ensures disk { HandsBack D.Disk spool.spool.disk result }
{
    match spool.reserve() {
        Ok((spool, Some(_))) => {
            tool.core.more(MORE, out);
            Ok(spool)
        }
        Ok((spool, None)) => Err(Ended::NumbersSpent(spool.retire())),
        Err(spent) => Err(Ended::DiskFailed(spent)),
    }
}

// The same of a step that has system bytes enough.
fn from_input<D: Disk>(
    tool: &mut Tool,
    alloc: Global,
    spool: GemSpool<D>,
    input: NodeInput<'_, ToolCommand>,
    now: u64,
    out: &mut StepOut,
) -> Result<(GemSpool<D>, Option<(u64, Spoolable)>), Ended<D>>
    requires now { now < 2 ^ 62 }
    requires input { MayTake ToolCommandFits (input_of input) }
    requires out { IsEmpty out.old }
    requires ready { IsReady D.Disk spool.spool (node_of tool.old) }
    ensures ready { IfOk result (λ worked. IsReady D.Disk worked.0.spool (node_of tool.new)) }
    ensures offers { IfOk result (λ worked. IsOffered (own_of tool.old.own) (own_of tool.new.own)) }
    ensures can { IfOk result (λ worked. IsSendable worked.1) }
    ensures room { IfOk result (λ worked. array_vec_len out.new.line ≤ 514) }
    ensures acts { (s : EquipmentView) → HasOpened D.Disk s (node_of tool.old) spool
        → WorksSo D.Disk s (input_of input.entry) now (node_of tool.new) out.new result }
    ensures calls { (s : EquipmentView) → HasOpened D.Disk s (node_of tool.old) spool
        → HasCalled D.Disk disk_worked spool.spool.disk (standing_in (opened s))
        (works_behind (begun_step s (input_of input.entry) now))
        result }
    ensures breaks { (s : EquipmentView) → HasOpened D.Disk s (node_of tool.old) spool
        → BreaksBy D.Disk disk_worked spool.spool.disk
        (losses_of s (standing_in (opened s)) [] (works_behind (begun_step s (input_of input.entry) now))
        (step_in (begun_step s (input_of input.entry) now)).notes)
        out.new.notes result }
    ensures disk { WorksHandBack D.Disk spool.spool.disk result }
{
    match tool.do_first(alloc, input, now, out) {
        Ok(()) => from_works(tool, alloc, spool, out),
        Err(stop) => Err(end_early(tool, alloc, spool, stop, out)),
    }
}

// The works, and what is read behind them.
fn from_works<D: Disk>(
    tool: &mut Tool,
    alloc: Global,
    spool: GemSpool<D>,
    out: &mut StepOut,
) -> Result<(GemSpool<D>, Option<(u64, Spoolable)>), Ended<D>>
    requires ready { IsReady D.Disk spool.spool (node_of tool.old) }
    ensures ready { IfOk result (λ worked. IsReady D.Disk worked.0.spool (node_of tool.new)) }
    ensures offers { IfOk result (λ worked. IsOffered (own_of tool.old.own) (own_of tool.new.own)) }
    ensures can { IfOk result (λ worked. IsSendable worked.1) }
    ensures line { out.new.line ≡ out.old.line }
    ensures acts { (s : EquipmentView) → (input : Input ToolCommand) → (now : ℕ)
        → IsBegun s input now (node_of tool.old) out.old → HasOpened D.Disk s (opened s).node spool
        → WorksSo D.Disk s input now (node_of tool.new) out.new result }
    ensures calls { (s : EquipmentView) → (input : Input ToolCommand) → (now : ℕ)
        → IsBegun s input now (node_of tool.old) out.old → HasOpened D.Disk s (opened s).node spool
        → HasCalled D.Disk disk_worked spool.spool.disk (standing_in (opened s))
        (works_behind (begun_step s input now))
        result }
    ensures breaks { (s : EquipmentView) → (input : Input ToolCommand) → (now : ℕ)
        → IsBegun s input now (node_of tool.old) out.old → HasOpened D.Disk s (opened s).node spool
        → BreaksBy D.Disk disk_worked spool.spool.disk
        (losses_of s (standing_in (opened s)) [] (works_behind (begun_step s input now))
        (step_in (begun_step s input now)).notes)
        out.new.notes result }
    ensures disk { WorksHandBack D.Disk spool.spool.disk result }
{
    match carry_out(tool, alloc, spool, true, out) {
        Ok(spool) => from_read(tool, alloc, spool),
        Err(ended) => Err(ended),
    }
}

// The step stops before its works are done. Where memory was wanting, it is as if the disk had failed at the first.
fn end_early<D: Disk>(
    tool: &mut Tool,
    alloc: Global,
    spool: GemSpool<D>,
    stop: Stop,
    out: &mut StepOut,
) -> Ended<D>
    requires counted { stop ≡ NumbersSpent → IsCounted D.Disk spool.spool tool.old.own.ledger }
    requires holds { HoldsKept D.Disk spool.spool }
    ensures acts { (s : EquipmentView) → (input : Input ToolCommand) → (now : ℕ)
        → StopsAt s input now (node_of tool.old) out.old stop → HasOpened D.Disk s (opened s).node spool
        → Acts D.Disk s input now (node_of tool.new) out.new (Err result) }
    ensures calls { (s : EquipmentView) → (input : Input ToolCommand) → (now : ℕ)
        → StopsAt s input now (node_of tool.old) out.old stop → HasOpened D.Disk s (opened s).node spool
        → HasCalled D.Disk disk_in spool.spool.disk (standing_in (opened s))
        (works_behind (begun_step s input now))
        (Err result) }
    ensures breaks { (s : EquipmentView) → (input : Input ToolCommand) → (now : ℕ)
        → StopsAt s input now (node_of tool.old) out.old stop → HasOpened D.Disk s (opened s).node spool
        → BreaksBy D.Disk disk_in spool.spool.disk
        (losses_of s (standing_in (opened s)) [] (works_behind (begun_step s input now))
        (step_in (begun_step s input now)).notes)
        out.new.notes (Err result) }
    ensures disk { stop ≢ DiskFailed → HandsBack D.Disk spool.spool.disk (Err result) }
{
    match stop {
        Stop::NumbersSpent => stop_spent(tool, alloc, spool, out),
        Stop::NoMemory => {
            cut_notes(&mut out.notes, 0);
            Ended::NoMemory(spool.retire())
        }
        // (no part of a step fills the spool, or asks the disk)
        Stop::Full => Ended::NoMemory(spool.retire()),
        Stop::DiskFailed => Ended::DiskFailed(spool.retire()),
    }
}

// A number was wanting: the changes of the list are carried out still.
fn stop_spent<D: Disk>(
    tool: &mut Tool,
    alloc: Global,
    spool: GemSpool<D>,
    out: &mut StepOut,
) -> Ended<D>
    requires counted { IsCounted D.Disk spool.spool tool.old.own.ledger }
    requires holds { HoldsKept D.Disk spool.spool }
    ensures acts { (s : EquipmentView) → (input : Input ToolCommand) → (now : ℕ)
        → StopsAt s input now (node_of tool.old) out.old NumbersSpent → HasOpened D.Disk s (opened s).node spool
        → Acts D.Disk s input now (node_of tool.new) out.new (Err result) }
    ensures calls { (s : EquipmentView) → (input : Input ToolCommand) → (now : ℕ)
        → StopsAt s input now (node_of tool.old) out.old NumbersSpent → HasOpened D.Disk s (opened s).node spool
        → HasCalled D.Disk disk_in spool.spool.disk (standing_in (opened s))
        (works_behind (begun_step s input now))
        (Err result) }
    ensures breaks { (s : EquipmentView) → (input : Input ToolCommand) → (now : ℕ)
        → StopsAt s input now (node_of tool.old) out.old NumbersSpent → HasOpened D.Disk s (opened s).node spool
        → BreaksBy D.Disk disk_in spool.spool.disk
        (losses_of s (standing_in (opened s)) [] (works_behind (begun_step s input now))
        (step_in (begun_step s input now)).notes)
        out.new.notes (Err result) }
    ensures disk { HandsBack D.Disk spool.spool.disk (Err result) }
{
    match carry_out(tool, alloc, spool, false, out) {
        Ok(spool) => Ended::NumbersSpent(spool.retire()),
        Err(ended) => ended,
    }
}

// Carries out what is owed, with the keep of the setup or without. Where the disk fails the notes end with the line of
// that work.
fn carry_out<D: Disk>(
    tool: &mut Tool,
    alloc: Global,
    spool: GemSpool<D>,
    keeps: bool,
    out: &mut StepOut,
) -> Result<GemSpool<D>, Ended<D>>
    requires counted { IsCounted D.Disk spool.spool tool.old.own.ledger }
    requires holds { HoldsKept D.Disk spool.spool }
    ensures works { Carries D.Disk spool tool.old.own.ledger.works (setup_if keeps (node_of tool.old).own) out.old
        out.new result }
    ensures node { node_of tool.new ≡ settled_node (node_of tool.old) }
    ensures fit { WorksFit tool.old.own.ledger }
    ensures line { out.new.line ≡ out.old.line }
    ensures holds { IfOk result (λ g. HoldsKept D.Disk g.spool) }
{
    let works = tool.own.ledger.take_works(alloc);
    carry_all(spool, works.as_slice(), bytes_to_keep(tool, keeps), out)
}

// The bytes of a setup that are to be kept with them, if they are.
fn bytes_to_keep(tool: &Tool, keeps: bool) -> Option<&[u8]>
    ensures are { option_map (λ bytes. bytes.now) result ≡ setup_if keeps (node_of tool.now).own }
    ensures room { IfSome result (λ bytes. has_room bytes.now ≡ true) }
{
    if !keeps {
        return None;
    }
    tool.to_keep()
}

// The oldest message is read, where it is to be taken up.
fn from_read<D: Disk>(
    tool: &mut Tool,
    alloc: Global,
    spool: GemSpool<D>,
) -> Result<(GemSpool<D>, Option<(u64, Spoolable)>), Ended<D>>
    requires ready { IsReady D.Disk spool.spool (node_of tool.old) }
    requires owes { carried_out tool.old.own.ledger ≡ tool.old.own.ledger }
    ensures ready { IfOk result (λ worked. IsReady D.Disk worked.0.spool (node_of tool.new)) }
    ensures offers { IfOk result (λ worked. IsOffered (own_of tool.old.own) (own_of tool.new.own)) }
    ensures can { IfOk result (λ worked. IsSendable worked.1) }
    ensures reads { (t : Step EquipmentView Happening) → (out : Out) → (now : ℕ)
        → IsAt D.Disk t (node_of tool.old) out spool → ReadsSo D.Disk now t (node_of tool.new) out result }
    ensures calls { (t : Step EquipmentView Happening) → (out : Out) → IsAt D.Disk t (node_of tool.old) out spool
        → HasCalled D.Disk disk_worked spool.spool.disk (standing_in t.next) (read_works (Goes t)) result }
    ensures breaks { (t : Step EquipmentView Happening) → (out : Out) → IsAt D.Disk t (node_of tool.old) out spool
        → (s : EquipmentView) → BreaksBy D.Disk disk_worked spool.spool.disk
        (losses_of s (standing_in t.next) [] (read_works (Goes t)) t.notes) out.notes result }
    ensures disk { WorksHandBack D.Disk spool.spool.disk result }
{
    match tool.next_unload() {
        Some(number) => read_oldest(tool, alloc, spool, number),
        None => Ok((spool, None)),
    }
}

// It is read slot by slot, to be taken up under this number.
fn read_oldest<D: Disk>(
    tool: &Tool,
    alloc: Global,
    spool: GemSpool<D>,
    number: u64,
) -> Result<(GemSpool<D>, Option<(u64, Spoolable)>), Ended<D>>
    requires ready { IsReady D.Disk spool.spool (node_of tool.now) }
    requires owes { carried_out tool.now.own.ledger ≡ tool.now.own.ledger }
    ensures ready { IfOk result (λ worked. IsReady D.Disk worked.0.spool (node_of tool.now)) }
    ensures can { IfOk result (λ worked. IsSendable worked.1) }
    ensures reads { (t : Step EquipmentView Happening) → (out : Out) → (now : ℕ)
        → node_of tool.now ≡ asked_node t.next.node
        → unload_number (most_transmitted t.next.node.own.tables) t.next.node.own.ledger ≡ Some number
        → IsAt D.Disk t t.next.node out spool → ReadsSo D.Disk now t (node_of tool.now) out result }
    ensures calls { (st : Standing) → Stands D.Disk spool.spool st → 0 < length st.file.list
        → HasCalled D.Disk disk_worked spool.spool.disk st (ReadOldest (oldest_of tool.now.own.ledger.sizes) ∷ [])
        result }
    ensures breaks { (s : EquipmentView) → (st : Standing) → Stands D.Disk spool.spool st → 0 < length st.file.list
        → IsTold (D.told spool.spool.disk) → (front : List Happening) → (notes : List Note) → notes ≡ printed front
        → BreaksBy D.Disk disk_worked spool.spool.disk
        (losses_of s st [] (ReadOldest (oldest_of tool.now.own.ledger.sizes) ∷ []) front) notes result }
    ensures disk { WorksHandBack D.Disk spool.spool.disk result }
{
    let mut spool = spool;
    let slots = tool.own.ledger.oldest_size();
    match spool.oldest_message(alloc, slots) {
        Ok(kept) => {
            let report = report_of(kept);
            Ok((spool, Some((number, report))))
        }
        Err(Unread::Empty) => Ok((spool, None)),
        Err(Unread::Failed) => Err(Ended::DiskFailed(spool.retire())),
        Err(Unread::NoMemory) => Err(Ended::NoMemory(spool.retire())),
    }
}

/// The last parts, with what was read.
pub(crate) fn end_with<D: Disk>(
    tool: &mut Tool,
    alloc: Global,
    spool: GemSpool<D>,
    oldest: Option<(u64, Spoolable)>,
    now: u64,
    out: &mut StepOut,
) -> Result<GemSpool<D>, Ended<D>>
    requires now { now < 2 ^ 62 }
    requires room { array_vec_len out.old.line ≤ 514 }
    requires ready { IsReady D.Disk spool.spool (node_of tool.old) }
    requires can { IsSendable oldest }
    ensures ready { IfOk result (λ g. IsReady D.Disk g.spool (node_of tool.new)) }
    ensures offers { IfOk result (λ g. IsOffered (own_of tool.old.own) (own_of tool.new.own)) }
    ensures ends { DoesLast
        D.Disk
        spool
        (done_last oldest now)
        (node_of tool.old)
        out.old
        (node_of tool.new)
        out.new
        result }
{
    match tool.do_last(alloc, oldest, now, out) {
        Ok(()) => Ok(spool),
        Err(Stop::NoMemory) => Err(Ended::NoMemory(spool.retire())),
        Err(Stop::NumbersSpent) => Err(Ended::NumbersSpent(spool.retire())),
        Err(Stop::Full) => Err(Ended::NoMemory(spool.retire())),
        Err(Stop::DiskFailed) => Err(Ended::DiskFailed(spool.retire())),
    }
}

// Carries works out, and keeps a setup. Where the disk fails at one the notes end with its line.
fn carry_all<D: Disk>(
    spool: GemSpool<D>,
    works: &[Work],
    setup: Option<&[u8]>,
    out: &mut StepOut,
) -> Result<GemSpool<D>, Ended<D>>
    requires due { AreDue (count_of spool.spool) works.now }
    requires sized { AreSizedOn D.Disk spool.spool works.now }
    requires holds { HoldsKept D.Disk spool.spool }
    requires room { IfSome setup (λ bytes. has_room bytes.now ≡ true) }
    ensures works { Carries D.Disk spool works.now (option_map (λ bytes. bytes.now) setup.entry) out.old
        out.new result }
    ensures line { out.new.line ≡ out.old.line }
    ensures holds { IfOk result (λ g. HoldsKept D.Disk g.spool) }
{
    match carry_owed(spool, works, setup) {
        Ok(spool) => Ok(spool),
        Err(undone) => {
            cut_notes(&mut out.notes, undone.at);
            Err(Ended::DiskFailed(undone.spent))
        }
    }
}

// What was read, as a report that can be sent. A disk may give any bytes.
fn report_of(kept: Kept) -> Spoolable
    ensures can { CanBeSent result }
    ensures is { kept.stream < 128 → kept.function % 2 ≡ 1 → length kept.body ≤ 1048576
        → result ≡ record { stream = kept.stream; function = kept.function; body = kept.body } }
{
    let Kept {
        stream,
        function,
        mut body,
    } = kept;
    body.truncate(body_most(2) as usize);
    are_bytes(body.as_slice());
    Spoolable::of_kept(Kept {
        stream: stream % 128,
        function: primary_function(function),
        body,
    })
}

// Tells that they are bytes.
fn are_bytes(bytes: &[u8])
    ensures { All (λ byte. byte < 256) bytes.now }
{
    let _ = bytes;
}
