//! The equipment over the disk of its spool.

ghost use Rattle.std.specs.Prelude.{◌≡◌, ◌+◌, ◌≤◌, ◌<◌, ◌^◌, [], IfOk, Some, true};
ghost use Rattle.line_end.specs.Step.{is_due};
ghost use Rattle.disk_base.specs.MemDisk.{HasFitted};
ghost use Rattle.disk_base.specs.Story.{Story};
ghost use Rattle.gem_spool.specs.Standing.{standing_of};
ghost use Rattle.setup_store.specs.OnDisk.{HoldsKept};
ghost use Rattle.spool_file.specs.File.{file_in};
ghost use Rattle.trace_log.specs.Commands.{ToolCommandFits};
ghost use Rattle.message_end.specs.Ends.{IsEmpty, MayTake, input_of};
ghost use Rattle.equipment_tables.specs.Plan.{EquipmentPlanFits};
ghost use Rattle.equipment_node.specs.HandedBack.{StartHandsBack};
ghost use Rattle.equipment_node.specs.Held.{Begins, FindsFile, IsIn, Moves, by_disk, keeper_started, kept_by};
ghost use Rattle.equipment_node.specs.Held.{starting_by, unstarted_by};
ghost use Rattle.equipment_node.specs.Stepped.{BothBack, BreaksAfter, CallsAfter, KeeperUnasked, RecipesAfter};
ghost use Rattle.spool_ledger.specs.Ledger.{new_ledger};
ghost use Rattle.tool_core.specs.Node.{node_of};
ghost use Rattle.equipment_node.specs.SpentSteps.{IsSpentByCause, IsStartSpentByCause};
ghost use Rattle.equipment_node.specs.FoundSetup.{FindsSetup};
ghost use Rattle.equipment_node.specs.MadeReady.{MakesReady, UpgradesOnce, ready_calls};
ghost use Rattle.equipment_node.specs.StartCalls.{CallsInStart, StartAsks, StartMoves, reserve_calls};
ghost use Rattle.equipment_node.specs.StartOver.{IsFresh, KeepsSure, StartsFrom, StartsOver, StartsWith};
ghost use Rattle.equipment_node.specs.StartSizes.{AreSizes};
ghost use Rattle.tool_step.specs.Setup.{setup_in};
ghost use Rattle.tool_step.specs.Step.{deadline_of};

use crate::disk_step::step_on;
use crate::ended::{Ended, with_keeper};
use crate::sizes::{Unsized, read_sizes};
use disk_base::{Disk, MemDisk};
use equipment_tables::EquipmentPlan;
use gem_recipes::{NoRecipes, RecipeKeeper};
use gem_spool::GemSpool;
use gl_base::{NoMemory, Row};
use line_end::Phase;
use message_flow::{NodeInput, StepOut};
use setup_store::{Loading, load};
use spool_file::NotSpool;
use spool_ledger::Ledger;
use spool_slots::{Raw, Recovering, Spent, Spool};
use std::alloc::Global;
use std::marker::Model;
use tool_core::{KeptSetup, Tool};
use trace_log::ToolCommand;

/// The equipment: a GEM tool at its end of the line, with the spool on its disk, and a keeper of the recipes that a
/// host is offered, if it is any. All else that it keeps is on the heap, so that it is cheap to move.
#[derive(Drop)]
pub struct Equipment<D: Disk, K: RecipeKeeper> {
    tool: Box<Tool>,
    spool: GemSpool<D>,
    keeper: K,
}

impl<D: Disk, K: RecipeKeeper> Model for Equipment<D, K> {
    ghost use Rattle.tool_core.specs.contracts.own.Tool as tool_code;
    ghost use Rattle.equipment_node.specs.Amid.{IsReady};
    ghost use Rattle.equipment_node.specs.Held.{Held, held_code};
    ghost use Rattle.equipment_node.specs.Keeping.{CanBeAsked};
    ghost use Rattle.tool_core.specs.Node.{node_of, own_of};

    ghost Value = { Held D K };

    ghost coded = { held_code tool_code.the_row.coded D.code K.code };

    ghost view = { λ inside. record { tool = inside.tool.value; spool = inside.spool; keeper = inside.keeper } };

    ghost invariant = { λ inside. IsReady D.Disk inside.spool.spool (node_of inside.tool.value)
        × CanBeAsked K.RecipeKeeper inside.keeper (own_of inside.tool.value.own) };
}

/// Why an equipment didn't start. Its device is handed back, and the keeper of its recipes, which wasn't asked.
#[derive(Debug, Drop)]
pub enum Starting<D, K> {
    /// Memory was wanting for its setup, for the sizes of its messages, two bytes each, or for the tool.
    NoMemory(Spent<D>, K),
    /// The device's bytes stand for no spool, or its setup is none: the first place at which they break.
    NotSpool(Raw<D>, NotSpool, K),
    /// A call of the disk failed.
    DiskFailed(Spent<D>, K),
    /// No system bytes are left.
    NumbersSpent(Spent<D>, K),
}

impl<D: Disk, K: RecipeKeeper> Equipment<D, K> {
    /// A start: the spool is taken up from its device and made one of version 2, system bytes are reserved there, and
    /// the setup that is kept there is carried out, if the file has an area. The plan is copied where it is kept, and
    /// must fit. The disk's calls are a sync, a read of what is in front of the slots, those of the slots, one or two
    /// reads of the setup, a read of each message's first slot, the four of an upgrade where the file is of version 1,
    /// and those five that move the mark, up to the first that fails. `NumbersSpent` comes where the mark of
    /// the file can't move on, and nowhere else, and no start goes on there. Whether the disk tells its bytes or not,
    /// it is handed back with its file, and counts a fault where the answer is `DiskFailed` and nowhere else. A disk of
    /// which no call is to fail stays such. A host is offered the recipes of the keeper where that offers them; it is
    /// asked for nothing else, and comes back as it was.
    pub fn start(
        alloc: Global,
        plan: &EquipmentPlan,
        raw: Raw<D>,
        keeper: K,
        now: u64,
        out: &mut StepOut,
    ) -> Result<Equipment<D, K>, Starting<D, K>>
        requires plan { EquipmentPlanFits plan.now }
        requires keeper { K.offers_is keeper ≡ true → K.sound keeper }
        requires out { IsEmpty out.old }
        ensures begins { (s : Story) → D.told raw.disk ≡ Some s
            → Begins D.Disk K.RecipeKeeper plan.now s out.new result }
        ensures spent { (s : Story) → D.told raw.disk ≡ Some s → IsStartSpentByCause (file_in s.now.bytes) result }
        ensures calls { (s : Story) → D.told raw.disk ≡ Some s
            → CallsInStart D.Disk raw.disk s.now.bytes result }
        ensures finds { (s : Story) → D.told raw.disk ≡ Some s → FindsFile s result }
        ensures disk { StartHandsBack D.Disk raw.disk result }
        ensures keeps { IfOk result (λ h. KeepsSure D.Disk raw.disk h.spool.spool.disk) }
        ensures keeper { keeper_started result ≡ keeper }
    {
        let _ = now;
        match start_without(alloc, plan, raw, out) {
            Ok(equipment) => Ok(kept_by(equipment, keeper)),
            Err(why) => Err(unstarted_by(why, keeper)),
        }
    }

    /// One step. On an ending the notes keep what was noted before it, and no character is written. All that the disk
    /// is asked in a step is done before its characters are sent: its calls are those of the works of the step, in
    /// their order, up to the first that fails, and no others. What a host asks of the recipes the keeper is asked
    /// behind them, and answered behind that; where none are offered it isn't asked. `NumbersSpent` comes where it
    /// needs more system bytes and the mark of the file can't move on, or puts a message into a spool whose numbers are
    /// at their end, and nowhere else; where there is such a cause, the step doesn't go on. The disk is handed back as
    /// by a start, and the keeper with it: where the answer is `DiskFailed` one of them has counted a fault, and the
    /// other none. Where a planned call stops the disk, what is noted and what a crash leaves then is what that call
    /// comes to.
    pub fn step(
        self,
        alloc: Global,
        input: NodeInput<'_, ToolCommand>,
        now: u64,
        out: &mut StepOut,
    ) -> Result<Equipment<D, K>, Ended<D, K>>
        requires now { now < 2 ^ 62 }
        requires input { MayTake ToolCommandFits (input_of input) }
        requires out { IsEmpty out.old }
        ensures moves { IsIn D.Disk K.RecipeKeeper self
            → Moves D.Disk K.RecipeKeeper self (input_of input.entry) now out.new (by_disk result) }
        ensures recipes { IsIn D.Disk K.RecipeKeeper self → K.offers_is self.keeper ≡ true
            → RecipesAfter D.Disk K.RecipeKeeper self (input_of input.entry) now result }
        ensures calls { IsIn D.Disk K.RecipeKeeper self
            → CallsAfter D.Disk K.RecipeKeeper self (input_of input.entry) now result }
        ensures spent { IsIn D.Disk K.RecipeKeeper self
            → IsSpentByCause D.Disk K.RecipeKeeper self (input_of input.entry) now (by_disk result) }
        ensures breaks { IsIn D.Disk K.RecipeKeeper self
            → BreaksAfter D.Disk K.RecipeKeeper self (input_of input.entry) now out.new.notes result }
        ensures back { BothBack D.Disk K.RecipeKeeper self result }
        ensures unasked { KeeperUnasked K.RecipeKeeper self result }
    {
        let Equipment {
            mut tool,
            spool,
            mut keeper,
        } = self;
        match step_on(&mut tool, alloc, spool, &mut keeper, input, now, out) {
            Ok(spool) => Ok(Equipment {
                tool,
                spool,
                keeper,
            }),
            Err(ended) => Err(with_keeper(ended, keeper)),
        }
    }

    /// When the equipment next acts by itself: the least moment of the line's, of T4, of T3 and of the delay.
    pub fn deadline(&self) -> Option<u64>
        ensures { result ≡ deadline_of (node_of self.now.tool) }
    {
        self.tool.deadline()
    }

    /// The phase of its line.
    pub fn phase(&self) -> Phase
        ensures { result ≡ self.now.tool.core.line.phase }
    {
        self.tool.core.phase()
    }

    /// Whether the timer of its line is due.
    pub(crate) fn is_late(&self, now: u64) -> bool
        ensures { result ≡ is_due self.now.tool.core.line.deadline now }
    {
        match self.tool.core.line_deadline() {
            Some(deadline) => deadline <= now,
            None => false,
        }
    }

    /// How many slots its spool has.
    pub(crate) fn slots(&self) -> u32
        ensures { result ≡ self.now.spool.spool.slots }
    {
        self.spool.count().slots
    }

    /// Gives the device and the keeper back as they are.
    pub fn power_off(self) -> (Spent<D>, K)
        ensures disk { result.0.disk ≡ self.spool.spool.disk }
        ensures keeper { result.1 ≡ self.keeper }
    {
        let Equipment { spool, keeper, .. } = self;
        (spool.retire(), keeper)
    }
}

impl<K: RecipeKeeper> Equipment<MemDisk, K> {
    /// Plans that the disk stops at a call, the next one for 1, and at none for 0.
    pub fn arm(&mut self, call: u32)
        ensures { self.new ≡ record self.old {
          spool = record self.old.spool {
            spool = record self.old.spool.spool {
              disk = record self.old.spool.spool.disk {
                plan = record self.old.spool.spool.disk.plan {
                  stop_in = call;
                };
              };
            };
          };
        } }
    {
        self.spool.arm(call);
    }

    /// How many calls are left up to the one at which its disk is to stop, itself counted, 0 for none.
    pub(crate) fn stops_in(&self) -> u32
        ensures left { result ≡ self.now.spool.spool.disk.plan.stop_in }
        ensures fitted { HasFitted self.now.spool.spool.disk }
    {
        self.spool.stops_in()
    }
}

// A start of one that offers no recipes: a keeper is given to it when all else is done.
fn start_without<D: Disk>(
    alloc: Global,
    plan: &EquipmentPlan,
    raw: Raw<D>,
    out: &mut StepOut,
) -> Result<Equipment<D, NoRecipes>, Starting<D, NoRecipes>>
    requires plan { EquipmentPlanFits plan.now }
    requires out { IsEmpty out.old }
    ensures begins { (s : Story) → D.told raw.disk ≡ Some s
        → Begins D.Disk ⟦<NoRecipes as RecipeKeeper>⟧ plan.now s out.new result }
    ensures spent { (s : Story) → D.told raw.disk ≡ Some s → IsStartSpentByCause (file_in s.now.bytes) result }
    ensures calls { (s : Story) → D.told raw.disk ≡ Some s
        → CallsInStart D.Disk raw.disk s.now.bytes result }
    ensures finds { (s : Story) → D.told raw.disk ≡ Some s → FindsFile s result }
    ensures disk { StartHandsBack D.Disk raw.disk result }
    ensures keeps { IfOk result (λ h. KeepsSure D.Disk raw.disk h.spool.spool.disk) }
{
    match raw.recover() {
        Ok(spool) => start_over(alloc, plan, spool, out),
        Err(unknown) => Err(why_not(unknown, NoRecipes)),
    }
}

// With a keeper, whose recipes a host is offered if it has them for one.
fn kept_by<D: Disk, K: RecipeKeeper>(
    equipment: Equipment<D, NoRecipes>,
    keeper: K,
) -> Equipment<D, K>
    requires keeper { K.offers_is keeper ≡ true → K.sound keeper }
    ensures { result ≡ kept_by K.RecipeKeeper keeper equipment }
{
    let Equipment {
        mut tool,
        spool,
        ..
    } = equipment;
    tool.own.offers = keeper.offers();
    Equipment {
        tool,
        spool,
        keeper,
    }
}

// The same of one that doesn't start.
fn unstarted_by<D, K>(why: Starting<D, NoRecipes>, keeper: K) -> Starting<D, K>
    ensures { result ≡ unstarted_by keeper why }
{
    match why {
        Starting::NoMemory(spent, _) => Starting::NoMemory(spent, keeper),
        Starting::NotSpool(raw, place, _) => Starting::NotSpool(raw, place, keeper),
        Starting::DiskFailed(spent, _) => Starting::DiskFailed(spent, keeper),
        Starting::NumbersSpent(spent, _) => Starting::NumbersSpent(spent, keeper),
    }
}

// Why it doesn't start.
fn why_not<D: Disk, K>(unknown: Recovering<D>, keeper: K) -> Starting<D, K>
    ensures { result ≡ starting_by keeper unknown }
{
    match unknown {
        Recovering::NotSpool(raw, place) => Starting::NotSpool(raw, place, keeper),
        Recovering::Failed(spent) => Starting::DiskFailed(spent, keeper),
    }
}

/// A start over a spool that was just taken up: its setup is read, it is made ready, and system bytes are reserved.
pub(crate) fn start_over<D: Disk>(
    alloc: Global,
    plan: &EquipmentPlan,
    spool: Spool<D>,
    out: &mut StepOut,
) -> Result<Equipment<D, NoRecipes>, Starting<D, NoRecipes>>
    requires plan { EquipmentPlanFits plan.now }
    requires out { IsEmpty out.old }
    ensures starts { IsFresh D.Disk spool
        → StartsFrom D.Disk plan.now spool.disk (standing_of D.Disk spool).file out.new result }
    ensures calls { IsFresh D.Disk spool → StartAsks D.Disk spool.disk (standing_of D.Disk spool).file result }
    ensures disk { StartHandsBack D.Disk spool.disk result }
    ensures keeps { IfOk result (λ h. KeepsSure D.Disk spool.disk h.spool.spool.disk) }
{
    match find_setup(alloc, spool) {
        Ok((spool, setup)) => start_found(alloc, plan, spool, setup, out),
        Err(why) => Err(why),
    }
}

// The same behind the reading of its setup.
fn start_found<D: Disk>(
    alloc: Global,
    plan: &EquipmentPlan,
    spool: Spool<D>,
    setup: Option<KeptSetup>,
    out: &mut StepOut,
) -> Result<Equipment<D, NoRecipes>, Starting<D, NoRecipes>>
    requires plan { EquipmentPlanFits plan.now }
    requires out { IsEmpty out.old }
    requires holds { HoldsKept D.Disk spool }
    ensures starts { IsFresh D.Disk spool → setup ≡ setup_in (standing_of D.Disk spool).file
        → StartsOver D.Disk plan.now (standing_of D.Disk spool).file out.new result }
    ensures calls { IsFresh D.Disk spool → StartMoves
        D.Disk
        spool.disk
        (ready_calls (standing_of D.Disk spool).file)
        (reserve_calls (standing_of D.Disk spool).file)
        result }
    ensures disk { StartHandsBack D.Disk spool.disk result }
    ensures keeps { IfOk result (λ h. KeepsSure D.Disk spool.disk h.spool.spool.disk) }
{
    match make_ready(alloc, spool) {
        Ok((spool, sizes)) => start_ready(alloc, plan, spool, setup, sizes.as_slice(), out),
        Err(why) => Err(why),
    }
}

// Reads the setup that is kept, if the file has an area for one.
fn find_setup<D: Disk>(
    alloc: Global,
    spool: Spool<D>,
) -> Result<(Spool<D>, Option<KeptSetup>), Starting<D, NoRecipes>>
    ensures { FindsSetup D.Disk spool result }
{
    // (that it stands as it says is told by the call that counts its messages)
    let _ = spool.len();
    let mut spool = spool;
    match load(alloc, &mut spool) {
        Ok(bytes) => Ok((spool, Some(KeptSetup::of(bytes)))),
        Err(Loading::NoArea) => Ok((spool, None)),
        Err(Loading::NotSetup(place)) => {
            Err(Starting::NotSpool(spool.retire().into_raw(), place, NoRecipes))
        }
        Err(Loading::Failed) => Err(Starting::DiskFailed(spool.retire(), NoRecipes)),
        Err(Loading::NoMemory) => Err(Starting::NoMemory(spool.retire(), NoRecipes)),
    }
}

// Reads how many slots each message takes, and makes a spool of version 1 one of version 2.
fn make_ready<D: Disk>(
    alloc: Global,
    spool: Spool<D>,
) -> Result<(GemSpool<D>, Row<u16>), Starting<D, NoRecipes>>
    ensures { MakesReady D.Disk spool result }
{
    // (that it stands as it says is told by the call that counts its messages)
    let _ = spool.len();
    let mut spool = spool;
    let sizes = match read_sizes(alloc, &mut spool) {
        Ok(sizes) => sizes,
        Err(Unsized::Failed) => return Err(Starting::DiskFailed(spool.retire(), NoRecipes)),
        Err(Unsized::NoMemory) => return Err(Starting::NoMemory(spool.retire(), NoRecipes)),
    };
    match upgrade(spool) {
        Ok(spool) => Ok((GemSpool::new(spool), sizes)),
        Err(spent) => Err(Starting::DiskFailed(spent, NoRecipes)),
    }
}

// Makes a spool one of version 2, where it isn't.
fn upgrade<D: Disk>(spool: Spool<D>) -> Result<Spool<D>, Spent<D>>
    ensures { UpgradesOnce D.Disk spool result }
{
    if spool.version() != 1 {
        return Ok(spool);
    }
    match spool.upgrade() {
        Ok(upgraded) => Ok(upgraded),
        Err(spent) => Err(spent),
    }
}

// A start over a spool that was made ready, with the setup that was found, of messages of these sizes.
fn start_ready<D: Disk>(
    alloc: Global,
    plan: &EquipmentPlan,
    spool: GemSpool<D>,
    setup: Option<KeptSetup>,
    sizes: &[u16],
    out: &mut StepOut,
) -> Result<Equipment<D, NoRecipes>, Starting<D, NoRecipes>>
    requires plan { EquipmentPlanFits plan.now }
    requires out { IsEmpty out.old }
    requires version { spool.spool.version ≡ 2 }
    requires sizes { AreSizes D.Disk spool.spool sizes.now }
    requires holds { HoldsKept D.Disk spool.spool }
    ensures starts { IsFresh D.Disk spool.spool → setup ≡ setup_in (standing_of D.Disk spool.spool).file
        → StartsOver D.Disk plan.now (standing_of D.Disk spool.spool).file out.new result }
    ensures calls { IsFresh D.Disk spool.spool
        → StartMoves D.Disk spool.spool.disk [] (reserve_calls (standing_of D.Disk spool.spool).file) result }
    ensures disk { StartHandsBack D.Disk spool.spool.disk result }
    ensures keeps { IfOk result (λ h. KeepsSure D.Disk spool.spool.disk h.spool.spool.disk) }
{
    // (that it stands as it says is told by the call that counts its messages)
    let _ = spool.len();
    match spool.reserve() {
        Ok((spool, base)) => match base {
            Some(base) => start_with(alloc, plan, spool, setup, sizes, base, out),
            None => Err(Starting::NumbersSpent(spool.retire(), NoRecipes)),
        },
        Err(spent) => Err(Starting::DiskFailed(spent, NoRecipes)),
    }
}

// A start with the system bytes from a base on.
fn start_with<D: Disk>(
    alloc: Global,
    plan: &EquipmentPlan,
    spool: GemSpool<D>,
    setup: Option<KeptSetup>,
    sizes: &[u16],
    base: u32,
    out: &mut StepOut,
) -> Result<Equipment<D, NoRecipes>, Starting<D, NoRecipes>>
    requires plan { EquipmentPlanFits plan.now }
    requires numbers { base + 4096 ≤ 2 ^ 32 }
    requires version { spool.spool.version ≡ 2 }
    requires sizes { AreSizes D.Disk spool.spool sizes.now }
    requires holds { HoldsKept D.Disk spool.spool }
    ensures starts { StartsWith plan.now spool setup sizes.now base out.old out.new result }
    ensures line { out.new.line ≡ out.old.line }
{
    let Ok(ledger) = ledger_of(alloc, &spool, sizes) else {
        return Err(Starting::NoMemory(spool.retire(), NoRecipes));
    };
    match Tool::start_on(alloc, plan, setup, ledger, base, out) {
        Ok(tool) => Ok(Equipment {
            tool,
            spool,
            keeper: NoRecipes,
        }),
        Err(NoMemory) => Err(Starting::NoMemory(spool.retire(), NoRecipes)),
    }
}

// The ledger of a spool that was just taken up, of messages of these sizes.
fn ledger_of<D: Disk>(alloc: Global, spool: &GemSpool<D>, sizes: &[u16]) -> Result<Ledger, NoMemory>
    requires sizes { AreSizes D.Disk spool.now.spool sizes.now }
    ensures { IfOk result (λ ledger.
        ledger ≡ new_ledger spool.now.spool.slots spool.now.spool.first sizes.now) }
{
    Ledger::new(alloc, spool.count().slots, spool.first(), sizes)
}
