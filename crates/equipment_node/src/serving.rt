//! What comes behind the works of a step: the recipes, and the last parts.

ghost use Rattle.std.specs.Prelude.{◌≡◌, ◌<◌, ◌≤◌, ◌^◌, IfOk, true};
ghost use Rattle.arrayvec.specs.ArrayVec.{array_vec_len};
ghost use Rattle.tool_core.specs.Node.{node_of, own_of};
ghost use Rattle.tool_core.specs.Serving.{IsKept};
ghost use Rattle.tool_step.specs.Recipes.{RecipesView};
ghost use Rattle.equipment_node.specs.Amid.{IsReady, IsSendable, ServesLast, done_last};
ghost use Rattle.equipment_node.specs.Keeping.{CanBeAsked, HoldsServed, ServesAt, StaysUnasked};

use crate::disk_step::end_with;
use disk_base::Disk;
use gem_recipes::{RecipeKeeper, Unanswered};
use gem_spool::GemSpool;
use message_flow::StepOut;
use spool_works::Ended;
use std::alloc::Global;
use tool_core::{Spoolable, Tool};

/// The keeper is asked for what is owed to it, and then come the last parts, with what was read.
pub(crate) fn serve_last<D: Disk, K: RecipeKeeper>(
    tool: &mut Tool,
    alloc: Global,
    spool: GemSpool<D>,
    keeper: &mut K,
    oldest: Option<(u64, Spoolable)>,
    now: u64,
    out: &mut StepOut,
) -> Result<GemSpool<D>, Ended<D>>
    requires now { now < 2 ^ 62 }
    requires room { array_vec_len out.old.line ≤ 514 }
    requires ready { IsReady D.Disk spool.spool (node_of tool.old) }
    requires keeper { CanBeAsked K.RecipeKeeper keeper.old (own_of tool.old.own) }
    requires can { IsSendable oldest }
    ensures ready { IfOk result (λ g. IsReady D.Disk g.spool (node_of tool.new)) }
    ensures keeper { IfOk result (λ g. CanBeAsked K.RecipeKeeper keeper.new (own_of tool.new.own)) }
    ensures ends { (kept : RecipesView)
        → ((own_of tool.old.own).offers ≡ true → IsKept K.RecipeKeeper keeper.old kept)
        → ServesLast D.Disk kept spool (done_last oldest now) (node_of tool.old) out.old (node_of tool.new) out.new
        result }
    ensures recipes { (kept : RecipesView) → IsKept K.RecipeKeeper keeper.old kept
        → HoldsServed K.RecipeKeeper kept (own_of tool.old.own) keeper.new result }
    ensures stays { ServesAt K.RecipeKeeper keeper.old keeper.new spool.spool.disk result }
    ensures unasked { StaysUnasked K.RecipeKeeper keeper.old keeper.new }
{
    match tool.serve(alloc, keeper) {
        Ok(()) => end_with(tool, alloc, spool, oldest, now, out),
        Err(Unanswered::Failed) => Err(Ended::DiskFailed(spool.retire())),
        Err(Unanswered::NoMemory) => Err(Ended::NoMemory(spool.retire())),
    }
}
