//! Laws of plan files.

ghost use Rattle.std.specs.Prelude.{ℕ, List, Ok};
ghost use Rattle.equipment_tables.specs.declared.plan.Plans.{Plans};
ghost use Rattle.equipment_tables.specs.Plan.{PlansFit};
ghost use Rattle.gem_config.specs.Plans.{Means};

/// What a plan file means fits.
pub fn what_is_read_fits()
    ensures { (text : List ℕ) (plans : Plans) → Means text (Ok plans) → PlansFit plans }
{}
