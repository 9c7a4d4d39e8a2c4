//! The law of the alarms: what the table has is what is looked back for in its history.

ghost use Rattle.gem_alarms.specs.Laws.{AlarmsAreLookedBackFor};

/// After each history the table has of every alarm what is looked back for: whether the newest command for it set it,
/// and whether the newest S5F3 that names it, or all alarms, enabled it. A command is answered by the same.
pub fn alarms_are_looked_back_for()
    ensures { AlarmsAreLookedBackFor }
{}
