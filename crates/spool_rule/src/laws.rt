//! The law of the spool's rule: it is what is looked back for in the history of S2F43.

ghost use Rattle.spool_rule.specs.Laws.{RuleIsLookedBackFor};

/// After each history of S2F43 the rule covers what is looked back for: what the newest one names that was accepted,
/// and otherwise what the plan names.
pub fn the_rule_is_looked_back_for()
    ensures { RuleIsLookedBackFor }
{}
