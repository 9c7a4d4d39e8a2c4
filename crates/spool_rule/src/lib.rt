//! The rule of spooling (SEMI E5, S2F43 and S2F44): which primaries are spooled for a host that is away.
#![tactic(auto)]

mod laws;
mod reply;
mod rule;

pub use gem_shapes::RuleEntry;
pub use laws::the_rule_is_looked_back_for;
pub use rule::{RuleAnswer, RuleFault, SpoolRule};
