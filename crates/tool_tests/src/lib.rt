//! Tests of the ends of a link and of what the tool decides, over public calls.
#![tactic(auto)]

#[cfg(test)]
mod end_commands;
#[cfg(test)]
mod host_calls;
#[cfg(test)]
mod host_cases;
#[cfg(test)]
mod host_comms;
#[cfg(test)]
mod host_steps;
#[cfg(test)]
mod ledger_calls;
