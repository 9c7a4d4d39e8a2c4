//! The equipment through its public calls: what it notes and sends to a host that a test plays, and what a disk that
//! stops at one of its calls leaves.
#![tactic(auto)]

#[cfg(test)]
mod control;
#[cfg(test)]
mod errors;
#[cfg(test)]
mod establishing;
#[cfg(test)]
mod losses;
#[cfg(test)]
mod planned_tool;
#[cfg(test)]
mod played_host;
#[cfg(test)]
#[cfg(test)]
mod reports;
#[cfg(test)]
mod trace_data;
#[cfg(test)]
mod traces;
