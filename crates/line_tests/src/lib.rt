//! Tests of the line's crates, over their public calls: here they are proved without proving those crates once more.
#![tactic(auto)]

#[cfg(test)]
mod bodies;
#[cfg(test)]
mod commands;
#[cfg(test)]
mod end;
#[cfg(test)]
mod end_rows;
#[cfg(test)]
mod links;
#[cfg(test)]
mod messages;
#[cfg(test)]
mod notes;
#[cfg(test)]
mod outside;
#[cfg(test)]
mod plans;
#[cfg(test)]
mod schedules;
#[cfg(test)]
mod transactions;
