//! Tests of the crates that make a tool's tables, from its variables to its plan file, over their public calls. They
//! stand in a crate of their own, so that none of those is proved once more with them.
#![tactic(auto)]

#[cfg(test)]
mod alarms;
#[cfg(test)]
mod config;
#[cfg(test)]
mod recipe_shapes;
#[cfg(test)]
mod recipes;
#[cfg(test)]
mod remote;
#[cfg(test)]
mod reports;
#[cfg(test)]
mod setup;
#[cfg(test)]
mod shapes;
#[cfg(test)]
mod spelled;
#[cfg(test)]
mod tables;
#[cfg(test)]
mod traces;
#[cfg(test)]
mod vars;
