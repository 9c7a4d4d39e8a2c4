//! Tests of items, their texts and captures, over public calls: proved without those crates' own proofs.
#![tactic(auto)]

#[cfg(test)]
mod bodies;
#[cfg(test)]
mod captures;
#[cfg(test)]
mod items;
#[cfg(test)]
mod texts;
