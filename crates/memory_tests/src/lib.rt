//! Where memory is refused. There is one test alone, since `rt try --test --fail-alloc N` counts the calls of a whole
//! run.
#![tactic(auto)]

#[cfg(test)]
mod blocks;
