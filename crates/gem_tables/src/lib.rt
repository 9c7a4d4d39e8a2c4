//! What the tables of GEM have in common: what holds after a history, and rows by identifiers. It has definitions and
//! lemmas, and no code.
#![tactic(auto)]
