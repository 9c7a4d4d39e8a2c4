//! What an equipment owes for its spool, and a host for its journal, as their notes and doings tell of it.
#![tactic(auto)]
