//! What runs as a whole, through its public calls: words as commands, the world of a tool and its host, and the
//! program, with its runs over a link.
#![tactic(auto)]

#[cfg(test)]
mod crowded_tool;
#[cfg(test)]
mod failing_calls;
#[cfg(test)]
mod faults_and_usage;
#[cfg(test)]
mod host_runs;
#[cfg(test)]
mod journal_runs;
#[cfg(test)]
mod linked_runs;
#[cfg(test)]
mod parsed_words;
#[cfg(test)]
mod played_program;
#[cfg(test)]
mod replay_and_make;
#[cfg(test)]
mod setups;
#[cfg(test)]
mod show_and_spell;
#[cfg(test)]
mod spool_files;
#[cfg(test)]
mod tool_runs;
#[cfg(test)]
mod traces;
#[cfg(test)]
mod worlds;
