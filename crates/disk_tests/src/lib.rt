//! Tests of the disk and of what lies on it, over public calls: a disk in memory, the spool file, and its list.
#![tactic(auto)]

#[cfg(test)]
mod each_call;
#[cfg(test)]
mod floors;
#[cfg(test)]
mod full_recipes;
#[cfg(test)]
mod list_works;
#[cfg(test)]
mod long_cuts;
#[cfg(test)]
mod long_messages;
#[cfg(test)]
mod memory_disk;
#[cfg(test)]
mod recipe_files;
#[cfg(test)]
mod recipe_losses;
#[cfg(test)]
mod recipe_store;
#[cfg(test)]
mod recipes;
#[cfg(test)]
mod setups;
#[cfg(test)]
mod shown_spool;
#[cfg(test)]
mod slot_file;
#[cfg(test)]
mod spool_list;
#[cfg(test)]
mod spooled_streams;
