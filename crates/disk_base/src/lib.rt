//! Disks that can lose power: what they hold, and what a crash at any moment may leave of it.
#![tactic(auto)]

mod attached;
mod cut;
mod disk;
mod fault_plan;
mod laws;
mod log;
mod mem_disk;
mod no_memory;
mod settling;

pub use attached::AttachedFile;
pub use cut::CutChoice;
pub use disk::{CallKind, Disk, DiskAnswer};
pub use fault_plan::FaultPlan;
pub use laws::{cut_leaves_the_chosen_byte, failed_settle_has_written, settle_keeps_other_bytes};
pub use mem_disk::MemDisk;
pub use no_memory::NoMemory;
pub use settling::settle;
