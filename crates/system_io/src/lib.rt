//! What the system reads from and writes to, and its files, as sources, sinks and files. Each keeps why its last call
//! failed.
#![tactic(auto)]

mod host_files;
mod reading;
mod writing;

pub use host_files::HostFiles;
pub use reading::Reading;
pub use writing::Writing;
