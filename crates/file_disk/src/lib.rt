//! A real file as a disk.
#![tactic(auto)]

#[cfg(test)]
mod counted_files;
mod file_disk;
mod lock_file;

pub use file_disk::FileDisk;
pub use lock_file::LockFile;
