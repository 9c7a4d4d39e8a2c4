//! Why an end stops in a step, with what it leaves.

/// Why an end that has a file on a disk has stopped in a step. Its disk is handed back where it tells more of that.
#[derive(Debug, Drop)]
pub enum Ended<D> {
    /// Memory ran out.
    NoMemory,
    /// The disk failed.
    DiskFailed(D),
    /// No system bytes are left, or no number for what it puts into its file.
    NumbersSpent(D),
    /// What it puts into its file has no room there.
    Full(D),
}
