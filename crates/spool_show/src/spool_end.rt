//! How a listing and a making end.

use spool_file::NotSpool;

/// How a word about a spool file ended.
#[derive(Clone, Copy, Debug, PartialEq, Eq)]
pub enum SpoolEnd {
    /// All was written.
    Done,
    /// The bytes stand for no list: the first place at which they break.
    NotSpool(NotSpool),
    /// The disk failed.
    DiskFailed,
    /// The output failed.
    WriteFailed,
}
