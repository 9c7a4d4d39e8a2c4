//! What reading a part of a file comes to, with the place at which it breaks.

/// Bytes that aren't a spool file: the first place at which they break, and the byte there.
#[derive(Clone, Copy, Debug, PartialEq, Eq)]
pub struct NotSpool {
    pub at: u64,
    /// None past the end of the file.
    pub got: Option<u8>,
}

/// What reading a part of a file came to.
#[derive(Clone, Copy, Debug)]
pub enum Reading<T> {
    Whole(T),
    Broken(NotSpool),
    /// The disk failed.
    Failed,
}
