//! A character with where it comes from, by which a slip is told from a frame that came whole.

/// A place in a frame that an end has written.
#[derive(Clone, Copy, Debug, PartialEq, Eq)]
pub(crate) struct FramePlace {
    /// The frame's number among those of both ends, from 0.
    pub(crate) frame: u64,
    /// The place in the frame, from 0.
    pub(crate) place: usize,
    /// The byte that was written there.
    pub(crate) written: u8,
    /// Whether it is the frame's last place.
    pub(crate) is_last: bool,
}

/// Where a character comes from.
#[derive(Clone, Copy, Debug, PartialEq, Eq)]
pub(crate) enum Source {
    /// A frame.
    Frame(FramePlace),
    /// What an end has written that is no frame.
    Control,
    /// Nothing that an end has written.
    Noise,
}

/// A character on its way, or gathered by an end.
#[derive(Clone, Copy, Debug, PartialEq, Eq)]
pub(crate) struct Character {
    /// What it is now.
    pub(crate) byte: u8,
    pub(crate) source: Source,
}
