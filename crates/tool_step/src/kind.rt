//! What the equipment asks its host for.

/// What a primary of the equipment awaits a reply for.
#[derive(Clone, Copy, Debug, PartialEq, Eq)]
pub enum Kind {
    /// S1F13: S1F14 establishes the communication.
    Establish,
    /// S1F1: S1F2 ends the attempt to be on-line.
    Attempt,
    /// S6F5: S6F6 lets an S6F11 of several blocks go.
    Grant,
    /// S5F1, S6F11 or S10F1: the reply is taken, and no more comes of it.
    Report,
    /// A message of the spool: with the reply it leaves.
    Unload,
    /// S6F5 for an S6F11 of the spool: S6F6 lets it go.
    UnloadGrant,
    /// S6F1: any reply is taken, and no more comes of it.
    Trace,
    /// S6F5 for an S6F1 of several blocks: S6F6 lets it go.
    TraceGrant,
}
