//! The acknowledgements of S2F33, S2F35 and S2F37, with the identifier that is refused where there is one.

ghost use Rattle.std.specs.Prelude.{◌≡◌, ◌↔◌, IsTrue};
ghost use Rattle.gem_reports.specs.declared.answers.Drack.TheVariants as drack;
ghost use Rattle.gem_reports.specs.declared.answers.Lrack.TheVariants as lrack;

/// The acknowledgement of S2F33.
#[derive(Clone, Copy, Debug, PartialEq, Eq)]
pub enum Drack {
    Done,
    /// There would be more reports than have room.
    NoSpace,
    /// The report with this RPTID stands already.
    Defined(u32),
    /// There is no variable with this VID.
    UnknownVid(u32),
}

/// The acknowledgement of S2F35.
#[derive(Clone, Copy, Debug, PartialEq, Eq)]
pub enum Lrack {
    Done,
    /// There would be more links than have room.
    NoSpace,
    /// The event with this CEID has links already.
    Linked(u32),
    /// The plan has no event with this CEID.
    UnknownCeid(u32),
    /// No report with this RPTID stands.
    UnknownRptid(u32),
}

/// The acknowledgement of S2F37.
#[derive(Clone, Copy, Debug, PartialEq, Eq)]
pub enum Erack {
    Done,
    /// The plan has no event with this CEID.
    Unknown(u32),
}

impl Drack {
    pub(crate) fn is_done(self) -> bool
        ensures { IsTrue result ↔ (self ≡ drack.Done) }
    {
        match self {
            Drack::Done => true,
            Drack::NoSpace | Drack::Defined(_) | Drack::UnknownVid(_) => false,
        }
    }
}

impl Lrack {
    pub(crate) fn is_done(self) -> bool
        ensures { IsTrue result ↔ (self ≡ lrack.Done) }
    {
        match self {
            Lrack::Done => true,
            Lrack::NoSpace | Lrack::Linked(_) | Lrack::UnknownCeid(_) | Lrack::UnknownRptid(_) =>
                false,
        }
    }
}
