//! The parameters of a line, and of the host's end, which has but one more; and which of them fit.

ghost use Rattle.std.specs.Prelude.{◌↔◌, IsTrue};
ghost use Rattle.line_end.specs.Plan.{HostPlanFits, LinePlanFits, TimesFit};

/// The timers and the retry limit of the block transfer.
#[derive(Clone, Copy, Debug, PartialEq, Eq)]
pub struct Times {
    /// T1: the longest wait between two characters of a block, in milliseconds.
    pub t1: u32,
    /// T2: the longest wait for the answer to a control character or to a frame, in milliseconds.
    pub t2: u32,
    /// RTY: how often a failed try to send a block is made again.
    pub rty: u8,
}

impl Times {
    /// Whether T1 is from 100 to 10,000, T2 from 200 to 25,000 and RTY at most 31.
    pub fn fits(&self) -> bool
        ensures { IsTrue result ↔ TimesFit self.now }
    {
        (100..=10_000).contains(&self.t1) && (200..=25_000).contains(&self.t2) && self.rty <= 31
    }
}

/// The parameters of one line.
#[derive(Clone, Copy, Debug, PartialEq, Eq)]
pub struct LinePlan {
    /// The device of the equipment.
    pub device: u16,
    /// The block transfer's timers and retry limit.
    pub times: Times,
    /// T3: the longest wait for a reply, in milliseconds.
    pub t3: u32,
    /// T4: the longest wait for the next block of a message, in milliseconds.
    pub t4: u32,
    /// The longest text of a message, in bytes.
    pub max_body: u32,
}

impl LinePlan {
    /// Whether the times fit, the device is below 32,768, T3 and T4 are from 1,000 to 120,000 and the longest text is
    /// from 244 to 7,995,148 bytes.
    pub fn fits(&self) -> bool
        ensures { IsTrue result ↔ LinePlanFits self.now }
    {
        self.device < 0x8000
            && self.times.fits()
            && (1_000..=120_000).contains(&self.t3)
            && (1_000..=120_000).contains(&self.t4)
            && (244..=7_995_148).contains(&self.max_body)
    }
}

/// The parameters of the host's end.
#[derive(Clone, Copy, Debug, PartialEq, Eq)]
pub struct HostPlan {
    /// The parameters of its line.
    pub line: LinePlan,
    /// Whether communication is enabled from the start.
    pub enable: bool,
}

impl HostPlan {
    /// Whether the parameters of the line fit.
    pub fn fits(&self) -> bool
        ensures { IsTrue result ↔ HostPlanFits self.now }
    {
        self.line.fits()
    }
}
