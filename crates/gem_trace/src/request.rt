//! What S2F23 asks for, and how it is answered.

use gl_base::Row;

/// The five values of S2F23.
#[derive(Debug, Drop)]
pub struct TraceRequest {
    pub trid: u32,
    /// The period, a text: six digits hhmmss, or eight hhmmsscc, where cc are hundredths of a second.
    pub dsper: Row<u8>,
    /// TOTSMP: how many samples there will be. 0 ends the trace.
    pub total: u32,
    /// REPGSZ: how many samples go into one S6F1.
    pub group: u32,
    /// The variables of each sample, in this order. One may stand there more than once, and there may be none.
    pub svids: Row<u32>,
}

/// The acknowledgement of S2F23.
#[derive(Clone, Copy, Debug, PartialEq, Eq)]
pub enum Tiaack {
    Done,
    /// More than 256 SVIDs.
    TooMany,
    /// 16 other traces run.
    NoMore,
    /// DSPER isn't of its form, or the period is shorter than 100 ms.
    BadPeriod,
    /// There is no variable with this SVID; it is the first such one.
    Unknown(u32),
    /// The group is 0, or larger than the total, or it makes an S6F1 of more than 4,096 values.
    BadGroup,
}
