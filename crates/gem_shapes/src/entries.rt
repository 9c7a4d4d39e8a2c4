//! The entries of the lists that some messages carry.

use gl_base::Row;

/// An entry of S2F33: an RPTID and the VIDs that stand with it.
#[derive(Debug, Drop)]
pub struct Definition {
    pub rptid: u32,
    pub vids: Row<u32>,
}

/// An entry of S2F35: a CEID and the RPTIDs that stand with it.
#[derive(Debug, Drop)]
pub struct Linking {
    pub ceid: u32,
    pub rptids: Row<u32>,
}

/// An entry of S2F43: an STRID and the FCNIDs that stand with it.
#[derive(Debug, Drop)]
pub struct RuleEntry {
    pub stream: u8,
    pub functions: Row<u8>,
}
