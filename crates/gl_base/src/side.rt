//! The two sides of a line, which all layers name.

/// An end of the line. The equipment is its master, the host its slave (SEMI E4).
#[derive(Clone, Copy, Debug, PartialEq, Eq)]
pub enum Side {
    Equipment,
    Host,
}
