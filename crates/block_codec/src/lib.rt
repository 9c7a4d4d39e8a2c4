//! Blocks of SECS-I (SEMI E4) and their bytes on the line: length byte, header, body and checksum.
#![tactic(auto)]

mod block;
mod frame;
mod header;
mod laws;
mod protocol;
#[cfg(test)]
mod tests;

pub use block::Block;
pub use frame::{BlockFault, Frame, block_of, frame_of};
pub use header::Header;
pub use laws::{
    faultless_bytes_are_frames, frames_are_distinct, frames_are_longer, frames_have_no_fault,
    headers_are_distinct, length_byte_tells,
};
pub use protocol::{
    ACK, ENQ, EOT, HEADER_LENGTH, LONGEST_BODY, LONGEST_FRAME, LONGEST_TEXT, MOST_BLOCKS,
    MOST_COUNTED, NAK, SHORTEST_FRAME,
};
