//! A connection over TCP as a link.
#![tactic(auto)]

mod arrived;
mod connection;
mod tcp_link;

pub use tcp_link::TcpLink;
