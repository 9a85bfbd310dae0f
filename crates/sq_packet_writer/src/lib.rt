//! Packets: the text of a request, which a client sends.
#![tactic(auto)]

mod escaped;
mod laws;
mod tags;
mod writer;

pub use laws::{packets_read_back, read_requests_are_writable};
pub use writer::write_packet;
