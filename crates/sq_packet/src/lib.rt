//! Packets: what a client asks for, read from its XML text.
#![tactic(auto)]

mod attributes;
mod characters;
mod codes;
mod draft;
mod element;
mod elements;
mod ends;
mod fault;
mod laws;
mod limits;
mod mark;
mod marks;
mod read;
mod refiners;
mod request;
mod tags;
mod texts;
mod words;

pub use fault::PacketFault;
pub use laws::faults_lie_in_the_packet;
pub use limits::MOST_HITS;
pub use read::read_packet;
pub use request::{Direction, Language, RefinerSpec, Request, SortSpec};
