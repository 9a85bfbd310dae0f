//! What the program does: the desk that answers packets, and the call that does what the words of a command line ask.
//!
//! What a run writes stands in `specs/Output.antt`, what words ask for in `specs/Command.antt`, what the desk replies in
//! `specs/Desk.antt`, and what is done with connections in `specs/Serving.antt`.
#![tactic(auto)]

mod answer;
mod command;
mod desk;
mod laws;
mod load;
mod rehearse;
mod reply;
mod serve;
mod top;
mod work;

pub use desk::Desk;
pub use laws::{complete_packets, complete_requests, complete_texts, no_leak, no_leak_on_wires};
pub use top::run;
