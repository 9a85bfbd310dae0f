//! A rehearsal: a corpus that is made by rule, and the queries that are asked of it, so that the service
//! can be tried with no corpus text at hand.
#![tactic(auto)]

mod asking;
mod corpus;
mod items;

pub use asking::{Question, questions};
pub use corpus::rehearsal;
