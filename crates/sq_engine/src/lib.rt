//! What a caller is answered: the meaning of a request, the verdict of a corpus on it, and what engines and loaders promise.
//!
//! The verdict stands in `specs/Verdict.antt`: it is made of a corpus's schema and of what the caller sees of it, and of
//! nothing else.
#![tactic(auto)]

mod engine;
mod laws;
mod query;
mod refused;

pub use engine::{Engine, Loader};
pub use laws::{alike_cost_alike, alike_give_one_verdict, nothing_leaks, unknown_are_unnamed};
pub use query::{lowered_text, tree_of};
pub use refused::{LoadFault, Refused};
