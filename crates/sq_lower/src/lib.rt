//! The FQL tree of a KQL tree, with the same meaning and the same boosts: one evaluator serves both languages.
#![tactic(auto)]

mod build;
mod laws;
mod lowering;
mod restrictions;
mod runs;

pub use laws::lowering_keeps_meaning;
pub use lowering::lower;
