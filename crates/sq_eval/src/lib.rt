//! The plan of a query: which of the rows that a caller may see it holds of, each with its boost.
#![tactic(auto)]

mod build;
mod laws;
mod leaves;
mod plan;

pub use laws::boosts_are_bounded;
pub use plan::Plan;
