//! The items that a caller may see.
#![tactic(auto)]

mod admitted;

pub use admitted::Admitted;
