//! What a service holds of a corpus: its schema, its callers, its index and its stored values.
//!
//! The items themselves are let go. What is held of them is `specs/Holds`, and the corpus that may be
//! read off it alone is `specs/Told`: no caller can tell it from the corpus that is held.
#![tactic(auto)]

mod holding;
mod laws;

pub use holding::Holding;
pub use laws::{told_has_rows, told_is_alike};
