//! The streams of literals and of proximity expressions over an index.
//!
//! Making a stream reads its first spans; after that only its moves read, and they take no memory.
#![tactic(auto)]

mod laws;
mod merge;
mod pattern;
mod tree;
mod weights;

pub use pattern::pattern_stream;
pub use tree::streams_of;
