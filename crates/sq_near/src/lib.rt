//! Streams of least spans: leaves, joins and merges, to any depth.
//!
//! A stream is a span cursor, and so is each of its parts. It reads nothing but by moves of its
//! leaves, and its moves take no memory.
#![tactic(auto)]

mod cover;
mod heads;
mod laws;
mod stream;

pub use laws::{joined_are_least, merged_are_least};
pub use stream::{Joined, Merged, Stream};
