//! The index of a corpus: coded lists of postings by property and token, numbers, claims and lengths
//! of passages.
//!
//! An index is made of parts, which another crate builds from a corpus. When it stands for a corpus
//! is `specs/StandsFor`. Its cursors read in place, and none of its calls takes memory.
#![tactic(auto)]

mod index;
mod parts;
mod posts;
mod search;
mod values;

pub use index::Index;
pub use parts::{Claim, Length, Parts, Row, Shape, Term};
pub use posts::PostCursor;
pub use values::ValueCursor;
