//! The index of a corpus, built from its items: what an index keeps of each property, item and number,
//! the tokens, postings and lengths of each property by one pass over the items, and the claims.
#![tactic(auto)]

mod build;
mod claims;
mod dictionary;
mod gather;
mod numbers;
mod passages;
mod rows;
mod terms;

pub use build::build_index;
