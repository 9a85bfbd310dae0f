//! Lists of words, each of them a chain of one pool. The crate shows that a struct that keeps a pool
//! and any number of its chains can say "the content of each list's chain is its list" by the public
//! clauses of `sq_pool` alone: its own contracts speak of a list of lists and name no pool.
#![tactic(auto)]

mod lists;

pub use lists::Lists;
