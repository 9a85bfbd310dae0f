//! Laws of least matches, for callers above: of a proximity expression the least matches of each
//! weight are enough. The functions do nothing.
#![tactic(auto)]

mod laws;

pub use laws::{
    dense_chain, dense_near, dense_sums, dense_union, least_by_weight, least_inside,
    least_of_dense, least_of_union, near_of_least, near_splits_by_weight, weights_of_matches,
    width_counts_weights,
};
