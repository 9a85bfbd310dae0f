//! The meanings of both query languages, asked of one item after another: plain calls, without an index.
#![tactic(auto)]

mod fql_boost;
mod fql_holds;
mod fql_passages;
mod fql_slow;
mod fql_spans;
mod kql_boost;
mod kql_holds;
mod kql_slow;
mod kql_spans;
mod near;
mod places;
mod restrictions;
mod runs;
mod seen;
mod sums;
mod text_value;

pub use fql_slow::{fql_boost_slow, fql_holds_slow};
pub use kql_slow::{kql_boost_slow, kql_holds_slow};
