//! The nodes of a plan: conditions on the rows of an index, each with a boost where it holds.
//!
//! A node is asked for rows that rise. It reads nothing but by moves of its cursors, and no call
//! takes memory.
#![tactic(auto)]

mod kinds;
mod leaves;
mod node;
mod score;
mod skip;

pub use node::{Counted, Edges, Node, Ranged, Ranked, Without};
