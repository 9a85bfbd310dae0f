//! Cursors over strictly rising lists of rows, and over ordered lists of spans of tokens.
//!
//! What is left of a cursor is a list, and its rest is a number: each move counts at most what it
//! takes from the rest. Nothing here takes memory.
#![tactic(auto)]

mod and;
mod cursor;
mod list;
mod or;
mod span;
mod span_list;

pub use and::{And, AndNot};
pub use cursor::{ItemCursor, SpanCursor};
pub use list::ListCursor;
pub use or::Or;
pub use span::Span;
pub use span_list::SpanListCursor;
