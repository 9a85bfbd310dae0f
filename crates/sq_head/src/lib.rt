//! The head of an HTTP/1.x request as a function of its bytes (RFC 9112, sections 2 to 5), in the
//! grammar of `httparse`.
#![tactic(auto)]

mod law;
mod parts;

pub use law::heads_are_of_the_grammar;
pub use parts::{MOST_FIELDS, parts_of};
