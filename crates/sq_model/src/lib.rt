//! The corpus, the trees of both query languages, and their meanings: what every crate above cites.
#![tactic(auto)]

mod access;
mod corpus;
mod fql;
mod judged;
mod kql;
mod laws;
mod leaf;
mod shown;
mod triple;

pub use access::admits;
pub use corpus::{Caller, Content, Corpus, Item, Value};
pub use fql::{FTree, Look, SpanTree};
pub use judged::{Judged, Role, role_of};
pub use kql::{Joiner, KOperand, KTree, Relation, Sign};
pub use laws::{valid_texts_are_short, values_are_shown};
pub use leaf::Leaf;
pub use shown::shown_text;
pub use triple::Triple;
