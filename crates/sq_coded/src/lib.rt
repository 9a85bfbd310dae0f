//! Lists of postings, coded in blocks as differences, in a pool.
//!
//! `OpenLists` grow; sealed they are `Lists`, which a `Reader` decodes in place.
#![tactic(auto)]

mod block;
mod bytes;
mod code;
mod laws;
mod lists;
mod open_lists;
mod posting;
mod reader;

pub use code::coded;
pub use laws::follows_last;
pub use lists::Lists;
pub use open_lists::OpenLists;
pub use posting::Posting;
pub use reader::Reader;
