//! The trees of texts of the FAST Query Language.
#![tactic(auto)]

mod codes;
mod content;
mod fault;
mod limits;
mod look;
mod number;
mod operator;
mod parameter;
mod print;
mod print_laws;
mod raw;
mod read;

pub use limits::FQL_DISTANCE;
pub use print::print_fql;
pub use print_laws::canonical_texts_read_back;
pub use raw::{FPiece, FRaw, Mode, Op};
pub use read::read_fql;
