//! The text of a corpus, read exactly.
#![tactic(auto)]

mod before;
mod counts;
mod escapes;
mod fault;
mod laws;
mod names;
mod pieces;
mod read;
mod reader;
mod rows;
mod values;
mod words;
mod write;

pub use fault::CorpusFault;
pub use laws::{spelled_corpora_are_valid, values_are_kept, written_texts_read_back};
pub use read::read_corpus;
pub use write::write_corpus;
