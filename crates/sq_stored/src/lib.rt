//! The urls and shown values of a corpus, as text in one buffer.
#![tactic(auto)]

mod laws;
mod runs;
mod stored;
mod texts;

pub use laws::{stored_urls_stand, stored_values_stand};
pub use stored::Stored;
