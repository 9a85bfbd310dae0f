//! Responses: what a request is answered, and its text.
#![tactic(auto)]

mod escaped;
mod names;
mod respond;
mod response;

pub use names::code_name;
pub use respond::write_response;
pub use response::{Entry, Found, Hit, Refined, Response, Shown};
