//! Requests and replies on one connection: HTTP/1.1 (RFC 9112) with one route, `POST /query`, over
//! any wire and any handler.
//!
//! What a connection owes for its bytes, whoever answers, stands in `specs/Owed.antt`; the texts of
//! what is owed in `specs/Replies.antt`; what `serve_connection` promises in `specs/Served.antt`.
#![tactic(auto)]

mod answer;
mod body;
mod buffer;
mod cut;
mod exchange;
mod fields;
mod judge;
mod law;
mod limits;
mod reading;
mod send;
mod serve;

pub use answer::{Handled, Handler};
pub use law::equal_answers_give_equal_replies;
pub use limits::{MOST_HEAD_BYTES, MOST_REQUESTS};
pub use serve::serve_connection;
