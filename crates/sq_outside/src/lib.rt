//! The real outside, under the traits of `sq_base`: readers and writers, TCP connections, the port that
//! they come to, and the clock. The system tells nothing of the bytes that it gives and takes, so what
//! is known of them here is how many each call moved, and that each failure was counted.
#![tactic(auto)]

mod clock;
mod listening;
mod reading;
mod stream;
mod writing;

pub use clock::seconds_now;
pub use listening::{ADDRESS, Listening};
pub use reading::Reading;
pub use stream::Stream;
pub use writing::Writing;
