//! The limits of a connection.

/// How many bytes a head may have, with the empty line that ends it.
pub const MOST_HEAD_BYTES: usize = 8_192;

/// How many requests are answered on one connection.
pub const MOST_REQUESTS: u32 = 1_000;
