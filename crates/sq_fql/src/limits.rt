//! The limits and defaults of parameters.

/// The distance of near, onear and a string where none is given.
pub const FQL_DISTANCE: u32 = 4;

/// The greatest number of count.
pub(crate) const GREATEST_COUNT: u32 = 1_000_000;
