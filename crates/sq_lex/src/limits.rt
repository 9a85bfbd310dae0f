//! The limits of texts of both languages.

/// The bytes of a query text.
pub(crate) const MOST_TEXT_BYTES: usize = 20_480;

/// The levels of parentheses and scopes that may be open at once.
pub const MOST_LEVELS: u32 = 64;

/// The distance of KQL's NEAR and ONEAR where no list is given.
pub(crate) const KQL_DISTANCE: u32 = 8;
