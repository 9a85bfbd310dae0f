//! The limits of a schema.

/// The rows of a schema.
pub const MOST_ROWS: usize = 64;

/// The bytes of a property's name.
pub(crate) const MOST_PROPERTY_NAME_BYTES: usize = 64;
