//! The codes of what is refused in typing FQL alone.

pub const NESTED_SCOPE: u16 = 309;

pub const NEEDS_PROPERTY: u16 = 310;
