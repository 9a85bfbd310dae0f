//! The codes of what is refused in a text of the FAST Query Language.

pub const TOO_LONG: u16 = 201;

pub const UNCLOSED_STRING: u16 = 203;
