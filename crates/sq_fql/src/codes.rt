//! The codes of what is refused in the order of lexemes.

pub const EMPTY_QUERY: u16 = 202;

pub const UNKNOWN_OPERATOR: u16 = 204;

pub const MISSING_ARGUMENT: u16 = 205;

pub const EXTRA_ARGUMENT: u16 = 206;

pub const BAD_PARAMETER: u16 = 207;

pub const UNEXPECTED: u16 = 208;

pub const UNCLOSED_PAREN: u16 = 209;

pub const TOO_DEEP: u16 = 210;

pub const OTHER_BOOST: u16 = 211;

pub const BAD_STAR: u16 = 212;
