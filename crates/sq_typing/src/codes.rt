//! The codes of what is refused in typing.

pub const UNKNOWN_PROPERTY: u16 = 301;

pub const WRONG_OPERATOR: u16 = 302;

pub const BAD_NUMBER: u16 = 303;

pub const NUMBER_OUT_OF_RANGE: u16 = 304;

pub const BAD_DATE: u16 = 305;

pub const BAD_YES_NO: u16 = 306;

pub const NO_TOKEN: u16 = 307;

pub const NOT_IN_PROXIMITY: u16 = 308;

pub const TOO_MANY_FORMS: u16 = 311;
