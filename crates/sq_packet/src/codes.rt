//! The codes of a packet's faults.

pub const NOT_UTF8: u16 = 501;

pub const MALFORMED: u16 = 502;

pub const UNKNOWN_ELEMENT: u16 = 503;

pub const REPEATED_ELEMENT: u16 = 504;

pub const MISSING_QUERY_TEXT: u16 = 505;

pub const BAD_NUMBER: u16 = 506;

pub const UNSUPPORTED_TYPE: u16 = 507;

pub const BAD_RANGE: u16 = 508;

pub const BAD_REFINER: u16 = 510;

pub const UNSUPPORTED_SETTING: u16 = 512;

pub const TOO_MANY_PROPERTIES: u16 = 513;

pub const BAD_DIRECTION: u16 = 514;

pub const TOO_MANY_SORTS: u16 = 515;
