/// A character of a packet, and its place: the number of bytes before it.
#[derive(Clone, Copy, Debug, PartialEq, Eq)]
pub struct Mark {
    pub c: char,
    pub at: u32,
}

/// The characters that names and numbers consist of.
#[derive(Clone, Copy, Debug, PartialEq, Eq)]
pub enum Class {
    Name,
    AttributeName,
    Digit,
    HexDigit,
}
