/// What a lexeme of the FAST Query Language is.
#[derive(Clone, Copy, Debug, PartialEq, Eq)]
pub enum FKind {
    /// A text between quotes, with its escapes.
    Str,
    Word,
    LeftParen,
    RightParen,
    Comma,
    EqualSign,
    Colon,
}

/// A lexeme, and the places where its text begins and ends, with the quotes of a string.
#[derive(Clone, Copy, Debug, PartialEq, Eq)]
pub struct FLexeme {
    pub kind: FKind,
    pub from: u32,
    pub to: u32,
}
