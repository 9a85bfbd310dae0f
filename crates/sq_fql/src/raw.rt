use sq_base::{List, Text};
use sqlite_items::Boxed;

/// How the tokens of a string are looked for.
#[derive(Clone, Copy, Debug, PartialEq, Eq)]
pub enum Mode {
    Phrase,
    And,
    Or,
    Any,
    Near,
    Onear,
}

/// An operator with its parameters.
#[derive(Clone, Copy, Debug, PartialEq, Eq)]
pub enum Op {
    And,
    Or,
    Any,
    AndNot,
    Not,
    Near(u32),
    Onear(u32),
    Words,
    Count {
        from: u32,
        to: Option<u32>,
    },
    Range {
        /// Above the first bound, and not at least it.
        above: bool,
        /// Below the second bound, and not at most it.
        below: bool,
    },
    StartsWith,
    EndsWith,
    Equals,
    Filter,
    Str {
        mode: Mode,
        /// The distance, 4 where the mode is neither near nor onear.
        n: u32,
    },
    Int,
    DateTime,
    Phrase,
    Xrank {
        cb: i64,
    },
}

/// A literal without quotes and escapes, and the place where it begins, at its opening quote where it has one.
#[derive(Debug, Drop)]
pub struct FPiece {
    pub at: u32,
    pub text: Text,
}

/// A query as it is read. `at` is the place of a node's first lexeme.
#[derive(Debug, Drop)]
pub enum FRaw {
    All(u32),
    Literal(FPiece),
    Scope {
        at: u32,
        name: Text,
        inner: Boxed<FRaw>,
    },
    Apply {
        at: u32,
        op: Op,
        operands: List<FRaw>,
    },
}
