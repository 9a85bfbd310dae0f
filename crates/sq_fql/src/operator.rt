//! Operators by their words.

ghost use Rattle.std.specs.Prelude.{◌≡◌, true, false};
ghost use Rattle.std.specs.Str.{str_eq_ignore_ascii_case};
ghost use Rattle.sq_fql.specs.Operators as spec;

/// An operator without its parameters.
#[derive(Clone, Copy, Debug, PartialEq, Eq)]
pub enum Operator {
    And,
    Or,
    Any,
    AndNot,
    Not,
    Filter,
    Count,
    Range,
    Xrank,
    Near,
    Onear,
    Words,
    Phrase,
    StartsWith,
    EndsWith,
    Equals,
    Str,
    Int,
    DateTime,
}

/// The operands of an operator.
#[derive(Clone, Copy, Debug, PartialEq, Eq)]
pub struct Arity {
    pub least: u32,
    pub most: Option<u32>,
    /// Whether each is a literal.
    pub literals: bool,
}

pub fn same_word(word: &[u8], other: &[u8]) -> bool
    ensures { result ≡ str_eq_ignore_ascii_case word.now other.now }
{
    word.eq_ignore_ascii_case(other)
}

fn item_operator(word: &[u8]) -> Option<Operator>
    ensures { result ≡ spec.named word.now spec.item_operators }
{
    if same_word(word, b"and") {
        Some(Operator::And)
    } else if same_word(word, b"or") {
        Some(Operator::Or)
    } else if same_word(word, b"any") {
        Some(Operator::Any)
    } else if same_word(word, b"andnot") {
        Some(Operator::AndNot)
    } else if same_word(word, b"not") {
        Some(Operator::Not)
    } else if same_word(word, b"filter") {
        Some(Operator::Filter)
    } else if same_word(word, b"count") {
        Some(Operator::Count)
    } else if same_word(word, b"range") {
        Some(Operator::Range)
    } else if same_word(word, b"xrank") {
        Some(Operator::Xrank)
    } else {
        None
    }
}

fn text_operator(word: &[u8]) -> Option<Operator>
    ensures { result ≡ spec.named word.now spec.text_operators }
{
    if same_word(word, b"near") {
        Some(Operator::Near)
    } else if same_word(word, b"onear") {
        Some(Operator::Onear)
    } else if same_word(word, b"words") {
        Some(Operator::Words)
    } else if same_word(word, b"phrase") {
        Some(Operator::Phrase)
    } else if same_word(word, b"starts-with") {
        Some(Operator::StartsWith)
    } else if same_word(word, b"ends-with") {
        Some(Operator::EndsWith)
    } else if same_word(word, b"equals") {
        Some(Operator::Equals)
    } else if same_word(word, b"string") {
        Some(Operator::Str)
    } else if same_word(word, b"int") {
        Some(Operator::Int)
    } else if same_word(word, b"datetime") {
        Some(Operator::DateTime)
    } else {
        None
    }
}

/// The operator of a word.
pub fn operator_of(word: &[u8]) -> Option<Operator>
    ensures { result ≡ spec.operator_of word.now }
{
    match item_operator(word) {
        Some(operator) => Some(operator),
        None => text_operator(word),
    }
}

fn some(least: u32, most: Option<u32>) -> Arity
    ensures { result ≡ record { least = least; most = most; literals = false } }
{
    Arity {
        least,
        most,
        literals: false,
    }
}

fn literals(least: u32, most: Option<u32>) -> Arity
    ensures { result ≡ record { least = least; most = most; literals = true } }
{
    Arity {
        least,
        most,
        literals: true,
    }
}

/// The operands that an operator may have.
pub fn operands_of(operator: Operator) -> Arity
    ensures { result ≡ spec.operands_of operator }
{
    match operator {
        Operator::And | Operator::Or | Operator::Any => some(1, None),
        Operator::AndNot | Operator::Xrank | Operator::Near | Operator::Onear => some(2, None),
        Operator::Not
        | Operator::Filter
        | Operator::Count
        | Operator::StartsWith
        | Operator::EndsWith
        | Operator::Equals => some(1, Some(1)),
        Operator::Range => some(2, Some(2)),
        Operator::Words | Operator::Phrase => literals(1, None),
        Operator::Str | Operator::Int | Operator::DateTime => literals(1, Some(1)),
    }
}
