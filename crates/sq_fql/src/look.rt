//! What stands next among lexemes.

ghost use Rattle.std.specs.Prelude.{List, ℕ, ◌≡◌, ◌<◌, ◌-◌, ◌^◌, length, IfOk};
ghost use Rattle.sq_lex.specs.FqlWhole.{AreWhole, IsWhole};
ghost use Rattle.sq_fql.specs.Read as spec;

use crate::codes::{MISSING_ARGUMENT, UNCLOSED_PAREN, UNEXPECTED};
use crate::fault::refused;
use sq_base::QueryFault;
use sq_lex::{FKind, FLexeme};

/// What a word or a string is, by the lexeme behind it.
#[derive(Clone, Copy, Debug, PartialEq, Eq)]
pub enum Role {
    /// A word before `(`.
    Operator,
    /// A word before `:`.
    Scope,
    /// A word before `=`.
    Parameter,
    Literal,
}

/// The lexemes behind the first.
pub fn behind(lexemes: &[FLexeme]) -> &[FLexeme]
    ensures value { result.now ≡ spec.behind lexemes.now }
    ensures len { length result.now ≡ length lexemes.now - 1 }
    ensures whole { (z : List ℕ) → AreWhole z lexemes.now → AreWhole z result.now }
{
    match lexemes {
        [] => lexemes,
        [_, rest @ ..] => rest,
    }
}

/// The place of the first lexeme.
pub fn first_at(lexemes: &[FLexeme]) -> u32
    ensures { result ≡ spec.first_at lexemes.now }
{
    match lexemes {
        [] => 0,
        [lexeme, ..] => lexeme.from,
    }
}

fn role_before(kind: FKind) -> Role
    ensures { result ≡ spec.role_before kind }
{
    match kind {
        FKind::LeftParen => Role::Operator,
        FKind::Colon => Role::Scope,
        FKind::EqualSign => Role::Parameter,
        FKind::Str | FKind::Word | FKind::RightParen | FKind::Comma => Role::Literal,
    }
}

/// What a word or a string is, by the lexemes behind it.
pub fn role_of(lexeme: FLexeme, rest: &[FLexeme]) -> Role
    ensures { result ≡ spec.role_of lexeme rest.now }
{
    match lexeme.kind {
        FKind::Word => match rest {
            [] => Role::Literal,
            [next, ..] => role_before(next.kind),
        },
        _ => Role::Literal,
    }
}

/// The word or the string that an operand or a value begins with.
pub fn wanted(text: &str, lexemes: &[FLexeme]) -> Result<FLexeme, QueryFault>
    requires short { length text.now < 2 ^ 32 }
    requires whole { AreWhole text.now lexemes.now }
    ensures value { result ≡ spec.wanted text.now lexemes.now }
    ensures whole { IfOk result (IsWhole text.now) }
    ensures some { IfOk result (λ _. 0 < length lexemes.now) }
{
    match lexemes {
        [] => Err(refused(MISSING_ARGUMENT, text.len() as u32)),
        [lexeme, ..] => match lexeme.kind {
            FKind::Str | FKind::Word => Ok(*lexeme),
            FKind::Comma | FKind::RightParen => Err(refused(MISSING_ARGUMENT, lexeme.from)),
            FKind::LeftParen | FKind::EqualSign | FKind::Colon => Err(refused(
                UNEXPECTED,
                lexeme.from,
            )),
        },
    }
}

/// What stands behind an entry of a list: a comma, or `)` and its place.
pub fn separator(text: &str, lexemes: &[FLexeme]) -> Result<Option<u32>, QueryFault>
    requires short { length text.now < 2 ^ 32 }
    ensures value { result ≡ spec.separator text.now lexemes.now }
    ensures some { IfOk result (λ _. 0 < length lexemes.now) }
{
    match lexemes {
        [] => Err(refused(UNCLOSED_PAREN, text.len() as u32)),
        [lexeme, ..] => match lexeme.kind {
            FKind::Comma => Ok(None),
            FKind::RightParen => Ok(Some(lexeme.from)),
            _ => Err(refused(UNEXPECTED, lexeme.from)),
        },
    }
}
