//! The lexemes of a text of the FAST Query Language.

ghost use Rattle.std.specs.Prelude.{List, ℕ, ◌≡◌, ◌≢◌, ◌≤◌, ◌<◌, ◌+◌, ◌-◌, ◌^◌, length, drop, slice_index, false, Ok, IfOk, IfSome, OnOk};
ghost use Rattle.std.specs.Str.{IsCharBoundary};
ghost use Rattle.sq_lex.specs.Bytes.{is_blank, is_in};
ghost use Rattle.sq_lex.specs.Fql as spec;
ghost use Rattle.sq_lex.specs.FqlWhole.{AreWhole, HasInside, IsWhole};
ghost use Rattle.sq_lex.specs.Limits.{most_text_bytes};
ghost use Rattle.sq_base.specs.Outcome.{Gives};

use crate::class::{Class, byte_at, past};
use crate::fql_codes::{TOO_LONG, UNCLOSED_STRING};
use crate::fql_lexeme::{FKind, FLexeme};
use crate::limits::MOST_TEXT_BYTES;
use crate::piece::refused;
use sq_base::{Fault, List, QueryFault};
use std::alloc::Global;

/// What a byte is where it is a lexeme by itself.
fn mark(byte: u8) -> Option<FKind>
    ensures value { result ≡ spec.mark byte }
    ensures ascii { IfSome result (λ _. byte < 128) }
    ensures whole { IfSome result (λ kind. (z : List ℕ) (from to : ℕ) → HasInside z from to kind) }
{
    match byte {
        b'(' => Some(FKind::LeftParen),
        b')' => Some(FKind::RightParen),
        b',' => Some(FKind::Comma),
        b'=' => Some(FKind::EqualSign),
        b':' => Some(FKind::Colon),
        _ => None,
    }
}

/// What a word that begins with this byte is made of.
fn word_class(first: u8) -> Class
    ensures { result ≡ spec.word_class first }
{
    if first.is_ascii_digit() || first == b'-' {
        Class::Parameter
    } else {
        Class::Term
    }
}

fn lexeme(kind: FKind, from: usize, to: usize) -> FLexeme
    requires from { from < 2 ^ 32 }
    requires to { to < 2 ^ 32 }
    ensures { result ≡ spec.lexeme kind from to }
{
    FLexeme {
        kind,
        from: from as u32,
        to: to as u32,
    }
}

/// The place of the first quote that no backslash escapes, of bytes that begin at `from`.
fn closing(from: usize, mut bytes: &[u8]) -> Option<usize>
    requires { from + length bytes.now < 2 ^ 32 }
    ensures value { result ≡ spec.closing false from bytes.entry.now }
    ensures within { IfSome result (λ close. (from ≤ close) × (close < from + length bytes.entry.now)) }
    ensures quote { IfSome result (λ close. slice_index bytes.entry.now (close - from) ≡ 34) }
{
    let mut at = from;
    let mut escaped = false;
    while let [byte, rest @ ..] = bytes {
        if !escaped && *byte == b'"' {
            return Some(at);
        }
        escaped = !escaped && *byte == b'\\';
        at += 1;
        bytes = rest;
    }
    None
}

/// The string whose quote opens at a place.
#[tactic(auto, unfolding(crate::specs::Fql::string_at))]
fn string_at(text: &str, at: usize) -> Result<FLexeme, QueryFault>
    requires short { length text.now ≤ most_text_bytes }
    requires quote { slice_index text.now at ≡ 34 }
    ensures value { result ≡ spec.string_at text.now at }
    ensures whole { IfOk result (IsWhole text.now) }
    ensures place { IfOk result (λ x. x.from ≡ at) }
{
    match closing(at + 1, &text.as_bytes()[at + 1..]) {
        Some(close) => Ok(lexeme(FKind::Str, at, close + 1)),
        None => Err(refused(UNCLOSED_STRING, at)),
    }
}

/// The lexeme that begins at a place, by the first rule that fits.
#[tactic(auto, unfolding(crate::specs::Fql::lexeme_at))]
fn lexeme_at(text: &str, at: usize) -> Result<FLexeme, QueryFault>
    requires short { length text.now ≤ most_text_bytes }
    requires between { IsCharBoundary text.now at }
    requires within { at < length text.now }
    requires begins { is_blank (slice_index text.now at) ≡ false }
    ensures value { result ≡ spec.lexeme_at text.now at }
    ensures whole { IfOk result (IsWhole text.now) }
    ensures place { IfOk result (λ x. (x.from ≡ at) × (at < x.to)) }
{
    let byte = byte_at(text, at);
    if byte == b'"' {
        return string_at(text, at);
    }
    match mark(byte) {
        Some(kind) => Ok(lexeme(kind, at, at + 1)),
        None => Ok(lexeme(FKind::Word, at, past(word_class(byte), text, at))),
    }
}

/// The lexemes of a text, or its first fault.
pub fn fql_lexemes(alloc: Global, text: &str) -> Result<List<FLexeme>, Fault>
    ensures lexemes { Gives (λ lexemes. lexemes) result (spec.fql_lexemes_of text.now) }
    ensures short { OnOk result (length text.now ≤ most_text_bytes) }
    // Each lexeme may be sliced from the text, and each string also without its quotes.
    ensures whole { IfOk result (λ lexemes. AreWhole text.now lexemes) }
{
    if text.len() > MOST_TEXT_BYTES {
        return Err(Fault::Query(refused(TOO_LONG, MOST_TEXT_BYTES)));
    }
    let mut lexemes = Vec::new(alloc);
    let mut at = past(Class::Blank, text, 0);
    'text: while at < text.len() {
        let lexeme = lexeme_at(text, at)?;
        lexemes.push(lexeme)?;
        at = past(Class::Blank, text, lexeme.to as usize);
    }
    Ok(List::from_vec(lexemes))
}
