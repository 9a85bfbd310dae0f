//! The texts that words and strings stand for.

ghost use Rattle.std.specs.Prelude.{◌≡◌, ◌≤◌, ◌<◌, ◌^◌, ◌++◌, false, length, chars, codes, string_bytes, IfOk, Ok, OnOk};
ghost use Rattle.std.specs.Str.{bytes_eq, encode_utf8_all};
ghost use Rattle.sq_lex.specs.FqlWhole.{IsWhole};
ghost use Rattle.sq_base.specs.Outcome.{Gives};
ghost use Rattle.sq_fql.specs.Read as spec;

use crate::codes::BAD_STAR;
use crate::fault::refused;
use crate::raw::{FPiece, FRaw};
use sq_base::{Fault, Text};
use sq_lex::{FKind, FLexeme};
use sq_tokens::{PatternFault, pattern_of};
use std::alloc::{AllocError, Global};

/// Adds what a character behind a backslash and the backslash stand for.
fn push_escaped(text: &mut String, c: char) -> Result<(), AllocError>
    ensures { OnOk result (string_bytes text.new ≡ string_bytes text.old ++ encode_utf8_all (spec.meant c)) }
{
    if c != '"' && c != '\\' {
        text.push('\\')?;
        text.push(c)?;
        return Ok(());
    }
    text.push(c)?;
    Ok(())
}

/// The text of a string without its escapes.
fn unescaped(alloc: Global, inside: &str) -> Result<Text, AllocError>
    ensures value { IfOk result (λ text. text ≡ encode_utf8_all (spec.unescaped false (chars inside.now))) }
    ensures short { IfOk result (λ text. length text ≤ length inside.now) }
{
    let mut text = String::new(alloc);
    let mut is_escape = false;
    for c in inside.chars() {
        if is_escape {
            push_escaped(&mut text, c)?;
            is_escape = false;
        } else if c == '\\' {
            is_escape = true;
        } else {
            text.push(c)?;
        }
    }
    if is_escape {
        text.push('\\')?;
    }
    Text::from_str(alloc, &text)
}

/// The bytes of a lexeme.
pub fn word_bytes(text: &str, lexeme: FLexeme) -> &[u8]
    requires { IsWhole text.now lexeme }
    ensures { result.now ≡ spec.word_text text.now lexeme }
{
    &text.as_bytes()[lexeme.from as usize..lexeme.to as usize]
}

/// The text of a lexeme, as it is written.
pub fn word_text(alloc: Global, text: &str, lexeme: FLexeme) -> Result<Text, AllocError>
    requires { IsWhole text.now lexeme }
    ensures { IfOk result (λ word. word ≡ spec.word_text text.now lexeme) }
{
    Text::from_str(alloc, &text[lexeme.from as usize..lexeme.to as usize])
}

/// The text that a word or a string stands for.
pub fn content(alloc: Global, text: &str, lexeme: FLexeme) -> Result<Text, AllocError>
    requires { IsWhole text.now lexeme }
    ensures value { IfOk result (λ content. content ≡ spec.content text.now lexeme) }
    ensures short { IfOk result (λ content. length content < 2 ^ 32) }
{
    match lexeme.kind {
        FKind::Str => unescaped(
            alloc,
            &text[lexeme.from as usize + 1..lexeme.to as usize - 1],
        ),
        _ => word_text(alloc, text, lexeme),
    }
}

/// Whether a text has a star that is not good.
fn has_bad_star(alloc: Global, text: &str) -> Result<bool, Fault>
    requires { length text.now < 2 ^ 32 }
    ensures { Gives (λ has. has) result (Ok (spec.has_bad_star text.now)) }
{
    match pattern_of(alloc, text) {
        Ok(_pattern) => Ok(false),
        Err(PatternFault::NoToken) => Ok(false),
        Err(PatternFault::BadStar(_)) => Ok(true),
        Err(PatternFault::NoMemory) => Err(Fault::NoMemory),
    }
}

/// A literal, unless it has a bad star.
#[tactic(auto, unfolding(crate::specs::Read::literal))]
pub fn literal(alloc: Global, text: &str, lexeme: FLexeme) -> Result<FRaw, Fault>
    requires { IsWhole text.now lexeme }
    ensures { Gives (λ tree. tree) result (spec.literal text.now lexeme) }
{
    let text = content(alloc, text, lexeme)?;
    let at = lexeme.from;
    if has_bad_star(alloc, text.as_str())? {
        return Err(Fault::Query(refused(BAD_STAR, at)));
    }
    Ok(FRaw::Literal(FPiece { at, text }))
}

fn is_star(word: &[u8]) -> bool
    ensures { result ≡ bytes_eq word.now (codes "*") }
{
    word == b"*".as_slice()
}

/// A literal or the word `*`.
#[tactic(auto, unfolding(crate::specs::Read::leaf))]
pub fn leaf(alloc: Global, text: &str, lexeme: FLexeme) -> Result<FRaw, Fault>
    requires { IsWhole text.now lexeme }
    ensures { Gives (λ tree. tree) result (spec.leaf text.now lexeme) }
{
    match lexeme.kind {
        FKind::Word if is_star(word_bytes(text, lexeme)) => Ok(FRaw::All(lexeme.from)),
        _ => literal(alloc, text, lexeme),
    }
}
