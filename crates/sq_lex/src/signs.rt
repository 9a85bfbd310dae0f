//! Runs of signs.

ghost use Rattle.std.specs.Prelude.{◌≡◌, ◌≤◌, ◌<◌, length, slice_index, slice_range, true, IfOk, Ok};
ghost use Rattle.std.specs.Str.{IsCharBoundary};
ghost use Rattle.sq_lex.specs.Bytes.{is_in};
ghost use Rattle.sq_lex.specs.Kql as spec;
ghost use Rattle.sq_lex.specs.Pieces.{AddsItems, IsPlaceAfter, Takes};
ghost use Rattle.sq_lex.specs.Whole.{AreWhole};
ghost use Rattle.sq_lex.specs.Limits.{most_text_bytes};

use crate::class::{Class, byte_at, is_blank, past};
use crate::lexeme::{KKind, KLexeme};
use crate::piece::push_one;
use sq_base::Fault;

/// The end, white space or `)` stands at a place behind signs.
fn ends_idle(text: &str, to: usize) -> bool
    ensures { result ≡ spec.ends_idle text.now to }
{
    let next = byte_at(text, to);
    text.len() <= to || is_blank(next) || next == b')'
}

fn sign(byte: u8) -> KKind
    ensures { result ≡ spec.sign byte }
{
    if byte == b'+' {
        KKind::Plus
    } else {
        KKind::Minus
    }
}

/// A lexeme for each sign of a run.
fn push_signs(text: &str, from: usize, to: usize, lexemes: &mut Vec<KLexeme>) -> Result<(), Fault>
    requires short { length text.now ≤ most_text_bytes }
    requires ordered { from ≤ to }
    requires within { to ≤ length text.now }
    ensures added { AddsItems lexemes.old.items lexemes.new.items result (Ok (spec.sign_lexemes from (slice_range text.now from to))) }
    ensures whole { AreWhole text.now lexemes.old.items → AreWhole text.now lexemes.new.items }
{
    let mut at = from;
    while at < to {
        push_one(lexemes, sign(byte_at(text, at)), at, at + 1)?;
        at += 1;
    }
    Ok(())
}

/// Each sign of a run, or the whole run where it is white space.
#[tactic(auto, unfolding(crate::specs::Kql::signs))]
pub fn signs(text: &str, at: usize, lexemes: &mut Vec<KLexeme>) -> Result<usize, Fault>
    requires short { length text.now ≤ most_text_bytes }
    requires between { IsCharBoundary text.now at }
    requires within { at < length text.now }
    requires sign { is_in Class.Sign (slice_index text.now at) ≡ true }
    ensures taken { Takes lexemes.old.items lexemes.new.items result (Ok (spec.signs text.now at)) }
    ensures whole { AreWhole text.now lexemes.old.items → AreWhole text.now lexemes.new.items }
    ensures place { IfOk result (IsPlaceAfter text.now at) }
{
    let to = past(Class::Sign, text, at);
    if ends_idle(text, to) {
        return Ok(to);
    }
    push_signs(text, at, to, lexemes)?;
    Ok(to)
}
