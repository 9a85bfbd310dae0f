//! Pieces of free text.

ghost use Rattle.std.specs.Prelude.{List, ℕ, ◌≡◌, ◌≤◌, ◌<◌, ◌+◌, ◌^◌, length, slice_index, IfOk, Ok};
ghost use Rattle.std.specs.Str.{IsCharBoundary};
ghost use Rattle.sq_lex.specs.Kql as spec;
ghost use Rattle.sq_base.specs.Outcome.{Gives};
ghost use Rattle.sq_lex.specs.Pieces.{IsPiece, IsPieceAfter, IsPlaceAfter, Takes};
ghost use Rattle.sq_lex.specs.Whole.{AreWhole, HasPieces};
ghost use Rattle.sq_lex.specs.Limits.{most_text_bytes};

use crate::class::{Class, past};
use crate::codes::{BAD_STAR, UNCLOSED_STRING};
use crate::lexeme::{Cut, KKind, KLexeme};
use sq_base::{Fault, QueryFault};
use sq_tokens::{PatternFault, pattern_of};
use std::alloc::Global;

pub fn refused(code: u16, at: usize) -> QueryFault
    requires { at < 2 ^ 32 }
    ensures { result ≡ record { code = code; at = at } }
{
    QueryFault {
        code,
        at: at as u32,
    }
}

pub fn cut(from: usize, to: usize, quoted: bool) -> Cut
    requires from { from < 2 ^ 32 }
    requires to { to < 2 ^ 32 }
    ensures { result ≡ spec.cut from to quoted }
{
    Cut {
        from: from as u32,
        to: to as u32,
        quoted,
    }
}

pub fn past_cut(cut: Cut) -> usize
    ensures { result ≡ spec.past_cut cut }
{
    if cut.quoted {
        cut.to as usize + 1
    } else {
        cut.to as usize
    }
}

/// The place where a piece begins, with its opening quote where it is quoted.
pub fn cut_at(cut: Cut) -> usize
    ensures value { result ≡ spec.cut_at cut }
    ensures within { result ≤ cut.from }
{
    if cut.quoted {
        (cut.from as usize).saturating_sub(1)
    } else {
        cut.from as usize
    }
}

/// Adds one lexeme, and answers the place behind it.
#[tactic(auto, using(crate::proofs::PieceLemmas::pieces_push))]
pub fn push_one(
    lexemes: &mut Vec<KLexeme>,
    kind: KKind,
    from: usize,
    to: usize,
) -> Result<usize, Fault>
    requires from { from < 2 ^ 32 }
    requires to { to < 2 ^ 32 }
    ensures taken { Takes lexemes.old.items lexemes.new.items result (Ok (spec.one kind from to)) }
    ensures whole { (z : List ℕ) → HasPieces z from kind → AreWhole z lexemes.old.items → AreWhole z lexemes.new.items }
    ensures place { IfOk result (λ place. place ≡ to) }
{
    lexemes.push(KLexeme {
        kind,
        from: from as u32,
        to: to as u32,
    })?;
    Ok(to)
}

/// Whether a piece has a token. One with a bad star is refused at the first.
#[tactic(auto, unfolding(crate::specs::Kql::judged))]
pub fn judged(alloc: Global, text: &str, cut: Cut) -> Result<bool, Fault>
    requires short { length text.now ≤ most_text_bytes }
    requires piece { IsPiece text.now cut }
    ensures { Gives (λ has. has) result (spec.judged text.now cut) }
{
    match pattern_of(alloc, &text[cut.from as usize..cut.to as usize]) {
        Ok(_pattern) => Ok(true),
        Err(PatternFault::NoToken) => Ok(false),
        Err(PatternFault::BadStar(star)) => Err(Fault::Query(refused(
            BAD_STAR,
            (cut.from + star) as usize,
        ))),
        Err(PatternFault::NoMemory) => Err(Fault::NoMemory),
    }
}

/// Free text, from the place where its lexeme begins.
#[tactic(auto, unfolding(crate::specs::Kql::free))]
pub fn free(
    alloc: Global,
    text: &str,
    at: usize,
    cut: Cut,
    lexemes: &mut Vec<KLexeme>,
) -> Result<usize, Fault>
    requires short { length text.now ≤ most_text_bytes }
    requires at { at < 2 ^ 32 }
    requires piece { IsPiece text.now cut }
    ensures taken { Takes lexemes.old.items lexemes.new.items result (spec.free text.now at cut) }
    ensures whole { AreWhole text.now lexemes.old.items → AreWhole text.now lexemes.new.items }
    ensures place { IfOk result (λ to. to ≡ spec.past_cut cut) }
{
    if judged(alloc, text, cut)? {
        push_one(lexemes, KKind::Free(cut), at, past_cut(cut))
    } else {
        Ok(past_cut(cut))
    }
}

/// The text inside the piece that open at a place.
#[tactic(auto, unfolding(crate::specs::Kql::quoted))]
pub fn quoted(text: &str, at: usize) -> Result<Cut, QueryFault>
    requires short { length text.now ≤ most_text_bytes }
    requires quote { slice_index text.now at ≡ 34 }
    ensures value { result ≡ spec.quoted text.now at }
    ensures piece { IfOk result (IsPieceAfter text.now at) }
{
    let to = past(Class::Quoted, text, at + 1);
    if to < text.len() {
        Ok(cut(at + 1, to, true))
    } else {
        Err(refused(UNCLOSED_STRING, at))
    }
}

/// A phrase of free text.
#[tactic(auto, unfolding(crate::specs::Kql::phrase))]
pub fn phrase(
    alloc: Global,
    text: &str,
    at: usize,
    lexemes: &mut Vec<KLexeme>,
) -> Result<usize, Fault>
    requires short { length text.now ≤ most_text_bytes }
    requires quote { slice_index text.now at ≡ 34 }
    ensures taken { Takes lexemes.old.items lexemes.new.items result (spec.phrase text.now at) }
    ensures whole { AreWhole text.now lexemes.old.items → AreWhole text.now lexemes.new.items }
    ensures place { IfOk result (IsPlaceAfter text.now at) }
{
    let cut = quoted(text, at)?;
    free(alloc, text, at, cut, lexemes)
}
