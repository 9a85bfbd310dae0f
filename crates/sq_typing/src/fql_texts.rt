//! What the literals of a text expression of FQL ask for.

ghost use Rattle.std.specs.Prelude.{◌≡◌, map, option_copied, IfOk};
ghost use Rattle.sq_typing.specs.FqlPlaces.{fault};
ghost use Rattle.sq_typing.specs.FqlTexts as spec;
ghost use Rattle.sq_typing.specs.Together.{all_of};
ghost use Rattle.sq_typing.specs.declared.codes.TheConstants as code;

use crate::codes::{NO_TOKEN, WRONG_OPERATOR};
use crate::together::{pushed, refused};
use sq_base::{List, QueryFault, Text};
use sq_fql::{FPiece, FRaw};
use sq_model::{Leaf, SpanTree};
use sq_tokens::{Pattern, PatternFault, pattern_of};
use std::alloc::{AllocError, Global};

/// The fault of a tree that reading doesn't give.
pub(crate) fn unread() -> QueryFault
    ensures { result ≡ fault code.WRONG_OPERATOR 0 }
{
    refused(WRONG_OPERATOR, 0)
}

/// The pattern of a literal. Gives up, as for want of memory, where it has 2^32 bytes or more.
#[tactic(auto, unfolding(crate::specs::FqlTexts::pattern_in))]
pub(crate) fn pattern_in(
    alloc: Global,
    piece: &FPiece,
) -> Result<Result<Pattern, QueryFault>, AllocError>
    ensures { IfOk result (λ pattern. pattern ≡ spec.pattern_in piece.now) }
{
    let text = piece.text.as_str();
    if text.len() >= 1 << 32 {
        return Err(AllocError);
    }
    match pattern_of(alloc, text) {
        Ok(pattern) => Ok(Ok(pattern)),
        Err(PatternFault::BadStar(_)) => Ok(Err(unread())),
        Err(PatternFault::NoToken) => Ok(Err(refused(NO_TOKEN, piece.at))),
        Err(PatternFault::NoMemory) => Err(AllocError),
    }
}

pub(crate) fn leaf_in(alloc: Global, piece: &FPiece) -> Result<Result<Leaf, QueryFault>, AllocError>
    ensures { IfOk result (λ leaf. leaf ≡ spec.leaf_in piece.now) }
{
    match pattern_in(alloc, piece)? {
        Ok(pattern) => {
            let text = Text::from_str(alloc, piece.text.as_str())?;
            Ok(Ok(Leaf { text, pattern }))
        }
        Err(fault) => Ok(Err(fault)),
    }
}

/// The literal as a proximity expression.
pub(crate) fn span_in(
    alloc: Global,
    piece: &FPiece,
) -> Result<Result<SpanTree, QueryFault>, AllocError>
    ensures { IfOk result (λ tree. tree ≡ spec.span_in piece.now) }
{
    match leaf_in(alloc, piece)? {
        Ok(leaf) => Ok(Ok(SpanTree::Leaf(leaf))),
        Err(fault) => Ok(Err(fault)),
    }
}

/// The only operand, if it is a literal.
pub(crate) fn only_literal(operands: &[FRaw]) -> Option<&FPiece>
    ensures { option_copied result ≡ spec.only_literal operands.now }
{
    match operands {
        [operand] => match operand {
            FRaw::Literal(piece) => Some(piece),
            FRaw::All(_) | FRaw::Scope { .. } | FRaw::Apply { .. } => None,
        },
        _ => None,
    }
}

fn word_in(alloc: Global, operand: &FRaw) -> Result<Result<SpanTree, QueryFault>, AllocError>
    ensures { IfOk result (λ tree. tree ≡ spec.word_in operand.now) }
{
    match operand {
        FRaw::Literal(piece) => span_in(alloc, piece),
        FRaw::All(_) | FRaw::Scope { .. } | FRaw::Apply { .. } => Ok(Err(unread())),
    }
}

#[tactic(auto, using(crate::proofs::TogetherLemmas::together_rules))]
fn each_word(
    alloc: Global,
    operands: &[FRaw],
) -> Result<Result<List<SpanTree>, QueryFault>, AllocError>
    ensures { IfOk result (λ words. words ≡ all_of (map spec.word_in operands.now)) }
{
    let mut words: Result<List<SpanTree>, QueryFault> = Ok(List::new(alloc));
    for operand in operands {
        let word = word_in(alloc, operand)?;
        words = pushed(words, word)?;
    }
    Ok(words)
}

/// Any one of the literals.
pub(crate) fn words(
    alloc: Global,
    operands: &[FRaw],
) -> Result<Result<SpanTree, QueryFault>, AllocError>
    ensures { IfOk result (λ tree. tree ≡ spec.words operands.now) }
{
    if operands.is_empty() {
        return Ok(Err(unread()));
    }
    match each_word(alloc, operands)? {
        Ok(words) => Ok(Ok(SpanTree::Union(words))),
        Err(fault) => Ok(Err(fault)),
    }
}

pub(crate) fn string(
    alloc: Global,
    operands: &[FRaw],
) -> Result<Result<Leaf, QueryFault>, AllocError>
    ensures { IfOk result (λ leaf. leaf ≡ spec.string operands.now) }
{
    match only_literal(operands) {
        Some(piece) => leaf_in(alloc, piece),
        None => Ok(Err(unread())),
    }
}
