//! Phrases, strings and their tokens.

ghost use Rattle.std.specs.Prelude.{◌≡◌, ◌<◌, length, IfOk};
ghost use Rattle.sq_typing.specs.FqlTexts as spec;
ghost use Rattle.sq_typing.specs.Together.{all_of};

use crate::codes::WRONG_OPERATOR;
use crate::fql_place::misplaced;
use crate::fql_texts::{leaf_in, pattern_in, string, unread};
use crate::together::{pushed, refused};
use sq_base::{List, QueryFault, Text};
use sq_fql::{FPiece, FRaw, Mode, Op};
use sq_model::{FTree, Leaf, Look, SpanTree};
use sq_schema::Schema;
use sq_tokens::Pattern;
use std::alloc::{AllocError, Global};

/// A literal of a phrase, which ends in a star only where it is the last.
#[tactic(auto, unfolding(crate::specs::FqlTexts::phrase_part))]
fn phrase_part(
    alloc: Global,
    last: bool,
    piece: &FPiece,
) -> Result<Result<Pattern, QueryFault>, AllocError>
    ensures { IfOk result (λ part. part ≡ spec.phrase_part last piece.now) }
{
    match pattern_in(alloc, piece)? {
        Ok(pattern) => {
            if pattern.prefixed() && !last {
                Ok(Err(refused(WRONG_OPERATOR, piece.at)))
            } else {
                Ok(Ok(pattern))
            }
        }
        Err(fault) => Ok(Err(fault)),
    }
}

fn part_in(
    alloc: Global,
    last: bool,
    operand: &FRaw,
) -> Result<Result<Pattern, QueryFault>, AllocError>
    ensures { IfOk result (λ part. part ≡ spec.part_in last operand.now) }
{
    match operand {
        FRaw::Literal(piece) => phrase_part(alloc, last, piece),
        FRaw::All(_) | FRaw::Scope { .. } | FRaw::Apply { .. } => Ok(Err(unread())),
    }
}

#[tactic(auto, using(crate::proofs::TogetherLemmas::together_rules))]
fn phrase_parts(
    alloc: Global,
    operands: &[FRaw],
) -> Result<Result<List<Pattern>, QueryFault>, AllocError>
    ensures { IfOk result (λ parts. parts ≡ all_of (spec.phrase_parts operands.now)) }
{
    let mut parts: Result<List<Pattern>, QueryFault> = Ok(List::new(alloc));
    let mut left = operands;
    while let [first, rest @ ..] = left {
        let part = part_in(alloc, rest.is_empty(), first)?;
        parts = pushed(parts, part)?;
        left = rest;
    }
    Ok(parts)
}

fn first_text(operands: &[FRaw]) -> &str
    ensures { result.now ≡ spec.first_text operands.now }
{
    match operands {
        [first, ..] => match first {
            FRaw::Literal(piece) => piece.text.as_str(),
            FRaw::All(_) | FRaw::Scope { .. } | FRaw::Apply { .. } => "",
        },
        [] => "",
    }
}

/// The literals' tokens one after the other.
pub(crate) fn phrase(
    alloc: Global,
    operands: &[FRaw],
) -> Result<Result<Leaf, QueryFault>, AllocError>
    ensures { IfOk result (λ leaf. leaf ≡ spec.phrase operands.now) }
{
    if operands.is_empty() {
        return Ok(Err(unread()));
    }
    match phrase_parts(alloc, operands)? {
        Ok(parts) => {
            let pattern = Pattern::joined(alloc, parts.as_slice())?;
            let text = Text::from_str(alloc, first_text(operands))?;
            Ok(Ok(Leaf { text, pattern }))
        }
        Err(fault) => Ok(Err(fault)),
    }
}

/// One token of a literal alone.
fn single_leaf(alloc: Global, whole: &Leaf, i: usize) -> Result<SpanTree, AllocError>
    requires { i < length whole.now.pattern.texts }
    ensures { IfOk result (λ one. one ≡ spec.single_leaf whole.now i) }
{
    let pattern = whole.pattern.single(alloc, i)?;
    let text = Text::from_str(alloc, whole.text.as_str())?;
    Ok(SpanTree::Leaf(Leaf { text, pattern }))
}

fn single_spans(alloc: Global, whole: &Leaf) -> Result<List<SpanTree>, AllocError>
    ensures { IfOk result (λ all. all ≡ spec.single_spans whole.now) }
{
    let mut all = List::new(alloc);
    for i in 0..whole.pattern.len() {
        all.push(single_leaf(alloc, whole, i)?)?;
    }
    Ok(all)
}

/// A string as a proximity expression, which it is in all modes but AND.
pub(crate) fn string_spans(
    alloc: Global,
    mode: Mode,
    n: u32,
    whole: Leaf,
) -> Result<SpanTree, AllocError>
    ensures { IfOk result (λ tree. tree ≡ spec.string_spans mode n whole) }
{
    match mode {
        Mode::Phrase => Ok(SpanTree::Leaf(whole)),
        Mode::And | Mode::Or | Mode::Any => {
            let parts = single_spans(alloc, &whole)?;
            Ok(SpanTree::Union(parts))
        }
        Mode::Near => {
            let parts = single_spans(alloc, &whole)?;
            Ok(SpanTree::Near {
                parts,
                n,
                ordered: false,
            })
        }
        Mode::Onear => {
            let parts = single_spans(alloc, &whole)?;
            Ok(SpanTree::Near {
                parts,
                n,
                ordered: true,
            })
        }
    }
}

/// A string in mode AND.
pub(crate) fn all_tokens(alloc: Global, look: Look, whole: &Leaf) -> Result<FTree, AllocError>
    ensures { IfOk result (λ tree. tree ≡ spec.all_tokens look whole.now) }
{
    let mut all = List::new(alloc);
    for i in 0..whole.pattern.len() {
        let tree = single_leaf(alloc, whole, i)?;
        all.push(FTree::Spans { look, tree })?;
    }
    Ok(FTree::And(all))
}

fn phrase_of(
    alloc: Global,
    at: u32,
    op: Op,
    operands: &[FRaw],
) -> Result<Result<Leaf, QueryFault>, AllocError>
    ensures { IfOk result (λ leaf. leaf ≡ spec.phrase_of at op operands.now) }
{
    match op {
        Op::Phrase => phrase(alloc, operands),
        Op::Str {
            mode: Mode::Phrase,
            n: _,
        } => string(alloc, operands),
        _ => Ok(Err(refused(WRONG_OPERATOR, at))),
    }
}

/// One pattern: a literal, a phrase, or a string in mode PHRASE.
#[tactic(auto, using(crate::proofs::FqlEquations::bound_rules))]
fn one_pattern(
    alloc: Global,
    schema: &Schema,
    operand: &FRaw,
) -> Result<Result<Leaf, QueryFault>, AllocError>
    ensures { IfOk result (λ leaf. leaf ≡ spec.one_pattern schema.now operand.now) }
{
    match operand {
        FRaw::All(at) => Ok(Err(refused(WRONG_OPERATOR, *at))),
        FRaw::Literal(piece) => leaf_in(alloc, piece),
        FRaw::Scope { at, name, inner: _ } => Ok(Err(misplaced(
            schema,
            WRONG_OPERATOR,
            *at,
            name.as_str(),
        ))),
        FRaw::Apply { at, op, operands } => phrase_of(alloc, *at, *op, operands.as_slice()),
    }
}

/// The only operand of count, starts-with, ends-with or equals.
pub(crate) fn sole_pattern(
    alloc: Global,
    schema: &Schema,
    operands: &[FRaw],
) -> Result<Result<Leaf, QueryFault>, AllocError>
    ensures { IfOk result (λ leaf. leaf ≡ spec.sole_pattern schema.now operands.now) }
{
    match operands {
        [operand] => one_pattern(alloc, schema, operand),
        _ => Ok(Err(unread())),
    }
}
