//! Typing of what stands in near and onear.

ghost use Rattle.std.specs.Prelude.{◌≡◌, map, IfOk};
ghost use Rattle.sq_typing.specs.Fql as spec;
ghost use Rattle.sq_typing.specs.Together.{all_of};

use crate::codes::{NOT_IN_PROXIMITY, WRONG_OPERATOR};
use crate::fql_patterns::{phrase, string_spans};
use crate::fql_place::{barred, misplaced};
use crate::fql_texts::{span_in, string, unread, words};
use crate::together::{pushed, refused};
use sq_base::{List, QueryFault};
use sq_fql::{FRaw, Mode, Op};
use sq_model::{Look, SpanTree};
use sq_schema::Schema;
use std::alloc::{AllocError, Global};

/// A phrase as a proximity expression.
fn phrase_span(alloc: Global, operands: &[FRaw]) -> Result<Result<SpanTree, QueryFault>, AllocError>
    ensures { IfOk result (λ tree. tree ≡ spec.phrase_span operands.now) }
{
    match phrase(alloc, operands)? {
        Ok(leaf) => Ok(Ok(SpanTree::Leaf(leaf))),
        Err(fault) => Ok(Err(fault)),
    }
}

/// A string as a proximity expression.
fn string_span(
    alloc: Global,
    mode: Mode,
    n: u32,
    operands: &[FRaw],
) -> Result<Result<SpanTree, QueryFault>, AllocError>
    ensures { IfOk result (λ tree. tree ≡ spec.string_span mode n operands.now) }
{
    match string(alloc, operands)? {
        Ok(leaf) => {
            let tree = string_spans(alloc, mode, n, leaf)?;
            Ok(Ok(tree))
        }
        Err(fault) => Ok(Err(fault)),
    }
}

/// An operator inside near or onear that joins no proximity expressions.
fn lone(
    alloc: Global,
    look: Look,
    at: u32,
    op: Op,
    operands: &[FRaw],
) -> Result<Result<SpanTree, QueryFault>, AllocError>
    ensures { IfOk result (λ tree. tree ≡ spec.lone look at op operands.now) }
{
    match op {
        Op::Words => words(alloc, operands),
        Op::Phrase => phrase_span(alloc, operands),
        Op::Str { mode, n } => match mode {
            Mode::And => Ok(Err(refused(NOT_IN_PROXIMITY, at))),
            _ => string_span(alloc, mode, n, operands),
        },
        Op::Range { .. } | Op::Int | Op::DateTime => Ok(Err(barred(
            look,
            NOT_IN_PROXIMITY,
            WRONG_OPERATOR,
            at,
        ))),
        _ => Ok(Err(refused(NOT_IN_PROXIMITY, at))),
    }
}

fn joins(op: Op) -> bool
    ensures { result ≡ spec.joins op }
{
    matches!(op, Op::Or | Op::Any | Op::Near(_) | Op::Onear(_))
}

fn joined_parts(op: Op, parts: List<SpanTree>) -> Result<SpanTree, QueryFault>
    ensures { result ≡ spec.joined_spans op parts }
{
    if parts.len() == 0 {
        return Err(unread());
    }
    match op {
        Op::Near(n) => Ok(SpanTree::Near {
            parts,
            n,
            ordered: false,
        }),
        Op::Onear(n) => Ok(SpanTree::Near {
            parts,
            n,
            ordered: true,
        }),
        _ => Ok(SpanTree::Union(parts)),
    }
}

fn joined_spans(op: Op, parts: Result<List<SpanTree>, QueryFault>) -> Result<SpanTree, QueryFault>
    ensures { result ≡ spec.joined_all op parts }
{
    match parts {
        Ok(parts) => joined_parts(op, parts),
        Err(fault) => Err(fault),
    }
}

/// The typed tree of an expression inside near or onear.
#[cycle(fql_near)]
#[tactic(auto, using(crate::proofs::FqlEquations::proximate_rules), unfolding(crate::specs::Fql::proximity))]
fn proximate(
    alloc: Global,
    schema: &Schema,
    look: Look,
    tree: &FRaw,
) -> Result<Result<SpanTree, QueryFault>, AllocError>
    ensures { IfOk result (λ typed. typed ≡ spec.proximate schema.now look tree.now) }
{
    match tree {
        FRaw::All(at) => Ok(Err(barred(look, NOT_IN_PROXIMITY, WRONG_OPERATOR, *at))),
        FRaw::Literal(piece) => span_in(alloc, piece),
        FRaw::Scope { at, name, inner: _ } => Ok(Err(misplaced(
            schema,
            NOT_IN_PROXIMITY,
            *at,
            name.as_str(),
        ))),
        FRaw::Apply { at, op, operands } => {
            if joins(*op) {
                let parts = proximate_each(alloc, schema, look, operands.as_slice())?;
                Ok(joined_spans(*op, parts))
            } else {
                let tree = lone(alloc, look, *at, *op, operands.as_slice())?;
                Ok(tree)
            }
        }
    }
}

#[cycle(fql_near)]
#[tactic(auto, using(crate::proofs::TogetherLemmas::together_rules))]
fn proximate_each(
    alloc: Global,
    schema: &Schema,
    look: Look,
    parts: &[FRaw],
) -> Result<Result<List<SpanTree>, QueryFault>, AllocError>
    ensures { IfOk result (λ typed. typed ≡ all_of (map (spec.proximate schema.now look) parts.now)) }
{
    let mut typed: Result<List<SpanTree>, QueryFault> = Ok(List::new(alloc));
    for part in parts {
        let next = proximate(alloc, schema, look, part)?;
        typed = pushed(typed, next)?;
    }
    Ok(typed)
}

/// The typed tree of an outermost proximity expression.
#[tactic(auto, unfolding(crate::specs::Fql::proximity))]
pub(crate) fn proximity(
    alloc: Global,
    schema: &Schema,
    look: Look,
    at: u32,
    op: Op,
    operands: &[FRaw],
) -> Result<Result<SpanTree, QueryFault>, AllocError>
    ensures { IfOk result (λ typed. typed ≡ spec.proximity look at op operands.now (map (spec.proximate schema.now look) operands.now)) }
{
    if joins(op) {
        let parts = proximate_each(alloc, schema, look, operands)?;
        Ok(joined_spans(op, parts))
    } else {
        let tree = lone(alloc, look, at, op, operands)?;
        Ok(tree)
    }
}
