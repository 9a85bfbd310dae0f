//! Typing of FQL.

ghost use Rattle.std.specs.Prelude.{◌≡◌, true, map, IfOk};
ghost use Rattle.sq_base.specs.Outcome.{Gives};
ghost use Rattle.sq_model.specs.FqlSound.{IsSound};
ghost use Rattle.sq_fql.specs.WellFormed.{IsWellFormed};
ghost use Rattle.sq_typing.specs.Fql as spec;
ghost use Rattle.sq_typing.specs.SpanForms.{is_filled};
ghost use Rattle.sq_typing.specs.Together.{all_of};

use crate::codes::{TOO_MANY_FORMS, WRONG_OPERATOR};
use crate::fql_build::combined;
use crate::fql_codes::NEEDS_PROPERTY;
use crate::fql_near::proximity;
use crate::fql_numbers::{in_numbers, number_literal, yes_no_literal};
use crate::fql_patterns::{all_tokens, sole_pattern};
use crate::fql_place::{Place, barred, entered};
use crate::fql_texts::{leaf_in, string};
use crate::span_copies::are_few_spans;
use crate::together::{pushed, refused};
use sq_base::{Fault, List, QueryFault};
use sq_fql::{FPiece, FRaw, Mode, Op};
use sq_model::{FTree, Leaf, Look, SpanTree};
use sq_schema::Schema;
use std::alloc::{AllocError, Global};

/// An outermost proximity expression, if it has not too many copies.
#[tactic(auto, unfolding(crate::specs::Fql::with_few_copies))]
fn with_few_copies(
    alloc: Global,
    at: u32,
    look: Look,
    near: Result<SpanTree, QueryFault>,
) -> Result<Result<FTree, QueryFault>, AllocError>
    requires { IfOk near (λ tree. is_filled tree ≡ true) }
    ensures { IfOk result (λ tree. tree ≡ spec.few_copies at look near) }
{
    match near {
        Ok(tree) => {
            if are_few_spans(alloc, &tree)? {
                Ok(Ok(FTree::Spans { look, tree }))
            } else {
                Ok(Err(refused(TOO_MANY_FORMS, at)))
            }
        }
        Err(fault) => Ok(Err(fault)),
    }
}

fn edge(
    look: Look,
    starts: bool,
    ends: bool,
    pattern: Result<Leaf, QueryFault>,
) -> Result<FTree, QueryFault>
    ensures { result ≡ spec.edge look starts ends pattern }
{
    match pattern {
        Ok(leaf) => Ok(FTree::Edge {
            look,
            leaf,
            starts,
            ends,
        }),
        Err(fault) => Err(fault),
    }
}

fn counted(
    look: Look,
    from: u32,
    to: Option<u32>,
    pattern: Result<Leaf, QueryFault>,
) -> Result<FTree, QueryFault>
    ensures { result ≡ spec.counted look from to pattern }
{
    match pattern {
        Ok(leaf) => Ok(FTree::Count {
            look,
            leaf,
            from,
            to,
        }),
        Err(fault) => Err(fault),
    }
}

/// A string in mode AND.
fn every_token(
    alloc: Global,
    look: Look,
    operands: &[FRaw],
) -> Result<Result<FTree, QueryFault>, AllocError>
    ensures { IfOk result (λ tree. tree ≡ spec.every_token look operands.now) }
{
    match string(alloc, operands)? {
        Ok(leaf) => {
            let tree = all_tokens(alloc, look, &leaf)?;
            Ok(Ok(tree))
        }
        Err(fault) => Ok(Err(fault)),
    }
}

/// A proximity expression that stands in no other.
fn outermost(
    alloc: Global,
    schema: &Schema,
    look: Look,
    at: u32,
    op: Op,
    operands: &[FRaw],
) -> Result<Result<FTree, QueryFault>, AllocError>
    ensures { IfOk result (λ tree. tree ≡ spec.outermost schema.now look at op operands.now) }
{
    let near = proximity(alloc, schema, look, at, op, operands)?;
    let tree = with_few_copies(alloc, at, look, near)?;
    Ok(tree)
}

/// An operator that isn't for all kinds, outside of every scope or in a text scope.
fn in_texts(
    alloc: Global,
    schema: &Schema,
    look: Look,
    at: u32,
    op: Op,
    operands: &[FRaw],
) -> Result<Result<FTree, QueryFault>, AllocError>
    ensures { IfOk result (λ tree. tree ≡ spec.in_texts schema.now look at op operands.now) }
{
    match op {
        Op::Range { .. } | Op::Int | Op::DateTime => Ok(Err(barred(
            look,
            NEEDS_PROPERTY,
            WRONG_OPERATOR,
            at,
        ))),
        Op::Count { from, to } => Ok(counted(
            look,
            from,
            to,
            sole_pattern(alloc, schema, operands)?,
        )),
        Op::StartsWith => Ok(edge(look, true, false, sole_pattern(alloc, schema, operands)?)),
        Op::EndsWith => Ok(edge(look, false, true, sole_pattern(alloc, schema, operands)?)),
        Op::Equals => Ok(edge(look, true, true, sole_pattern(alloc, schema, operands)?)),
        Op::Str {
            mode: Mode::And,
            n: _,
        } => every_token(alloc, look, operands),
        _ => outermost(alloc, schema, look, at, op, operands),
    }
}

fn in_scope(
    alloc: Global,
    schema: &Schema,
    place: Place,
    at: u32,
    op: Op,
    operands: &[FRaw],
) -> Result<Result<FTree, QueryFault>, AllocError>
    ensures { IfOk result (λ tree. tree ≡ spec.in_scope schema.now place at op operands.now) }
{
    match place {
        Place::Texts(look) => in_texts(alloc, schema, look, at, op, operands),
        Place::Numbers { row, measure } => Ok(in_numbers(schema, row, measure, at, op, operands)),
        Place::YesNo(_) => Ok(Err(refused(WRONG_OPERATOR, at))),
    }
}

/// The operators that all kinds have.
fn is_for_all(op: Op) -> bool
    ensures { result ≡ spec.is_for_all op }
{
    matches!(
        op,
        Op::And | Op::Or | Op::Any | Op::AndNot | Op::Not | Op::Filter | Op::Xrank { .. }
    )
}

fn every_item(place: Place, at: u32) -> Result<FTree, QueryFault>
    ensures { result ≡ spec.every_item place at }
{
    match place {
        Place::Texts(Look::Searchable) => Ok(FTree::All),
        _ => Err(refused(WRONG_OPERATOR, at)),
    }
}

fn text_literal(
    alloc: Global,
    look: Look,
    piece: &FPiece,
) -> Result<Result<FTree, QueryFault>, AllocError>
    ensures { IfOk result (λ tree. tree ≡ spec.text_literal look piece.now) }
{
    match leaf_in(alloc, piece)? {
        Ok(leaf) => Ok(Ok(FTree::Spans {
            look,
            tree: SpanTree::Leaf(leaf),
        })),
        Err(fault) => Ok(Err(fault)),
    }
}

fn literal(
    alloc: Global,
    place: Place,
    piece: &FPiece,
) -> Result<Result<FTree, QueryFault>, AllocError>
    ensures { IfOk result (λ tree. tree ≡ spec.literal place piece.now) }
{
    match place {
        Place::Texts(look) => text_literal(alloc, look, piece),
        Place::Numbers { row, measure } => Ok(number_literal(row, measure, piece)),
        Place::YesNo(row) => Ok(yes_no_literal(row, piece)),
    }
}

#[cycle(fql)]
#[tactic(auto, using(crate::proofs::FqlEquations::typed_rules), unfolding(crate::specs::Fql::applied))]
fn typed(
    alloc: Global,
    schema: &Schema,
    place: Place,
    tree: &FRaw,
) -> Result<Result<FTree, QueryFault>, AllocError>
    ensures { IfOk result (λ typed. typed ≡ spec.typed_at schema.now place tree.now) }
{
    match tree {
        FRaw::All(at) => Ok(every_item(place, *at)),
        FRaw::Literal(piece) => literal(alloc, place, piece),
        FRaw::Scope { at, name, inner } => match entered(schema, place, *at, name.as_str()) {
            Ok(inside) => {
                let scoped = typed(alloc, schema, inside, inner.get())?;
                Ok(scoped)
            }
            Err(fault) => Ok(Err(fault)),
        },
        FRaw::Apply { at, op, operands } => {
            if is_for_all(*op) {
                let parts = typed_each(alloc, schema, place, operands.as_slice())?;
                let all = combined(alloc, *op, parts)?;
                Ok(all)
            } else {
                let alone = in_scope(alloc, schema, place, *at, *op, operands.as_slice())?;
                Ok(alone)
            }
        }
    }
}

#[cycle(fql)]
#[tactic(auto, using(crate::proofs::TogetherLemmas::together_rules))]
fn typed_each(
    alloc: Global,
    schema: &Schema,
    place: Place,
    parts: &[FRaw],
) -> Result<Result<List<FTree>, QueryFault>, AllocError>
    ensures { IfOk result (λ trees. trees ≡ all_of (map (spec.typed_at schema.now place) parts.now)) }
{
    let mut trees: Result<List<FTree>, QueryFault> = Ok(List::new(alloc));
    for part in parts {
        let next = typed(alloc, schema, place, part)?;
        trees = pushed(trees, next)?;
    }
    Ok(trees)
}

/// What an FQL expression asks of a schema ([MS-FQL2]). A refusal has the code and the place of the fault that
/// goes first: at the least place, and there the lowest code, 311 only where there is no other.
pub fn type_fql(alloc: Global, tree: &FRaw, schema: &Schema) -> Result<FTree, Fault>
    ensures typed { Gives (λ tree. tree) result (spec.fql_typed schema.now tree.now) }
    ensures sound { IsWellFormed tree.now → IfOk result (IsSound schema.now) }
{
    let outcome = typed(alloc, schema, Place::Texts(Look::Searchable), tree)?;
    let tree = outcome?;
    Ok(tree)
}
