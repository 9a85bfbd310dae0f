//! Typing of what stands in NEAR and ONEAR.

ghost use Rattle.std.specs.Prelude.{◌≡◌, Ok, All, map, IfOk};
ghost use Rattle.sq_typing.specs.Formed.{IsFormed, IsLiteral};
ghost use Rattle.sq_typing.specs.Kql as spec;
ghost use Rattle.sq_typing.specs.KqlValues.{leaf_of};
ghost use Rattle.sq_typing.specs.KqlValues as values;
ghost use Rattle.sq_typing.specs.Together.{all_of, mapped, together};

use crate::codes::NOT_IN_PROXIMITY;
use crate::kql_build::{group_of, near_of, or_of};
use crate::kql_values::misplaced;
use crate::leaves::{leaf, leaves};
use crate::together::{pushed, refused};
use sq_base::{List, QueryFault};
use sq_kql::{KRaw, Piece, Relation as Spelled};
use sq_model::KTree;
use sq_schema::Schema;
use std::alloc::{AllocError, Global};

#[inline(never)]
fn free_of(alloc: Global, piece: &Piece) -> Result<Result<KTree, QueryFault>, AllocError>
    requires { IsLiteral piece.now }
    ensures { IfOk result (λ typed. typed ≡ Ok (KTree.Free (leaf_of piece.now.text))) }
{
    let leaf = leaf(alloc, piece)?;
    Ok(Ok(KTree::Free(leaf)))
}

#[inline(never)]
fn words_of(alloc: Global, pieces: &[Piece]) -> Result<Result<KTree, QueryFault>, AllocError>
    requires { All IsLiteral pieces.now }
    ensures { IfOk result (λ typed. typed ≡ Ok (KTree.Words (spec.leaves_of pieces.now))) }
{
    let leaves = leaves(alloc, pieces)?;
    Ok(Ok(KTree::Words(leaves)))
}

/// The fault of a restriction.
#[inline(never)]
fn misplaced_in(
    schema: &Schema,
    at: u32,
    name: &str,
    relation: Spelled,
) -> Result<Result<KTree, QueryFault>, AllocError>
    ensures { IfOk result (λ typed. typed ≡ values.misplaced schema.now at name.now (values.relation_of relation)) }
{
    Ok(misplaced(schema, at, name, relation))
}

#[cycle(kql_near)]
#[inline(never)]
fn group_in(
    alloc: Global,
    schema: &Schema,
    inside: &KRaw,
) -> Result<Result<KTree, QueryFault>, AllocError>
    requires { IsFormed inside.now }
    ensures { IfOk result (λ typed. typed ≡ mapped KTree.Group (spec.proximate schema.now inside.now)) }
{
    let inside = proximate(alloc, schema, inside)?;
    let group = group_of(alloc, inside)?;
    Ok(group)
}

#[cycle(kql_near)]
#[inline(never)]
fn or_in(
    alloc: Global,
    schema: &Schema,
    parts: &[KRaw],
) -> Result<Result<KTree, QueryFault>, AllocError>
    requires { All IsFormed parts.now }
    ensures { IfOk result (λ typed. typed ≡ mapped KTree.Or (all_of (map (spec.proximate schema.now) parts.now))) }
{
    let parts = proximate_each(alloc, schema, parts)?;
    Ok(or_of(parts))
}

/// The typed tree of a NEAR or ONEAR whose left side was typed.
#[cycle(kql_near)]
#[inline(never)]
fn near_right(
    alloc: Global,
    schema: &Schema,
    left: &KRaw,
    right: &KRaw,
    first: Result<Result<KTree, QueryFault>, AllocError>,
    n: u32,
    ordered: bool,
) -> Result<Result<KTree, QueryFault>, AllocError>
    requires { IsFormed right.now × IfOk first (λ typed. typed ≡ spec.proximate schema.now left.now) }
    ensures { IfOk result (λ typed. typed ≡ together (λ l r. KTree.Near l r n ordered) (spec.proximate schema.now left.now) (spec.proximate schema.now right.now)) }
{
    let first = first?;
    let second = proximate(alloc, schema, right)?;
    let near = near_of(alloc, first, second, n, ordered)?;
    Ok(near)
}

/// The typed tree of a NEAR or ONEAR inside another. A text may nest as deep as it is long, to the left: so this way has one slot
/// for a typed tree at each level, and what holds more, as what has no parts, is in a function of its own.
#[cycle(kql_near)]
#[inline(never)]
fn near_in(
    alloc: Global,
    schema: &Schema,
    left: &KRaw,
    right: &KRaw,
    n: u32,
    ordered: bool,
) -> Result<Result<KTree, QueryFault>, AllocError>
    requires { IsFormed left.now × IsFormed right.now }
    ensures { IfOk result (λ typed. typed ≡ together (λ l r. KTree.Near l r n ordered) (spec.proximate schema.now left.now) (spec.proximate schema.now right.now)) }
{
    let first = proximate(alloc, schema, left);
    near_right(alloc, schema, left, right, first, n, ordered)
}

/// The typed tree of an expression inside NEAR or ONEAR.
#[cycle(kql_near)]
#[tactic(auto, using(crate::proofs::KqlEquations::proximate_rules))]
pub(crate) fn proximate(
    alloc: Global,
    schema: &Schema,
    tree: &KRaw,
) -> Result<Result<KTree, QueryFault>, AllocError>
    requires { IsFormed tree.now }
    ensures { IfOk result (λ typed. typed ≡ spec.proximate schema.now tree.now) }
{
    match tree {
        KRaw::Free(piece) => free_of(alloc, piece),
        KRaw::Words { at: _, pieces } => words_of(alloc, pieces.as_slice()),
        KRaw::Group { at: _, inner } => group_in(alloc, schema, inner.get()),
        KRaw::Restrict {
            at,
            name,
            relation,
            value: _,
            upper: _,
        } => misplaced_in(schema, *at, name.as_str(), *relation),
        KRaw::Near {
            at: _,
            left,
            right,
            n,
            ordered,
        } => near_in(alloc, schema, left.get(), right.get(), *n, *ordered),
        KRaw::Or { at: _, parts } => or_in(alloc, schema, parts.as_slice()),
        KRaw::All(at) => Ok(Err(refused(NOT_IN_PROXIMITY, *at))),
        KRaw::Run { at, operands: _ } => Ok(Err(refused(NOT_IN_PROXIMITY, *at))),
        KRaw::And { at, parts: _ } => Ok(Err(refused(NOT_IN_PROXIMITY, *at))),
        KRaw::Xrank {
            at,
            matched: _,
            ranked: _,
            cb: _,
        } => Ok(Err(refused(NOT_IN_PROXIMITY, *at))),
    }
}

#[cycle(kql_near)]
#[tactic(auto, using(crate::proofs::TogetherLemmas::together_rules))]
fn proximate_each(
    alloc: Global,
    schema: &Schema,
    parts: &[KRaw],
) -> Result<Result<List<KTree>, QueryFault>, AllocError>
    requires { All IsFormed parts.now }
    ensures { IfOk result (λ typed. typed ≡ all_of (map (spec.proximate schema.now) parts.now)) }
{
    let mut typed: Result<List<KTree>, QueryFault> = Ok(List::new(alloc));
    for part in parts {
        let next = proximate(alloc, schema, part)?;
        typed = pushed(typed, next)?;
    }
    Ok(typed)
}
