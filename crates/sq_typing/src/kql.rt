//! Typing of KQL.

ghost use Rattle.std.specs.Prelude.{◌≡◌, true, All, map, IfOk};
ghost use Rattle.sq_base.specs.Outcome.{Gives};
ghost use Rattle.sq_schema.specs.Intervals.{clamped};
ghost use Rattle.sq_kql.specs.WellFormed.{IsWellFormed};
ghost use Rattle.sq_model.specs.KqlSound.{IsSound};
ghost use Rattle.sq_typing.specs.Formed.{IsFormed};
ghost use Rattle.sq_typing.specs.Forms.{is_filled};
ghost use Rattle.sq_typing.specs.Kql as spec;
ghost use Rattle.sq_typing.specs.Together.{all_of, mapped};

use crate::codes::TOO_MANY_FORMS;
use crate::copies::are_few;
use crate::kql_build::{and_of, group_of, or_of, run_of, xrank_of};
use crate::kql_near::proximate;
use crate::kql_values::{relation_of, restriction};
use crate::leaves::{leaf, leaves};
use crate::together::{pushed, refused};
use sq_base::{Fault, List, QueryFault};
use sq_kql::{KRaw, KRawOperand, RawSign};
use sq_model::{KOperand, KTree, Sign};
use sq_schema::{Schema, dates_lie_in_years, names_lie_in_years};
use std::alloc::{AllocError, Global};

/// An outermost proximity expression, if it has not too many copies.
#[tactic(auto, unfolding(crate::specs::Kql::with_few_copies))]
fn with_few_copies(
    alloc: Global,
    at: u32,
    near: Result<KTree, QueryFault>,
) -> Result<Result<KTree, QueryFault>, AllocError>
    requires { IfOk near (λ tree. is_filled tree ≡ true) }
    ensures { IfOk result (λ tree. tree ≡ spec.few_copies at near) }
{
    match near {
        Ok(tree) => {
            if are_few(alloc, &tree)? {
                Ok(Ok(tree))
            } else {
                Ok(Err(refused(TOO_MANY_FORMS, at)))
            }
        }
        Err(fault) => Ok(Err(fault)),
    }
}

fn sign_of(sign: RawSign) -> Sign
    ensures { result ≡ spec.sign_of sign }
{
    match sign {
        RawSign::Plain => Sign::Plain,
        RawSign::Plus => Sign::Plus,
        RawSign::Minus => Sign::Minus,
    }
}

fn operand_of(sign: RawSign, tree: Result<KTree, QueryFault>) -> Result<KOperand, QueryFault>
    ensures { result ≡ mapped (spec.operand_of sign) tree }
{
    match tree {
        Ok(tree) => Ok(KOperand {
            sign: sign_of(sign),
            tree,
        }),
        Err(fault) => Err(fault),
    }
}

#[cycle(kql)]
#[tactic(auto, using(crate::proofs::KqlEquations::typed_rules))]
fn typed(
    alloc: Global,
    schema: &Schema,
    now: i64,
    tree: &KRaw,
) -> Result<Result<KTree, QueryFault>, AllocError>
    requires now { now ≡ clamped now }
    requires formed { IsFormed tree.now }
    ensures { IfOk result (λ typed. typed ≡ spec.typed schema.now now tree.now) }
{
    match tree {
        KRaw::Free(piece) => {
            let leaf = leaf(alloc, piece)?;
            Ok(Ok(KTree::Free(leaf)))
        }
        KRaw::All(_) => Ok(Ok(KTree::All)),
        KRaw::Words { at: _, pieces } => {
            let leaves = leaves(alloc, pieces.as_slice())?;
            Ok(Ok(KTree::Words(leaves)))
        }
        KRaw::Group { at: _, inner } => {
            let inside = typed(alloc, schema, now, inner.get())?;
            let group = group_of(alloc, inside)?;
            Ok(group)
        }
        KRaw::Restrict {
            at,
            name,
            relation,
            value,
            upper,
        } => {
            let relation = relation_of(*relation);
            let test = restriction(
                alloc,
                schema,
                now,
                *at,
                name.as_str(),
                relation,
                value,
                upper,
            )?;
            Ok(test)
        }
        KRaw::Near { at, .. } => {
            let near = proximate(alloc, schema, tree)?;
            let few = with_few_copies(alloc, *at, near)?;
            Ok(few)
        }
        KRaw::Run { at: _, operands } => {
            let operands = typed_operands(alloc, schema, now, operands.as_slice())?;
            Ok(run_of(operands))
        }
        KRaw::And { at: _, parts } => {
            let parts = typed_each(alloc, schema, now, parts.as_slice())?;
            Ok(and_of(parts))
        }
        KRaw::Or { at: _, parts } => {
            let parts = typed_each(alloc, schema, now, parts.as_slice())?;
            Ok(or_of(parts))
        }
        KRaw::Xrank {
            at: _,
            matched,
            ranked,
            cb,
        } => {
            let matched = typed(alloc, schema, now, matched.get())?;
            let ranked = typed(alloc, schema, now, ranked.get())?;
            let xrank = xrank_of(alloc, matched, ranked, *cb)?;
            Ok(xrank)
        }
    }
}

#[cycle(kql)]
#[tactic(auto, using(crate::proofs::TogetherLemmas::together_rules))]
fn typed_each(
    alloc: Global,
    schema: &Schema,
    now: i64,
    parts: &[KRaw],
) -> Result<Result<List<KTree>, QueryFault>, AllocError>
    requires now { now ≡ clamped now }
    requires formed { All IsFormed parts.now }
    ensures { IfOk result (λ trees. trees ≡ all_of (map (spec.typed schema.now now) parts.now)) }
{
    let mut trees: Result<List<KTree>, QueryFault> = Ok(List::new(alloc));
    for part in parts {
        let next = typed(alloc, schema, now, part)?;
        trees = pushed(trees, next)?;
    }
    Ok(trees)
}

#[cycle(kql)]
#[tactic(auto, using(crate::proofs::TogetherLemmas::together_rules))]
fn typed_operands(
    alloc: Global,
    schema: &Schema,
    now: i64,
    parts: &[KRawOperand],
) -> Result<Result<List<KOperand>, QueryFault>, AllocError>
    requires now { now ≡ clamped now }
    requires formed { All (λ operand. IsFormed operand.tree) parts.now }
    ensures { IfOk result (λ operands. operands ≡ all_of (map (spec.typed_operand schema.now now) parts.now)) }
{
    let mut operands: Result<List<KOperand>, QueryFault> = Ok(List::new(alloc));
    for part in parts {
        let tree = typed(alloc, schema, now, &part.tree)?;
        operands = pushed(operands, operand_of(part.sign, tree))?;
    }
    Ok(operands)
}

/// What a KQL expression asks of a schema at a moment, in UTC seconds since 1970-01-01T00:00:00Z ([MS-KQL]).
/// A refusal has the code and the place of the fault that goes first: at the least place, and there the lowest
/// code, 311 only where there is no other.
pub fn type_kql(alloc: Global, tree: &KRaw, schema: &Schema, now: i64) -> Result<KTree, Fault>
    requires now { now ≡ clamped now }
    requires formed { IsWellFormed tree.now }
    ensures typed { Gives (λ tree. tree) result (spec.typed schema.now now tree.now) }
    ensures sound { IfOk result (IsSound schema.now) }
{
    dates_lie_in_years();
    names_lie_in_years();
    let outcome = typed(alloc, schema, now, tree)?;
    let tree = outcome?;
    Ok(tree)
}
