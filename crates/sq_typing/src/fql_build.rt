//! What the operators that all kinds have make of their operands.

ghost use Rattle.std.specs.Prelude.{◌≡◌, ◌∷◌, [], IfOk, MatchOption};
ghost use Rattle.sq_typing.specs.Fql as spec;

use crate::fql_texts::unread;
use sq_base::{List, QueryFault};
use sq_fql::Op;
use sq_model::FTree;
use sqlite_items::Boxed;
use std::alloc::{AllocError, Global};

/// The first tree and the others.
fn split(trees: List<FTree>) -> Option<(FTree, List<FTree>)>
    ensures { MatchOption result (trees ≡ []) (λ parts. trees ≡ parts.0 ∷ parts.1) }
{
    let mut items = trees.into_vec();
    if items.is_empty() {
        return None;
    }
    let first = items.remove(0);
    Some((first, List::from_vec(items)))
}

/// The first tree and the others, of which there is one at least.
fn first_and_others(trees: List<FTree>) -> Option<(FTree, List<FTree>)>
    ensures { result ≡ spec.first_and_others trees }
{
    let (first, others) = split(trees)?;
    if others.len() == 0 {
        None
    } else {
        Some((first, others))
    }
}

fn only_tree(trees: List<FTree>) -> Option<FTree>
    ensures { result ≡ spec.only_tree trees }
{
    let (first, others) = split(trees)?;
    if others.len() == 0 { Some(first) } else { None }
}

/// An operator of one operand or more.
fn and_of(trees: List<FTree>) -> Result<FTree, QueryFault>
    ensures { result ≡ spec.made FTree.And (spec.some_trees trees) }
{
    if trees.len() == 0 {
        return Err(unread());
    }
    Ok(FTree::And(trees))
}

fn or_of(trees: List<FTree>) -> Result<FTree, QueryFault>
    ensures { result ≡ spec.made FTree.Or (spec.some_trees trees) }
{
    if trees.len() == 0 {
        return Err(unread());
    }
    Ok(FTree::Or(trees))
}

fn not_of(alloc: Global, inner: Option<FTree>) -> Result<Result<FTree, QueryFault>, AllocError>
    ensures { IfOk result (λ tree. tree ≡ spec.made FTree.Not inner) }
{
    match inner {
        Some(inner) => {
            let inner = Boxed::new(alloc, inner)?;
            Ok(Ok(FTree::Not(inner)))
        }
        None => Ok(Err(unread())),
    }
}

fn filter_of(alloc: Global, inner: Option<FTree>) -> Result<Result<FTree, QueryFault>, AllocError>
    ensures { IfOk result (λ tree. tree ≡ spec.made FTree.Filter inner) }
{
    match inner {
        Some(inner) => {
            let inner = Boxed::new(alloc, inner)?;
            Ok(Ok(FTree::Filter(inner)))
        }
        None => Ok(Err(unread())),
    }
}

fn and_not_of(
    alloc: Global,
    parts: Option<(FTree, List<FTree>)>,
) -> Result<Result<FTree, QueryFault>, AllocError>
    ensures { IfOk result (λ tree. tree ≡ spec.made (λ p. FTree.AndNot p.0 p.1) parts) }
{
    match parts {
        Some((first, others)) => {
            let first = Boxed::new(alloc, first)?;
            Ok(Ok(FTree::AndNot { first, others }))
        }
        None => Ok(Err(unread())),
    }
}

fn xrank_of(
    alloc: Global,
    parts: Option<(FTree, List<FTree>)>,
    cb: i64,
) -> Result<Result<FTree, QueryFault>, AllocError>
    ensures { IfOk result (λ tree. tree ≡ spec.made (λ p. FTree.Xrank p.0 p.1 cb) parts) }
{
    match parts {
        Some((matched, ranks)) => {
            let matched = Boxed::new(alloc, matched)?;
            Ok(Ok(FTree::Xrank { matched, ranks, cb }))
        }
        None => Ok(Err(unread())),
    }
}

/// What an operator makes of its operands.
fn combined_trees(
    alloc: Global,
    op: Op,
    trees: List<FTree>,
) -> Result<Result<FTree, QueryFault>, AllocError>
    ensures { IfOk result (λ tree. tree ≡ spec.combined op trees) }
{
    match op {
        Op::And => Ok(and_of(trees)),
        Op::Or | Op::Any => Ok(or_of(trees)),
        Op::AndNot => and_not_of(alloc, first_and_others(trees)),
        Op::Not => not_of(alloc, only_tree(trees)),
        Op::Filter => filter_of(alloc, only_tree(trees)),
        Op::Xrank { cb } => xrank_of(alloc, first_and_others(trees), cb),
        _ => Ok(Err(unread())),
    }
}

/// What an operator makes of the outcomes of its operands together.
pub(crate) fn combined(
    alloc: Global,
    op: Op,
    trees: Result<List<FTree>, QueryFault>,
) -> Result<Result<FTree, QueryFault>, AllocError>
    ensures { IfOk result (λ tree. tree ≡ spec.combined_all op trees) }
{
    match trees {
        Ok(trees) => combined_trees(alloc, op, trees),
        Err(fault) => Ok(Err(fault)),
    }
}
