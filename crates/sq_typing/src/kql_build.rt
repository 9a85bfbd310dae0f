//! Typed trees of the outcomes of their parts.

ghost use Rattle.std.specs.Prelude.{◌≡◌, IfOk};
ghost use Rattle.sq_typing.specs.Together.{mapped, together};

use crate::together::both;
use sq_base::{List, QueryFault};
use sq_model::{KOperand, KTree};
use sqlite_items::Boxed;
use std::alloc::{AllocError, Global};

pub(crate) fn group_of(
    alloc: Global,
    inside: Result<KTree, QueryFault>,
) -> Result<Result<KTree, QueryFault>, AllocError>
    ensures { IfOk result (λ tree. tree ≡ mapped KTree.Group inside) }
{
    match inside {
        Ok(inside) => {
            let inside = Boxed::new(alloc, inside)?;
            Ok(Ok(KTree::Group(inside)))
        }
        Err(fault) => Ok(Err(fault)),
    }
}

#[tactic(auto, using(crate::proofs::TogetherLemmas::by_pair))]
pub(crate) fn near_of(
    alloc: Global,
    left: Result<KTree, QueryFault>,
    right: Result<KTree, QueryFault>,
    n: u32,
    ordered: bool,
) -> Result<Result<KTree, QueryFault>, AllocError>
    ensures { IfOk result (λ tree. tree ≡ together (λ l r. KTree.Near l r n ordered) left right) }
{
    match both(left, right) {
        Ok((left, right)) => {
            let left = Boxed::new(alloc, left)?;
            let right = Boxed::new(alloc, right)?;
            Ok(Ok(KTree::Near {
                left,
                right,
                n,
                ordered,
            }))
        }
        Err(fault) => Ok(Err(fault)),
    }
}

#[tactic(auto, using(crate::proofs::TogetherLemmas::by_pair))]
pub(crate) fn xrank_of(
    alloc: Global,
    matched: Result<KTree, QueryFault>,
    ranked: Result<KTree, QueryFault>,
    cb: i64,
) -> Result<Result<KTree, QueryFault>, AllocError>
    ensures { IfOk result (λ tree. tree ≡ together (λ m r. KTree.Xrank m r cb) matched ranked) }
{
    match both(matched, ranked) {
        Ok((matched, ranked)) => {
            let matched = Boxed::new(alloc, matched)?;
            let ranked = Boxed::new(alloc, ranked)?;
            Ok(Ok(KTree::Xrank {
                matched,
                ranked,
                cb,
            }))
        }
        Err(fault) => Ok(Err(fault)),
    }
}

pub(crate) fn and_of(parts: Result<List<KTree>, QueryFault>) -> Result<KTree, QueryFault>
    ensures { result ≡ mapped KTree.And parts }
{
    match parts {
        Ok(parts) => Ok(KTree::And(parts)),
        Err(fault) => Err(fault),
    }
}

pub(crate) fn or_of(parts: Result<List<KTree>, QueryFault>) -> Result<KTree, QueryFault>
    ensures { result ≡ mapped KTree.Or parts }
{
    match parts {
        Ok(parts) => Ok(KTree::Or(parts)),
        Err(fault) => Err(fault),
    }
}

pub(crate) fn run_of(operands: Result<List<KOperand>, QueryFault>) -> Result<KTree, QueryFault>
    ensures { result ≡ mapped KTree.Run operands }
{
    match operands {
        Ok(operands) => Ok(KTree::Run(operands)),
        Err(fault) => Err(fault),
    }
}
