//! The weights that the matches of an expression may have, and the choices of one weight of each part.
ghost use Rattle.std.specs.Prelude.{◌≡◌, ◌^◌, ◌≤◌, [], ◌∷◌, ◌++◌, filter, map, nat_eq, sum, length, IfOk, OnOk, MatchOption};
ghost use Rattle.sq_model.specs.Copies.{distinct, weights};
ghost use Rattle.sq_model.specs.Lists.{joined};
ghost use Rattle.sq_model.specs.Triples.{choices};
ghost use Rattle.sq_least.specs.Dense.{weights_of_sum};
ghost use Rattle.sq_streams.specs.TreeWeights.{extended, with_all, with_last};

use sq_base::List;
use sq_model::{Leaf, SpanTree};
use std::alloc::{AllocError, Global};

// ---- numbers, each once

fn put_last(found: &mut Vec<u32>, weight: u32) -> Result<(), AllocError>
    ensures { OnOk result (found.new.items ≡ with_last found.old.items weight) }
{
    found.retain(|other| *other != weight);
    found.push(weight)?;
    Ok(())
}

#[inline(never)]
fn put_all(found: &mut Vec<u32>, more: &[u32]) -> Result<(), AllocError>
    ensures { OnOk result (found.new.items ≡ with_all found.old.items more.now) }
{
    for weight in more {
        put_last(found, *weight)?;
    }
    Ok(())
}

fn each_once(alloc: Global, numbers: &[u32]) -> Result<Vec<u32>, AllocError>
    ensures { IfOk result (λ found. found.items ≡ distinct numbers.now) }
{
    let mut found = Vec::new(alloc);
    put_all(&mut found, numbers)?;
    Ok(found)
}

// ---- choices

fn copy_with(alloc: Global, chosen: &[u32], weight: u32) -> Result<List<u32>, AllocError>
    ensures { IfOk result (λ copy. copy ≡ chosen.now ++ weight ∷ []) }
{
    let mut copy = List::new(alloc);
    for other in chosen {
        copy.push(*other)?;
    }
    copy.push(weight)?;
    Ok(copy)
}

fn add_copies(
    alloc: Global,
    all: &mut List<List<u32>>,
    chosen: &[u32],
    weights: &[u32],
) -> Result<(), AllocError>
    ensures { OnOk result (all.new ≡ all.old ++ map (λ weight. chosen.now ++ weight ∷ []) weights.now) }
{
    for weight in weights {
        all.push(copy_with(alloc, chosen, *weight)?)?;
    }
    Ok(())
}

/// The last weight takes the choice itself, so that no choice is copied where a part has one weight.
fn add_choices(
    alloc: Global,
    all: &mut List<List<u32>>,
    mut chosen: List<u32>,
    weights: &[u32],
) -> Result<(), AllocError>
    ensures { OnOk result (all.new ≡ all.old ++ map (λ weight. chosen ++ weight ∷ []) weights.now) }
{
    match weights {
        [] => Ok(()),
        [others @ .., last] => {
            add_copies(alloc, all, chosen.as_slice(), others)?;
            chosen.push(*last)?;
            all.push(chosen)?;
            Ok(())
        }
    }
}

fn each_with(
    alloc: Global,
    all: List<List<u32>>,
    weights: &[u32],
) -> Result<List<List<u32>>, AllocError>
    ensures { IfOk result (λ more. more ≡ extended all weights.now) }
{
    let mut more = List::new(alloc);
    for chosen in all.into_vec() {
        add_choices(alloc, &mut more, chosen, weights)?;
    }
    Ok(more)
}

/// Every choice of one number of each list.
pub(crate) fn choices_of(alloc: Global, lists: &[List<u32>]) -> Result<List<List<u32>>, AllocError>
    ensures { IfOk result (λ all. all ≡ choices lists.now) }
{
    let mut all = List::new(alloc);
    all.push(List::new(alloc))?;
    for list in lists {
        all = each_with(alloc, all, list.as_slice())?;
    }
    Ok(all)
}

/// The sum, and `None` where it passes 32 bits.
pub(crate) fn sum_of(chosen: &[u32]) -> Option<u32>
    ensures { MatchOption result (2 ^ 32 ≤ sum chosen.now) (λ total. total ≡ sum chosen.now) }
{
    let mut total: u32 = 0;
    for weight in chosen {
        total = total.checked_add(*weight)?;
    }
    Some(total)
}

/// Gives up, as for want of memory, where a sum passes 32 bits.
fn sums_of(alloc: Global, all: &[List<u32>]) -> Result<Vec<u32>, AllocError>
    ensures { IfOk result (λ sums. sums.items ≡ map sum all.now) }
{
    let mut sums = Vec::new(alloc);
    for chosen in all {
        let Some(total) = sum_of(chosen.as_slice()) else {
            return Err(AllocError);
        };
        sums.push(total)?;
    }
    Ok(sums)
}

/// The sums of the choices of one number of each list, each once.
#[inline(never)]
fn sums_once(alloc: Global, lists: List<List<u32>>) -> Result<Vec<u32>, AllocError>
    ensures { IfOk result (λ found. found.items ≡ distinct (map sum (choices lists))) }
{
    let all = choices_of(alloc, lists.as_slice())?;
    let sums = sums_of(alloc, all.as_slice())?;
    let found = each_once(alloc, sums.as_slice())?;
    Ok(found)
}

// ---- of expressions. What does not lead back to `weights_of` is not put into its caller's frame, which stands on
// the stack once for each level of an expression.

/// Gives up, as for want of memory, where a literal has more tokens than 32 bits count.
#[inline(never)]
fn weight_of(alloc: Global, leaf: &Leaf) -> Result<Vec<u32>, AllocError>
    ensures { IfOk result (λ found. found.items ≡ length leaf.now.pattern.texts ∷ []) }
{
    let Ok(weight) = u32::try_from(leaf.pattern.len()) else {
        return Err(AllocError);
    };
    let mut found = Vec::new(alloc);
    found.push(weight)?;
    Ok(found)
}

/// The weights that the matches of an expression may have, each once. Gives up, as for want of
/// memory, where one passes 32 bits.
#[cycle(weights_of)]
#[tactic(auto, using(crate::proofs::WeightLemmas::weight_rules))]
pub(crate) fn weights_of(alloc: Global, tree: &SpanTree) -> Result<Vec<u32>, AllocError>
    ensures { IfOk result (λ found. found.items ≡ weights tree.now) }
{
    match tree {
        SpanTree::Leaf(leaf) => {
            let found = weight_of(alloc, leaf)?;
            Ok(found)
        }
        SpanTree::Union(parts) => {
            let found = weights_of_union(alloc, parts.as_slice())?;
            Ok(found)
        }
        SpanTree::Near { parts, .. } => {
            let found = weights_of_near(alloc, parts.as_slice())?;
            Ok(found)
        }
    }
}

#[cycle(weights_of)]
#[inline(never)]
fn weights_of_union(alloc: Global, parts: &[SpanTree]) -> Result<Vec<u32>, AllocError>
    ensures { IfOk result (λ found. found.items ≡ distinct (joined (map weights parts.now))) }
{
    let mut found = Vec::new(alloc);
    for part in parts {
        let more = weights_of(alloc, part)?;
        put_all(&mut found, more.as_slice())?;
    }
    Ok(found)
}

#[cycle(weights_of)]
fn weights_of_near(alloc: Global, parts: &[SpanTree]) -> Result<Vec<u32>, AllocError>
    ensures { IfOk result (λ found. found.items ≡ distinct (map sum (choices (map weights parts.now)))) }
{
    let each = weights_each(alloc, parts)?;
    let found = sums_once(alloc, each)?;
    Ok(found)
}

/// The weights of each of the expressions.
#[cycle(weights_of)]
pub(crate) fn weights_each(alloc: Global, parts: &[SpanTree]) -> Result<List<List<u32>>, AllocError>
    ensures { IfOk result (λ each. each ≡ map weights parts.now) }
{
    let mut each = List::new(alloc);
    for part in parts {
        let found = weights_of(alloc, part)?;
        each.push(List::from_vec(found))?;
    }
    Ok(each)
}

/// The choices of one weight of each part that have the sum.
#[inline(never)]
pub(crate) fn choices_with(
    alloc: Global,
    parts: &[SpanTree],
    v: u32,
) -> Result<List<List<u32>>, AllocError>
    ensures { IfOk result (λ all. all ≡ weights_of_sum v (map weights parts.now)) }
{
    let each = weights_each(alloc, parts)?;
    let all = choices_of(alloc, each.as_slice())?;
    let found = with_sum(alloc, all, v)?;
    Ok(found)
}

fn has_sum(chosen: &[u32], v: u32) -> bool
    ensures { result ≡ nat_eq (sum chosen.now) v }
{
    match sum_of(chosen) {
        Some(total) => total == v,
        None => false,
    }
}

fn with_sum(alloc: Global, all: List<List<u32>>, v: u32) -> Result<List<List<u32>>, AllocError>
    ensures { IfOk result (λ found. found ≡ filter (λ vs. nat_eq (sum vs) v) all) }
{
    let mut found = List::new(alloc);
    for chosen in all.into_vec() {
        if has_sum(chosen.as_slice(), v) {
            found.push(chosen)?;
        }
    }
    Ok(found)
}
