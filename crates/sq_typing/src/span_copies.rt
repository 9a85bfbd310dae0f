//! How many forms a proximity expression of FQL takes by the weights of its parts.
ghost use Rattle.std.specs.Prelude.{◌≡◌, ◌*◌, ◌≤◌, nat_le, true, [], ◌∷◌, map, sum, length, IfOk};
ghost use Rattle.std.specs.List.{list_all};
ghost use Rattle.sq_model.specs.Lists.{joined};
ghost use Rattle.sq_model.specs.Triples.{choices};
ghost use Rattle.sq_model.specs.Copies.{distinct, greatest, product, weights, copies};
ghost use Rattle.sq_model.specs.Limits.{most_copies};
ghost use Rattle.sq_typing.specs.Forms.{IsCount};
ghost use Rattle.sq_typing.specs.SpanForms.{is_filled};

use crate::forms::{Forms, each_once, few_of, put_all, sums_of, weight_of};
use sq_model::SpanTree;
use std::alloc::{AllocError, Global};

/// The forms of a near by the sums that take one weight of each part, and the greatest copies of a part.
fn forms_by_sums(alloc: Global, sums: &[u64], greatest: u64) -> Result<Forms, AllocError>
    requires { length sums.now * greatest ≤ most_copies }
    ensures { IfOk result (IsCount (distinct sums.now) (length sums.now * greatest)) }
{
    let weights = each_once(alloc, sums)?;
    Ok(Forms::Few {
        weights,
        copies: sums.len() as u64 * greatest,
    })
}

fn only_zero(alloc: Global) -> Result<Vec<u64>, AllocError>
    ensures { IfOk result (λ all. all.items ≡ 0 ∷ []) }
{
    let mut all = Vec::new(alloc);
    all.push(0)?;
    Ok(all)
}

#[cycle(span_forms)]
#[tactic(auto, using(crate::proofs::SpanLemmas::span_rules))]
fn forms_of(alloc: Global, tree: &SpanTree) -> Result<Forms, AllocError>
    requires { is_filled tree.now ≡ true }
    ensures { IfOk result (IsCount (weights tree.now) (copies tree.now)) }
{
    match tree {
        SpanTree::Leaf(leaf) => {
            let weights = weight_of(alloc, leaf)?;
            Ok(Forms::Few { weights, copies: 1 })
        }
        SpanTree::Union(parts) => {
            let forms = forms_of_some(alloc, parts.as_slice())?;
            Ok(forms)
        }
        SpanTree::Near { parts, .. } => {
            let forms = forms_of_all(alloc, parts.as_slice())?;
            Ok(forms)
        }
    }
}

/// The forms of one of the parts.
#[cycle(span_forms)]
fn forms_of_some(alloc: Global, parts: &[SpanTree]) -> Result<Forms, AllocError>
    requires { list_all is_filled parts.now ≡ true }
    ensures { IfOk result (IsCount (distinct (joined (map weights parts.now))) (greatest (map copies parts.now))) }
{
    let mut weights = Vec::new(alloc);
    let mut greatest = 0;
    for part in parts {
        match forms_of(alloc, part)? {
            Forms::Many => {
                return Ok(Forms::Many);
            }
            Forms::Few {
                weights: more,
                copies,
            } => {
                put_all(&mut weights, more.as_slice())?;
                greatest = copies.max(greatest);
            }
        }
    }
    Ok(Forms::Few {
        weights,
        copies: greatest,
    })
}

/// The forms of all parts together.
#[cycle(span_forms)]
fn forms_of_all(alloc: Global, parts: &[SpanTree]) -> Result<Forms, AllocError>
    requires { list_all is_filled parts.now ≡ true }
    ensures { IfOk result (IsCount (distinct (map sum (choices (map weights parts.now)))) (product (map length (map weights parts.now)) * greatest (map copies parts.now))) }
{
    let mut sums = only_zero(alloc)?;
    let mut greatest = 0;
    for part in parts {
        match forms_of(alloc, part)? {
            Forms::Many => {
                return Ok(Forms::Many);
            }
            Forms::Few { weights, copies } => {
                greatest = copies.max(greatest);
                let firsts = sums.as_slice();
                let seconds = weights.as_slice();
                match few_of(firsts.len(), seconds.len(), greatest) {
                    None => {
                        return Ok(Forms::Many);
                    }
                    Some(_) => {
                        sums = sums_of(alloc, firsts, seconds)?;
                    }
                }
            }
        }
    }
    let forms = forms_by_sums(alloc, sums.as_slice(), greatest)?;
    Ok(forms)
}

/// Whether an expression takes no more forms than may be.
pub(crate) fn are_few_spans(alloc: Global, tree: &SpanTree) -> Result<bool, AllocError>
    requires { is_filled tree.now ≡ true }
    ensures { IfOk result (λ few. few ≡ nat_le (copies tree.now) most_copies) }
{
    match forms_of(alloc, tree)? {
        Forms::Many => Ok(false),
        Forms::Few { .. } => Ok(true),
    }
}
