//! The weights of a proximity expression, and what is known of the forms that it takes by the weights of its parts.
ghost use Rattle.std.specs.Prelude.{◌≡◌, ◌+◌, ◌*◌, ◌<◌, ◌≤◌, [], ◌∷◌, ◌++◌, map, sum, length, IfOk, OnOk, MatchOption};
ghost use Rattle.sq_model.specs.Triples.{choices};
ghost use Rattle.sq_model.specs.Copies.{distinct, product};
ghost use Rattle.sq_model.specs.Limits.{most_copies};
ghost use Rattle.sq_typing.specs.Forms.{sums_of, with_last, with_all, IsCount};

use sq_model::Leaf;
use std::alloc::{AllocError, Global};

/// The most copies that an expression may take, one for each form.
const MOST_COPIES: u64 = 256;

/// What is known of the forms that an expression takes.
#[derive(Drop)]
pub(crate) enum Forms {
    /// More than may be.
    Many,
    /// The weights of its matches, each once, and how many forms it takes.
    Few { weights: Vec<u64>, copies: u64 },
}

fn put_last(weights: &mut Vec<u64>, weight: u64) -> Result<(), AllocError>
    ensures { OnOk result (weights.new.items ≡ with_last weights.old.items weight) }
{
    weights.retain(|other| *other != weight);
    weights.push(weight)?;
    Ok(())
}

pub(crate) fn put_all(weights: &mut Vec<u64>, more: &[u64]) -> Result<(), AllocError>
    ensures { OnOk result (weights.new.items ≡ with_all weights.old.items more.now) }
{
    for weight in more {
        put_last(weights, *weight)?;
    }
    Ok(())
}

pub(crate) fn each_once(alloc: Global, numbers: &[u64]) -> Result<Vec<u64>, AllocError>
    ensures { IfOk result (λ found. found.items ≡ distinct numbers.now) }
{
    let mut found = Vec::new(alloc);
    put_all(&mut found, numbers)?;
    Ok(found)
}

pub(crate) fn weight_of(alloc: Global, leaf: &Leaf) -> Result<Vec<u64>, AllocError>
    ensures { IfOk result (λ found. found.items ≡ length leaf.now.pattern.texts ∷ []) }
{
    let mut weights = Vec::new(alloc);
    weights.push(leaf.pattern.len() as u64)?;
    Ok(weights)
}

pub(crate) fn weights_of(alloc: Global, leaves: &[Leaf]) -> Result<Vec<u64>, AllocError>
    ensures { IfOk result (λ found. found.items ≡ distinct (map (λ leaf. length leaf.pattern.texts) leaves.now)) }
{
    let mut weights = Vec::new(alloc);
    for leaf in leaves {
        put_last(&mut weights, leaf.pattern.len() as u64)?;
    }
    Ok(weights)
}

/// Gives up, as for want of memory, where a sum passes 64 bits.
fn add_sums(all: &mut Vec<u64>, first: u64, seconds: &[u64]) -> Result<(), AllocError>
    ensures { OnOk result (all.new.items ≡ all.old.items ++ map (λ second. first + second) seconds.now) }
{
    for second in seconds {
        let Some(sum) = first.checked_add(*second) else {
            return Err(AllocError);
        };
        all.push(sum)?;
    }
    Ok(())
}

pub(crate) fn sums_of(
    alloc: Global,
    firsts: &[u64],
    seconds: &[u64],
) -> Result<Vec<u64>, AllocError>
    ensures { IfOk result (λ all. all.items ≡ sums_of firsts.now seconds.now) }
{
    let mut all = Vec::new(alloc);
    for first in firsts {
        add_sums(&mut all, *first, seconds)?;
    }
    Ok(all)
}

/// The product of the three, where it is not too many.
pub(crate) fn few_of(firsts: usize, seconds: usize, greatest: u64) -> Option<u64>
    requires { 0 < greatest }
    ensures { MatchOption result (most_copies < firsts * (seconds * 1) * greatest) (λ number. (number ≡ firsts * (seconds * 1) * greatest) × (number ≤ most_copies)) }
{
    let pairs = (firsts as u64).checked_mul(seconds as u64)?;
    let copies = pairs.checked_mul(greatest)?;
    if copies <= MOST_COPIES {
        Some(copies)
    } else {
        None
    }
}

pub(crate) fn near_forms(
    alloc: Global,
    firsts: &[u64],
    seconds: &[u64],
    greatest: u64,
) -> Result<Forms, AllocError>
    requires { 0 < greatest }
    ensures { IfOk result (IsCount (distinct (map sum (choices (firsts.now ∷ seconds.now ∷ [])))) (product (map length (firsts.now ∷ seconds.now ∷ [])) * greatest)) }
{
    match few_of(firsts.len(), seconds.len(), greatest) {
        None => Ok(Forms::Many),
        Some(copies) => {
            let sums = sums_of(alloc, firsts, seconds)?;
            let weights = each_once(alloc, sums.as_slice())?;
            Ok(Forms::Few { weights, copies })
        }
    }
}
