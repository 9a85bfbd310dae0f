//! Where a KQL expression matches in a passage.
ghost use Rattle.std.specs.Prelude.{◌≡◌, map, flat_map, ◌∷◌, [], IfOk};
ghost use Rattle.sq_model.specs.Triples.{of_phrase};
ghost use Rattle.sq_model.specs.Kql.{triples};

use crate::near::{add_all, join_lists, near};
use crate::places::of_phrase;
use sq_base::List;
use sq_model::{KTree, Leaf, Triple};
use sq_tokens::Tokens;
use std::alloc::{AllocError, Global};

fn of_leaves(alloc: Global, passage: &Tokens, leaves: &[Leaf]) -> Result<List<Triple>, AllocError>
    ensures { IfOk result (λ found. found ≡ flat_map (λ leaf. of_phrase leaf.pattern passage.now) leaves.now) }
{
    let mut all = List::new(alloc);
    for leaf in leaves {
        let found = of_phrase(alloc, &leaf.pattern, passage)?;
        add_all(&mut all, found.as_slice())?;
    }
    Ok(all)
}

fn pair(
    alloc: Global,
    left: List<Triple>,
    right: List<Triple>,
) -> Result<List<List<Triple>>, AllocError>
    ensures { IfOk result (λ both. both ≡ left ∷ right ∷ []) }
{
    let mut both = List::new(alloc);
    both.push(left)?;
    both.push(right)?;
    Ok(both)
}

#[cycle(kspans)]
#[tactic(auto, using(sq_model::proofs::KqlEquations::triples_rules))]
pub fn triples(alloc: Global, passage: &Tokens, tree: &KTree) -> Result<List<Triple>, AllocError>
    ensures { IfOk result (λ found. found ≡ triples passage.now tree.now) }
{
    match tree {
        KTree::Free(leaf) => {
            let found = of_phrase(alloc, &leaf.pattern, passage)?;
            Ok(found)
        }
        KTree::Words(leaves) => {
            let found = of_leaves(alloc, passage, leaves.as_slice())?;
            Ok(found)
        }
        KTree::Group(inside) => {
            let found = triples(alloc, passage, inside.get())?;
            Ok(found)
        }
        KTree::Or(parts) => {
            let lists = triples_each(alloc, passage, parts.as_slice())?;
            let found = join_lists(alloc, lists.as_slice())?;
            Ok(found)
        }
        KTree::Near {
            left,
            right,
            n,
            ordered,
        } => {
            let left_found = triples(alloc, passage, left.get())?;
            let right_found = triples(alloc, passage, right.get())?;
            let both = pair(alloc, left_found, right_found)?;
            let found = near(alloc, *n, *ordered, both.as_slice())?;
            Ok(found)
        }
        KTree::All
        | KTree::TextTest { .. }
        | KTree::ValueTest { .. }
        | KTree::Run(_)
        | KTree::And(_)
        | KTree::Xrank { .. } => { Ok(List::new(alloc)) }
    }
}

#[cycle(kspans)]
fn triples_each(
    alloc: Global,
    passage: &Tokens,
    parts: &[KTree],
) -> Result<List<List<Triple>>, AllocError>
    ensures { IfOk result (λ lists. lists ≡ map (triples passage.now) parts.now) }
{
    let mut lists = List::new(alloc);
    for part in parts {
        lists.push(triples(alloc, passage, part)?)?;
    }
    Ok(lists)
}
