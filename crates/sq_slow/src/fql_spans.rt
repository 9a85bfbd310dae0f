//! Where a proximity expression of FQL matches in a passage.
ghost use Rattle.std.specs.Prelude.{◌≡◌, map, IfOk};
ghost use Rattle.sq_model.specs.Spans.{triples};

use crate::near::{join_lists, near};
use crate::places::of_phrase;
use sq_base::List;
use sq_model::{SpanTree, Triple};
use sq_tokens::Tokens;
use std::alloc::{AllocError, Global};

#[cycle(spans)]
#[tactic(auto, using(sq_model::proofs::FqlEquations::triples_union, sq_model::proofs::FqlEquations::triples_near))]
pub fn triples(alloc: Global, passage: &Tokens, tree: &SpanTree) -> Result<List<Triple>, AllocError>
    ensures { IfOk result (λ found. found ≡ triples passage.now tree.now) }
{
    match tree {
        SpanTree::Leaf(leaf) => of_phrase(alloc, &leaf.pattern, passage),
        SpanTree::Union(parts) => {
            let lists = triples_each(alloc, passage, parts.as_slice())?;
            join_lists(alloc, lists.as_slice())
        }
        SpanTree::Near { parts, n, ordered } => {
            let lists = triples_each(alloc, passage, parts.as_slice())?;
            near(alloc, *n, *ordered, lists.as_slice())
        }
    }
}

#[cycle(spans)]
#[tactic(auto, using(sq_model::proofs::FqlEquations::triples_union, sq_model::proofs::FqlEquations::triples_near))]
fn triples_each(
    alloc: Global,
    passage: &Tokens,
    parts: &[SpanTree],
) -> Result<List<List<Triple>>, AllocError>
    ensures { IfOk result (λ lists. lists ≡ map (triples passage.now) parts.now) }
{
    let mut lists = List::new(alloc);
    for part in parts {
        lists.push(triples(alloc, passage, part)?)?;
    }
    Ok(lists)
}
