//! The streams of proximity expressions, one for each weight of the matches. An expression may nest to the greatest
//! depth that its language allows, so the functions that lead back to `stream_of` keep no stream in their frames:
//! streams stand in boxes, and what makes, pushes, joins and merges them is not put into its caller's frame.
ghost use Rattle.std.specs.Prelude.{◌≡◌, ◌+◌, ◌<◌, ◌≤◌, ◌++◌, ◌∷◌, [], length, map, slice_index_or, sum_by, IfOk, OnOk, MatchResult};
ghost use Rattle.sq_least.specs.Dense.{weights_of_sum};
ghost use Rattle.sq_model.specs.Copies.{weights};
ghost use Rattle.sq_model.specs.declared.fql.SpanTree.{Leaf as LeafOf, Near, Union};
ghost use Rattle.sq_near.specs.Covers.{joined_spans};
ghost use Rattle.sq_near.specs.Laws.{AllOrdered};
ghost use Rattle.sq_near.specs.Streams.{stream_left, stream_rest};
ghost use Rattle.sq_streams.specs.Tree.{HaveMatches, IsWithinCopies};
ghost use Rattle.sq_streams.specs.TreePrices.{IsWithinPrice, IsWithinChoices, IsWithinPrice, IsWithinPrices, IsWithinWeights};
ghost use Rattle.sq_streams.specs.TreeStreams.{IsStreamFor, EachStreamFor, EachJoinFor, EachWeightFor};

use crate::laws;
use crate::merge::{boxed_merge, merge_of};
use crate::pattern::pattern_stream;
use crate::weights::{choices_with, weights_of};
use sq_base::{List, Steps};
use sq_cursor::SpanCursor;
use sq_model::{Leaf, Look, SpanTree};
use sq_near::{Joined, Stream};
use sq_postings::{Index, PostCursor};
use std::alloc::{AllocError, Global};
use std::sync::ledger::Ledger;

/// Tells that what is left of streams is ordered. It does nothing.
fn tell_order<C: SpanCursor>(streams: &Vec<Stream<C>>)
    ensures { AllOrdered (map (stream_left C.left) streams.now.items) }
{
    let _streams = streams.as_slice();
}

/// The stream of a literal, where its length is the weight, and else one with no span.
fn leaf_at<'a, L: Ledger>(
    alloc: Global,
    index: &'a Index,
    look: Look,
    leaf: &Leaf,
    v: u32,
    steps: &mut Steps<L>,
) -> Result<Stream<PostCursor<'a>>, AllocError>
    ensures left { IfOk result (λ stream. IsStreamFor index.now look (LeafOf leaf.now) v (stream_left ⟦<PostCursor<'a> as SpanCursor>⟧.left stream)) }
    ensures cost { MatchResult result
        (λ stream. IsWithinPrice index.now look (LeafOf leaf.now) v steps.old (steps.new + stream_rest ⟦<PostCursor<'a> as SpanCursor>⟧.rest stream))
        (λ _. IsWithinPrice index.now look (LeafOf leaf.now) v steps.old steps.new) }
{
    if leaf.pattern.len() == v as usize {
        let stream = pattern_stream(alloc, index, look, &leaf.pattern, steps)?;
        Ok(stream)
    } else {
        let nothing = merge_of(alloc, Vec::new(alloc), steps)?;
        Ok(nothing)
    }
}

#[inline(never)]
fn boxed_leaf<'a, L: Ledger>(
    alloc: Global,
    index: &'a Index,
    look: Look,
    leaf: &Leaf,
    v: u32,
    steps: &mut Steps<L>,
) -> Result<Box<Stream<PostCursor<'a>>>, AllocError>
    ensures left { IfOk result (λ stream. IsStreamFor index.now look (LeafOf leaf.now) v (stream_left ⟦<PostCursor<'a> as SpanCursor>⟧.left stream.value)) }
    ensures cost { MatchResult result
        (λ stream. IsWithinPrice index.now look (LeafOf leaf.now) v steps.old (steps.new + stream_rest ⟦<PostCursor<'a> as SpanCursor>⟧.rest stream.value))
        (λ _. IsWithinPrice index.now look (LeafOf leaf.now) v steps.old steps.new) }
{
    let stream = leaf_at(alloc, index, look, leaf, v, steps)?;
    let own = Box::new(alloc, stream)?;
    Ok(own)
}

#[inline(never)]
fn push_stream<C: SpanCursor + Drop>(
    streams: &mut Vec<Stream<C>>,
    stream: Box<Stream<C>>,
) -> Result<(), AllocError>
    ensures { OnOk result (streams.new.items ≡ streams.old.items ++ stream.value ∷ []) }
{
    streams.push(Box::into_inner(stream))?;
    Ok(())
}

/// The weight once for each part.
fn once_for_each(alloc: Global, v: u32, parts: &[SpanTree]) -> Result<Vec<u32>, AllocError>
    ensures { IfOk result (λ weights. weights.items ≡ map (λ _. v) parts.now) }
{
    let mut weights = Vec::new(alloc);
    for _part in parts {
        weights.push(v)?;
    }
    Ok(weights)
}

fn weight_at(weights: &[u32], at: usize) -> u32
    requires { at < length weights.now }
    ensures { result ≡ slice_index_or weights.now at result }
{
    weights[at]
}

/// The stream of one weight of an expression. It only hands on, so its caller takes it in.
#[cycle(stream_of)]
#[inline]
fn stream_of<'a, L: Ledger>(
    alloc: Global,
    index: &'a Index,
    look: Look,
    tree: &SpanTree,
    v: u32,
    steps: &mut Steps<L>,
) -> Result<Box<Stream<PostCursor<'a>>>, AllocError>
    ensures left { IfOk result (λ stream. IsStreamFor index.now look tree.now v (stream_left ⟦<PostCursor<'a> as SpanCursor>⟧.left stream.value)) }
    ensures cost { MatchResult result
        (λ stream. IsWithinPrice index.now look tree.now v steps.old (steps.new + stream_rest ⟦<PostCursor<'a> as SpanCursor>⟧.rest stream.value))
        (λ _. IsWithinPrice index.now look tree.now v steps.old steps.new) }
{
    match tree {
        SpanTree::Leaf(leaf) => boxed_leaf(alloc, index, look, leaf, v, steps),
        SpanTree::Union(parts) => union_at(alloc, index, look, parts, v, steps),
        SpanTree::Near { parts, n, ordered } => {
            near_at(alloc, index, look, parts, *n, *ordered, v, steps)
        }
    }
}

/// The streams of expressions, each of the weight that stands at its place.
#[cycle(stream_of)]
#[inline(never)]
fn parts_at<'a, L: Ledger>(
    alloc: Global,
    index: &'a Index,
    look: Look,
    parts: &[SpanTree],
    weights: &[u32],
    steps: &mut Steps<L>,
) -> Result<Vec<Stream<PostCursor<'a>>>, AllocError>
    requires { length weights.now ≡ length parts.now }
    ensures left { IfOk result (λ streams. EachStreamFor index.now look parts.now weights.now (map (stream_left ⟦<PostCursor<'a> as SpanCursor>⟧.left) streams.items)) }
    ensures cost { MatchResult result
        (λ streams. IsWithinPrices index.now look parts.now weights.now steps.old (steps.new + sum_by (stream_rest ⟦<PostCursor<'a> as SpanCursor>⟧.rest) streams.items))
        (λ _. IsWithinPrices index.now look parts.now weights.now steps.old steps.new) }
{
    let mut streams = Vec::new(alloc);
    let mut at = 0;
    for part in parts {
        let stream = stream_of(alloc, index, look, part, weight_at(weights, at), steps)?;
        push_stream(&mut streams, stream)?;
        at += 1;
    }
    Ok(streams)
}

/// The merge of the parts' streams of the weight.
#[cycle(stream_of)]
#[inline(never)]
fn union_at<'a, L: Ledger>(
    alloc: Global,
    index: &'a Index,
    look: Look,
    parts: &List<SpanTree>,
    v: u32,
    steps: &mut Steps<L>,
) -> Result<Box<Stream<PostCursor<'a>>>, AllocError>
    ensures left { IfOk result (λ stream. IsStreamFor index.now look (Union parts.now) v (stream_left ⟦<PostCursor<'a> as SpanCursor>⟧.left stream.value)) }
    ensures cost { MatchResult result
        (λ stream. IsWithinPrice index.now look (Union parts.now) v steps.old (steps.new + stream_rest ⟦<PostCursor<'a> as SpanCursor>⟧.rest stream.value))
        (λ _. IsWithinPrice index.now look (Union parts.now) v steps.old steps.new) }
{
    laws::unions_are_streams();
    let slice = parts.as_slice();
    let weights = once_for_each(alloc, v, slice)?;
    let each = weights.as_slice();
    let streams = parts_at(alloc, index, look, slice, each, steps)?;
    tell_order(&streams);
    let stream = boxed_merge(alloc, streams, steps)?;
    Ok(stream)
}

/// The join of streams that weigh `v` together, at most `n` tokens longer than that.
fn join_of<C: SpanCursor + Drop, L: Ledger>(
    alloc: Global,
    parts: Vec<Stream<C>>,
    n: u32,
    ordered: bool,
    v: u32,
    steps: &mut Steps<L>,
) -> Result<Stream<C>, AllocError>
    ensures left { IfOk result (λ stream. stream_left C.left stream ≡ joined_spans (n + v) ordered (map (stream_left C.left) parts.items)) }
    ensures cost { MatchResult result
        (λ stream. steps.new + stream_rest C.rest stream ≤ steps.old + sum_by (stream_rest C.rest) parts.items)
        (λ _. steps.new ≤ steps.old + sum_by (stream_rest C.rest) parts.items) }
{
    let Some(width) = n.checked_add(v) else {
        return Err(AllocError);
    };
    let joined = Joined::new(alloc, parts, width, ordered, steps)?;
    Ok(Stream::Joined(joined))
}

#[inline(never)]
fn boxed_join<C: SpanCursor + Drop, L: Ledger>(
    alloc: Global,
    parts: Vec<Stream<C>>,
    n: u32,
    ordered: bool,
    v: u32,
    steps: &mut Steps<L>,
) -> Result<Box<Stream<C>>, AllocError>
    ensures left { IfOk result (λ stream. stream_left C.left stream.value ≡ joined_spans (n + v) ordered (map (stream_left C.left) parts.items)) }
    ensures cost { MatchResult result
        (λ stream. steps.new + stream_rest C.rest stream.value ≤ steps.old + sum_by (stream_rest C.rest) parts.items)
        (λ _. steps.new ≤ steps.old + sum_by (stream_rest C.rest) parts.items) }
{
    let stream = join_of(alloc, parts, n, ordered, v, steps)?;
    let own = Box::new(alloc, stream)?;
    Ok(own)
}

/// The joins for each of the choices of weights, which have the sum `v`.
#[cycle(stream_of)]
fn joins_at<'a, L: Ledger>(
    alloc: Global,
    index: &'a Index,
    look: Look,
    parts: &[SpanTree],
    n: u32,
    ordered: bool,
    v: u32,
    choices: &[List<u32>],
    steps: &mut Steps<L>,
) -> Result<Vec<Stream<PostCursor<'a>>>, AllocError>
    requires { choices.now ≡ weights_of_sum v (map weights parts.now) }
    ensures left { IfOk result (λ streams. EachJoinFor index.now look parts.now n ordered choices.now (map (stream_left ⟦<PostCursor<'a> as SpanCursor>⟧.left) streams.items)) }
    ensures cost { MatchResult result
        (λ streams. IsWithinChoices index.now look parts.now choices.now steps.old (steps.new + sum_by (stream_rest ⟦<PostCursor<'a> as SpanCursor>⟧.rest) streams.items))
        (λ _. IsWithinChoices index.now look parts.now choices.now steps.old steps.new) }
{
    laws::joins_are_streams();
    let mut joins = Vec::new(alloc);
    for choice in choices {
        let streams = parts_at(alloc, index, look, parts, choice.as_slice(), steps)?;
        tell_order(&streams);
        let join = boxed_join(alloc, streams, n, ordered, v, steps)?;
        push_stream(&mut joins, join)?;
    }
    Ok(joins)
}

/// The merge of the joins for all choices of one weight of each part that have the sum `v`.
#[cycle(stream_of)]
#[inline(never)]
fn near_at<'a, L: Ledger>(
    alloc: Global,
    index: &'a Index,
    look: Look,
    parts: &List<SpanTree>,
    n: u32,
    ordered: bool,
    v: u32,
    steps: &mut Steps<L>,
) -> Result<Box<Stream<PostCursor<'a>>>, AllocError>
    ensures left { IfOk result (λ stream. IsStreamFor index.now look (Near parts.now n ordered) v (stream_left ⟦<PostCursor<'a> as SpanCursor>⟧.left stream.value)) }
    ensures cost { MatchResult result
        (λ stream. IsWithinPrice index.now look (Near parts.now n ordered) v steps.old (steps.new + stream_rest ⟦<PostCursor<'a> as SpanCursor>⟧.rest stream.value))
        (λ _. IsWithinPrice index.now look (Near parts.now n ordered) v steps.old steps.new) }
{
    laws::nears_are_streams();
    let slice = parts.as_slice();
    let choices = choices_with(alloc, slice, v)?;
    let each = choices.as_slice();
    let joins = joins_at(alloc, index, look, slice, n, ordered, v, each, steps)?;
    tell_order(&joins);
    let stream = boxed_merge(alloc, joins, steps)?;
    Ok(stream)
}

/// The streams of an expression, one for each weight of its matches: a row has a match exactly where
/// one of them has a span.
///
/// Steps and rests together are at most the tokens that the literals ask for, once for each copy.
pub fn streams_of<'a, L: Ledger>(
    alloc: Global,
    index: &'a Index,
    look: Look,
    tree: &SpanTree,
    steps: &mut Steps<L>,
) -> Result<Vec<Stream<PostCursor<'a>>>, AllocError>
    ensures left { IfOk result (λ streams. HaveMatches index.now look tree.now (map (stream_left ⟦<PostCursor<'a> as SpanCursor>⟧.left) streams.items)) }
    ensures cost { MatchResult result
        (λ streams. IsWithinCopies index.now look tree.now steps.old (steps.new + sum_by (stream_rest ⟦<PostCursor<'a> as SpanCursor>⟧.rest) streams.items))
        (λ _. IsWithinCopies index.now look tree.now steps.old steps.new) }
{
    laws::rows_have_matches();
    laws::price_of_weights();
    let weights = weights_of(alloc, tree)?;
    let streams = streams_at(alloc, index, look, tree, weights.as_slice(), steps)?;
    Ok(streams)
}

/// The streams of the weights.
fn streams_at<'a, L: Ledger>(
    alloc: Global,
    index: &'a Index,
    look: Look,
    tree: &SpanTree,
    weights: &[u32],
    steps: &mut Steps<L>,
) -> Result<Vec<Stream<PostCursor<'a>>>, AllocError>
    ensures left { IfOk result (λ streams. EachWeightFor index.now look tree.now weights.now (map (stream_left ⟦<PostCursor<'a> as SpanCursor>⟧.left) streams.items)) }
    ensures cost { MatchResult result
        (λ streams. IsWithinWeights index.now look tree.now weights.now steps.old (steps.new + sum_by (stream_rest ⟦<PostCursor<'a> as SpanCursor>⟧.rest) streams.items))
        (λ _. IsWithinWeights index.now look tree.now weights.now steps.old steps.new) }
{
    let mut streams = Vec::new(alloc);
    let mut at = 0;
    for _weight in weights {
        let stream = stream_of(alloc, index, look, tree, weight_at(weights, at), steps)?;
        push_stream(&mut streams, stream)?;
        at += 1;
    }
    Ok(streams)
}
