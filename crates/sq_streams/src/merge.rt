ghost use Rattle.std.specs.Prelude.{◌≡◌, ◌+◌, ◌≤◌, map, sum_by, IfOk, MatchResult};
ghost use Rattle.sq_near.specs.Covers.{merged_spans};
ghost use Rattle.sq_near.specs.Streams.{stream_left, stream_rest};

use sq_base::Steps;
use sq_cursor::SpanCursor;
use sq_near::{Merged, Stream};
use std::alloc::{AllocError, Global};
use std::sync::ledger::Ledger;

/// A merge of all parts.
fn merge_all<C: SpanCursor + Drop, L: Ledger>(
    alloc: Global,
    parts: Vec<Stream<C>>,
    steps: &mut Steps<L>,
) -> Result<Stream<C>, AllocError>
    ensures left { IfOk result (λ stream. stream_left C.left stream ≡ merged_spans (map (stream_left C.left) parts.items)) }
    ensures cost { MatchResult result
        (λ stream. steps.new + stream_rest C.rest stream ≤ steps.old + sum_by (stream_rest C.rest) parts.items)
        (λ _. steps.new ≤ steps.old + sum_by (stream_rest C.rest) parts.items) }
{
    let merged = Merged::new(alloc, parts, steps)?;
    Ok(Stream::Merged(merged))
}

/// The least spans of all parts. One part is their merge as it stands.
pub(crate) fn merge_of<C: SpanCursor + Drop, L: Ledger>(
    alloc: Global,
    mut parts: Vec<Stream<C>>,
    steps: &mut Steps<L>,
) -> Result<Stream<C>, AllocError>
    ensures left { IfOk result (λ stream. stream_left C.left stream ≡ merged_spans (map (stream_left C.left) parts.items)) }
    ensures cost { MatchResult result
        (λ stream. steps.new + stream_rest C.rest stream ≤ steps.old + sum_by (stream_rest C.rest) parts.items)
        (λ _. steps.new ≤ steps.old + sum_by (stream_rest C.rest) parts.items) }
{
    if parts.len() != 1 {
        return merge_all(alloc, parts, steps);
    }
    match parts.pop() {
        Some(part) => Ok(part),
        None => Err(AllocError),
    }
}

/// The same in a box, which alone stands in a caller's frame.
#[inline(never)]
pub(crate) fn boxed_merge<C: SpanCursor + Drop, L: Ledger>(
    alloc: Global,
    parts: Vec<Stream<C>>,
    steps: &mut Steps<L>,
) -> Result<Box<Stream<C>>, AllocError>
    ensures left { IfOk result (λ stream. stream_left C.left stream.value ≡ merged_spans (map (stream_left C.left) parts.items)) }
    ensures cost { MatchResult result
        (λ stream. steps.new + stream_rest C.rest stream.value ≤ steps.old + sum_by (stream_rest C.rest) parts.items)
        (λ _. steps.new ≤ steps.old + sum_by (stream_rest C.rest) parts.items) }
{
    let stream = merge_of(alloc, parts, steps)?;
    let own = Box::new(alloc, stream)?;
    Ok(own)
}
