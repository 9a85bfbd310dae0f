ghost use Rattle.std.specs.Prelude.{◌≡◌, ℕ, ◌+◌, ◌-◌, ◌^◌, ◌<◌, ◌≤◌, List, [], length, min, IfSome};
ghost use Rattle.sq_cursor.specs.Spans.{without_first_span};
ghost use Rattle.sq_cursor.specs.Entries.{entries_behind};
ghost use Rattle.sq_near.specs.Moves.{first_of};
ghost use Rattle.sq_near.specs.Rows.{spans_in, has_row};
ghost use Rattle.sq_model.specs.Fql.{is_counted};
ghost use Rattle.sq_postings.specs.Edges.{is_at_edge};
ghost use Rattle.sq_nodes.specs.Leaves.{spans_left, spans_rest, edge_rest, numbers_in, first_in, first_number, without_first_number, count_of, IsBefore, earlier};

use crate::node::Edges;
use sq_base::Steps;
use sq_cursor::{Span, SpanCursor};
use sq_near::Stream;
use sq_postings::{PostCursor, ValueCursor};
use std::sync::ledger::Ledger;

/// The first of two rows, where none is after each.
pub(crate) fn earlier(a: Option<u32>, b: Option<u32>) -> Option<u32>
    ensures { result ≡ earlier a b }
{
    match (a, b) {
        (Some(x), Some(y)) => Some(x.min(y)),
        (Some(x), None) => Some(x),
        (None, other) => other,
    }
}

/// The first span, where it is in a row.
fn first_in(stream: &Stream<PostCursor<'_>>, row: u32) -> Option<Span>
    ensures { result ≡ first_in row (spans_left stream.now) }
{
    let (here, part) = stream.passage()?;
    let (first, last) = stream.span()?;
    if here != row {
        return None;
    }
    Some(Span {
        row,
        part,
        first,
        last,
    })
}

/// Moves to a row, and gives the row at which it then stands. `None` at the end.
pub(crate) fn seek_row<L: Ledger>(
    stream: &mut Stream<PostCursor<'_>>,
    row: u32,
    steps: &mut Steps<L>,
) -> Option<u32>
    ensures none { (r : ℕ) → row ≤ r → IsBefore r result → spans_in r (spans_left stream.old) ≡ [] }
    ensures forward { IfSome result (λ to. row ≤ to) }
    ensures later { (r : ℕ) → row ≤ r → spans_in r (spans_left stream.new) ≡ spans_in r (spans_left stream.old) }
    ensures fewer { length (spans_left stream.new) ≤ length (spans_left stream.old) }
    ensures cost { steps.new + spans_rest stream.new ≤ steps.old + spans_rest stream.old }
{
    stream.seek_passage((row, 0), steps);
    let (to, _) = stream.passage()?;
    Some(to)
}

/// Whether a row has a span. It stays there.
pub(crate) fn stands_in<L: Ledger>(
    stream: &mut Stream<PostCursor<'_>>,
    row: u32,
    steps: &mut Steps<L>,
) -> bool
    ensures value { result ≡ has_row row (spans_left stream.old) }
    ensures later { (r : ℕ) → row ≤ r → spans_in r (spans_left stream.new) ≡ spans_in r (spans_left stream.old) }
    ensures cost { steps.new + spans_rest stream.new ≤ steps.old + spans_rest stream.old }
{
    stream.seek_passage((row, 0), steps);
    first_in(stream, row).is_some()
}

/// Takes the first span of a row, and `None` where it has none.
pub(crate) fn take_span<L: Ledger>(
    stream: &mut Stream<PostCursor<'_>>,
    row: u32,
    steps: &mut Steps<L>,
) -> Option<Span>
    ensures value { result ≡ first_of (spans_in row (spans_left stream.old)) }
    ensures left { spans_in row (spans_left stream.new) ≡ without_first_span (spans_in row (spans_left stream.old)) }
    ensures later { (r : ℕ) → row < r → spans_in r (spans_left stream.new) ≡ spans_in r (spans_left stream.old) }
    ensures fewer { length (spans_left stream.new) + count_of result ≤ length (spans_left stream.old) }
    ensures cost { steps.new + spans_rest stream.new ≤ steps.old + spans_rest stream.old }
{
    stream.seek_passage((row, 0), steps);
    let span = first_in(stream, row)?;
    stream.step_span(steps);
    Some(span)
}

/// How many spans a row has, and the greatest `u32` where they are more. It takes them.
pub(crate) fn count_in<L: Ledger>(
    stream: &mut Stream<PostCursor<'_>>,
    row: u32,
    steps: &mut Steps<L>,
) -> u32
    ensures value { result ≡ min (length (spans_in row (spans_left stream.old))) (2 ^ 32 - 1) }
    ensures later { (r : ℕ) → row < r → spans_in r (spans_left stream.new) ≡ spans_in r (spans_left stream.old) }
    ensures cost { steps.new + spans_rest stream.new ≤ steps.old + spans_rest stream.old }
{
    let mut count: u32 = 0;
    while let Some(_) = take_span(stream, row, steps) {
        count = count.saturating_add(1);
    }
    count
}

/// Whether a count is at least `from`, and below the end where there is one. Both bounds are those of
/// a `u32`, so that the greatest `u32` stands for each greater count.
pub(crate) fn is_counted(from: u32, to: Option<u32>, count: u32) -> bool
    ensures value { result ≡ is_counted from to count }
    ensures least { from ≤ 2 ^ 32 - 1 }
    ensures most { IfSome to (λ n. n ≤ 2 ^ 32 - 1) }
{
    match to {
        None => from <= count,
        Some(to) => from <= count && count < to,
    }
}

/// Whether a span is at the ends of its passage that are asked for. It reads a length at most.
pub(crate) fn is_at_edge<L: Ledger>(edges: &Edges<'_>, span: Span, steps: &mut Steps<L>) -> bool
    ensures value { result ≡ is_at_edge edges.now.index.now edges.now.starts edges.now.ends span }
    ensures cost { steps.new ≤ steps.old + 1 }
{
    if edges.starts && span.first != 0 {
        return false;
    }
    if !edges.ends {
        return true;
    }
    let tokens = edges.index.passage_length((span.row, span.part), steps);
    span.last as u64 + 1 == tokens as u64
}

/// Takes the first number of a row, and `None` where it has none.
pub(crate) fn take_number<L: Ledger>(
    values: &mut ValueCursor<'_>,
    row: u32,
    steps: &mut Steps<L>,
) -> Option<i64>
    ensures value { result ≡ first_number (numbers_in row values.old) }
    ensures left { numbers_in row values.new ≡ without_first_number (numbers_in row values.old) }
    ensures later { (r : ℕ) → row < r → numbers_in r values.new ≡ numbers_in r values.old }
    ensures cost { steps.new + entries_behind values.new ≤ steps.old + entries_behind values.old }
{
    values.seek(row, steps);
    let (here, number) = values.here()?;
    if here != row {
        return None;
    }
    values.step(steps);
    Some(number)
}

/// Moves to a row, and gives the row at which it then stands. `None` at the end.
pub(crate) fn seek_number<L: Ledger>(
    values: &mut ValueCursor<'_>,
    row: u32,
    steps: &mut Steps<L>,
) -> Option<u32>
    ensures none { (r : ℕ) → row ≤ r → IsBefore r result → numbers_in r values.old ≡ [] }
    ensures forward { IfSome result (λ to. row ≤ to) }
    ensures later { (r : ℕ) → row ≤ r → numbers_in r values.new ≡ numbers_in r values.old }
    ensures cost { steps.new + entries_behind values.new ≤ steps.old + entries_behind values.old }
{
    values.seek(row, steps);
    let (to, _) = values.here()?;
    Some(to)
}
