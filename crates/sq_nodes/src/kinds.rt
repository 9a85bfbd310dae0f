ghost use Rattle.std.specs.Prelude.{◌≡◌, ℕ, ◌+◌, ◌<◌, ◌≤◌, None, IfSome};
ghost use Rattle.sq_cursor.specs.Entries.{entries_behind};
ghost use Rattle.sq_nodes.specs.Leaves.{spans_rest, spans_score, count_score, edge_score, within_score, streams_rest, edge_rest, plain, IsBefore};

use crate::leaves::{
    count_in, earlier, is_at_edge, is_counted, seek_number, seek_row, stands_in, take_number,
    take_span,
};
use crate::node::{Counted, Edges, Ranged};
use sq_base::Steps;
use sq_near::Stream;
use sq_postings::PostCursor;
use std::sync::ledger::Ledger;

/// A boost of 0 where it holds.
pub(crate) fn plain(holds: bool) -> Option<i64>
    ensures { result ≡ plain holds }
{
    if holds { Some(0) } else { None }
}

/// The score where some of the streams has a span in the row.
pub(crate) fn spans_score<L: Ledger>(
    streams: &mut Vec<Stream<PostCursor<'_>>>,
    row: u32,
    steps: &mut Steps<L>,
) -> Option<i64>
    ensures value { result ≡ spans_score streams.old.items row }
    ensures later { (r : ℕ) → row < r → spans_score streams.new.items r ≡ spans_score streams.old.items r }
    ensures cost { steps.new + streams_rest streams.new.items ≤ steps.old + streams_rest streams.old.items }
{
    for i in 0..streams.len() {
        if stands_in(&mut streams[i], row, steps) {
            return Some(0);
        }
    }
    None
}

/// The first row at which one of the streams then stands.
pub(crate) fn spans_skip<L: Ledger>(
    streams: &mut Vec<Stream<PostCursor<'_>>>,
    row: u32,
    steps: &mut Steps<L>,
) -> Option<u32>
    ensures none { (r : ℕ) → row ≤ r → IsBefore r result → spans_score streams.old.items r ≡ None }
    ensures forward { IfSome result (λ to. row ≤ to) }
    ensures later { (r : ℕ) → row ≤ r → spans_score streams.new.items r ≡ spans_score streams.old.items r }
    ensures cost { steps.new + streams_rest streams.new.items ≤ steps.old + streams_rest streams.old.items }
{
    let mut next: Option<u32> = None;
    for i in 0..streams.len() {
        next = earlier(next, seek_row(&mut streams[i], row, steps));
    }
    next
}

/// The score where the row has so many spans. It takes them.
pub(crate) fn count_score<L: Ledger>(
    counted: &mut Counted<'_>,
    row: u32,
    steps: &mut Steps<L>,
) -> Option<i64>
    ensures value { result ≡ count_score counted.old row }
    ensures later { (r : ℕ) → row < r → count_score counted.new r ≡ count_score counted.old r }
    ensures cost { steps.new + spans_rest counted.new.stream ≤ steps.old + spans_rest counted.old.stream }
{
    let count = count_in(&mut counted.stream, row, steps);
    plain(is_counted(counted.from, counted.to, count))
}

/// The row itself where it holds of no spans, and else the first that has some.
pub(crate) fn count_skip<L: Ledger>(
    counted: &mut Counted<'_>,
    row: u32,
    steps: &mut Steps<L>,
) -> Option<u32>
    ensures none { (r : ℕ) → row ≤ r → IsBefore r result → count_score counted.old r ≡ None }
    ensures forward { IfSome result (λ to. row ≤ to) }
    ensures later { (r : ℕ) → row ≤ r → count_score counted.new r ≡ count_score counted.old r }
    ensures cost { steps.new + spans_rest counted.new.stream ≤ steps.old + spans_rest counted.old.stream }
{
    if is_counted(counted.from, counted.to, 0) {
        return Some(row);
    }
    seek_row(&mut counted.stream, row, steps)
}

/// The score where a span of the row is at the ends of its passage. It takes spans up to that one.
pub(crate) fn edge_score<L: Ledger>(
    edges: &mut Edges<'_>,
    row: u32,
    steps: &mut Steps<L>,
) -> Option<i64>
    ensures value { result ≡ edge_score edges.old row }
    ensures later { (r : ℕ) → row < r → edge_score edges.new r ≡ edge_score edges.old r }
    ensures cost { steps.new + edge_rest edges.new ≤ steps.old + edge_rest edges.old }
{
    while let Some(span) = take_span(&mut edges.stream, row, steps) {
        if is_at_edge(edges, span, steps) {
            return Some(0);
        }
    }
    None
}

/// The first row from `row` on that has a span.
pub(crate) fn edge_skip<L: Ledger>(
    edges: &mut Edges<'_>,
    row: u32,
    steps: &mut Steps<L>,
) -> Option<u32>
    ensures none { (r : ℕ) → row ≤ r → IsBefore r result → edge_score edges.old r ≡ None }
    ensures forward { IfSome result (λ to. row ≤ to) }
    ensures later { (r : ℕ) → row ≤ r → edge_score edges.new r ≡ edge_score edges.old r }
    ensures cost { steps.new + edge_rest edges.new ≤ steps.old + edge_rest edges.old }
{
    seek_row(&mut edges.stream, row, steps)
}

/// The score where a number of the row is in the range. It takes numbers up to that one.
pub(crate) fn within_score<L: Ledger>(
    ranged: &mut Ranged<'_>,
    row: u32,
    steps: &mut Steps<L>,
) -> Option<i64>
    ensures value { result ≡ within_score ranged.old row }
    ensures later { (r : ℕ) → row < r → within_score ranged.new r ≡ within_score ranged.old r }
    ensures cost { steps.new + entries_behind ranged.new.values ≤ steps.old + entries_behind ranged.old.values }
{
    while let Some(number) = take_number(&mut ranged.values, row, steps) {
        if ranged.first <= number && number <= ranged.last {
            return Some(0);
        }
    }
    None
}

/// The first row from `row` on that has a number.
pub(crate) fn within_skip<L: Ledger>(
    ranged: &mut Ranged<'_>,
    row: u32,
    steps: &mut Steps<L>,
) -> Option<u32>
    ensures none { (r : ℕ) → row ≤ r → IsBefore r result → within_score ranged.old r ≡ None }
    ensures forward { IfSome result (λ to. row ≤ to) }
    ensures later { (r : ℕ) → row ≤ r → within_score ranged.new r ≡ within_score ranged.old r }
    ensures cost { steps.new + entries_behind ranged.new.values ≤ steps.old + entries_behind ranged.old.values }
{
    seek_number(&mut ranged.values, row, steps)
}
