ghost use Rattle.std.specs.Prelude.{◌≡◌, ℕ, ◌+◌, ◌≤◌, true, length, drop};
ghost use Rattle.sq_cursor.specs.Entries.{entries_behind, first_count};
ghost use Rattle.sq_cursor.specs.Spans.{are_ordered, are_ordered-drop, is_passage_before, spans_from, without_first_span, HasSpan};

use crate::cursor::SpanCursor;
use crate::span::Span;
use sq_base::Steps;
use std::sync::ledger::Ledger;

/// A span cursor over an ordered slice of spans.
///
/// Each span that it comes to counts one step: the first when it is made, and those that a seek
/// passes on its way. So it has read each span before the first that is left, and that one.
#[derive(Drop)]
pub struct SpanListCursor<'a> {
    spans: &'a [Span],
    at: usize,
    ghost ordered: { are_ordered spans.now ≡ true },
}

/// Whether one passage comes before another.
fn is_before(a: (u32, u32), b: (u32, u32)) -> bool
    ensures { result ≡ is_passage_before (a.0, a.1) (b.0, b.1) }
{
    a.0 < b.0 || (a.0 == b.0 && a.1 < b.1)
}

impl<'a> SpanListCursor<'a> {
    /// A cursor at the first span. It counts one step where there is a span.
    pub fn new<L: Ledger>(spans: &'a [Span], steps: &mut Steps<L>) -> SpanListCursor<'a>
        requires { are_ordered spans.now ≡ true }
        ensures left { ⟦<SpanListCursor<'a> as SpanCursor>⟧.left result ≡ spans.now }
        ensures rest { ⟦<SpanListCursor<'a> as SpanCursor>⟧.rest result ≡ entries_behind spans.now }
        ensures counted { steps.new ≡ steps.old + first_count spans.now }
        ensures cost { steps.new + ⟦<SpanListCursor<'a> as SpanCursor>⟧.rest result ≡ steps.old + length spans.now }
    {
        let cursor = SpanListCursor { spans, at: 0 };
        cursor.read(steps);
        cursor
    }

    /// Counts the span that the cursor is at, if there is one.
    fn read<L: Ledger>(&self, steps: &mut Steps<L>)
        ensures { steps.new ≡ steps.old + first_count (drop self.now.at self.now.spans.now) }
    {
        if self.at < self.spans.len() {
            steps.tick();
        }
    }
}

impl<'a> SpanCursor for SpanListCursor<'a> {
    ghost left = { λ c. drop c.at c.spans.now };

    ghost rest = { λ c. entries_behind (drop c.at c.spans.now) };

    ghost ordered = { λ c. are_ordered-drop c.at c.spans.now c.ordered };

    fn passage(&self) -> Option<(u32, u32)> {
        let span = self.spans.get(self.at)?;
        Some((span.row, span.part))
    }

    fn span(&self) -> Option<(u32, u32)> {
        let span = self.spans.get(self.at)?;
        Some((span.first, span.last))
    }

    /// Counts one step where a span is left after it, and else none.
    fn step_span<L: Ledger>(&mut self, steps: &mut Steps<L>)
        requires { HasSpan (⟦<SpanListCursor<'a> as SpanCursor>⟧.left self.old) }
        ensures left { ⟦<SpanListCursor<'a> as SpanCursor>⟧.left self.new ≡ without_first_span (⟦<SpanListCursor<'a> as SpanCursor>⟧.left self.old) }
        ensures rest { ⟦<SpanListCursor<'a> as SpanCursor>⟧.rest self.new ≡ entries_behind (⟦<SpanListCursor<'a> as SpanCursor>⟧.left self.new) }
        ensures counted { steps.new ≡ steps.old + first_count (⟦<SpanListCursor<'a> as SpanCursor>⟧.left self.new) }
        ensures cost { steps.new + ⟦<SpanListCursor<'a> as SpanCursor>⟧.rest self.new ≤ steps.old + ⟦<SpanListCursor<'a> as SpanCursor>⟧.rest self.old }
    {
        self.at += 1;
        self.read(steps);
    }

    /// Goes from span to span, and counts one step for each that it comes to.
    fn seek_passage<L: Ledger>(&mut self, passage: (u32, u32), steps: &mut Steps<L>)
        ensures left { ⟦<SpanListCursor<'a> as SpanCursor>⟧.left self.new ≡ spans_from (passage.0, passage.1) (⟦<SpanListCursor<'a> as SpanCursor>⟧.left self.old) }
        ensures rest { ⟦<SpanListCursor<'a> as SpanCursor>⟧.rest self.new ≡ entries_behind (⟦<SpanListCursor<'a> as SpanCursor>⟧.left self.new) }
        ensures counted { steps.new + ⟦<SpanListCursor<'a> as SpanCursor>⟧.rest self.new ≡ steps.old + ⟦<SpanListCursor<'a> as SpanCursor>⟧.rest self.old }
        ensures cost { steps.new + ⟦<SpanListCursor<'a> as SpanCursor>⟧.rest self.new ≤ steps.old + ⟦<SpanListCursor<'a> as SpanCursor>⟧.rest self.old }
    {
        while let Some(here) = self.passage() {
            if !is_before(here, passage) {
                return;
            }
            self.step_span(steps);
        }
    }
}
