ghost use Rattle.std.specs.Prelude.{◌≡◌, ℕ, ◌+◌, ◌≤◌, true, List, Option};
ghost use Rattle.sq_cursor.specs.Rows.{IsRising, first_row, without_first, rows_from, HasRow};
ghost use Rattle.sq_cursor.specs.declared.span.Span.{Span};
ghost use Rattle.sq_cursor.specs.Spans.{are_ordered, first_passage, first_span, spans_from, without_first_span, HasSpan};

use sq_base::Steps;
use std::sync::ledger::Ledger;

/// A cursor over a strictly rising list of rows.
pub trait ItemCursor {
    /// The rows that are left.
    ghost left: { Self → List ℕ };

    /// The rest: no run of further moves counts more steps.
    ghost rest: { Self → ℕ };

    /// The first row that is left, and `None` at the end.
    fn here(&self) -> Option<u32>
        ensures { result ≡ first_row (left self.now) };

    /// Drops the first row.
    fn step<L: Ledger>(&mut self, steps: &mut Steps<L>)
        requires { HasRow (left self.old) }
        ensures left { left self.new ≡ without_first (left self.old) }
        ensures cost { steps.new + rest self.new ≤ steps.old + rest self.old };

    /// Drops the rows below `row`.
    fn seek<L: Ledger>(&mut self, row: u32, steps: &mut Steps<L>)
        ensures left { left self.new ≡ rows_from row (left self.old) }
        ensures cost { steps.new + rest self.new ≤ steps.old + rest self.old };

    /// The rows that are left rise strictly.
    ghost rising: { (c : Self) → IsRising (left c) };
}

/// A cursor over spans of tokens, passage by passage. In one passage first and last tokens rise.
pub trait SpanCursor {
    /// The spans that are left.
    ghost left: { Self → List Span };

    /// The rest: no run of further moves counts more steps.
    ghost rest: { Self → ℕ };

    /// The row and the part of the first span that is left, and `None` at the end.
    fn passage(&self) -> Option<(u32, u32)>
        ensures { result ≡ first_passage (left self.now) };

    /// The places of the first and the last token of the first span, and `None` at the end.
    fn span(&self) -> Option<(u32, u32)>
        ensures { result ≡ first_span (left self.now) };

    /// Drops the first span.
    fn step_span<L: Ledger>(&mut self, steps: &mut Steps<L>)
        requires { HasSpan (left self.old) }
        ensures left { left self.new ≡ without_first_span (left self.old) }
        ensures cost { steps.new + rest self.new ≤ steps.old + rest self.old };

    /// Drops the spans of passages before `passage`, a row and a part.
    fn seek_passage<L: Ledger>(&mut self, passage: (u32, u32), steps: &mut Steps<L>)
        ensures left { left self.new ≡ spans_from (passage.0, passage.1) (left self.old) }
        ensures cost { steps.new + rest self.new ≤ steps.old + rest self.old };

    /// The spans that are left are ordered by passage, and in one passage both ends rise.
    ghost ordered: { (c : Self) → are_ordered (left c) ≡ true };
}
