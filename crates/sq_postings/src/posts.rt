ghost use Rattle.std.specs.Prelude.{◌≡◌, ℕ, ◌+◌, ◌*◌, ◌<◌, ◌≤◌, true, length};
ghost use Rattle.std.specs.List.{list_all};
ghost use Rattle.sq_schema.specs.Limits.{most_rows};
ghost use Rattle.sq_base.specs.Limits.{most_values};
ghost use Rattle.sq_coded.specs.Coded.{is_list};
ghost use Rattle.sq_coded.specs.Reading.{count_behind};
ghost use Rattle.sq_cursor.specs.Entries.{entries_behind, first_count};
ghost use Rattle.sq_cursor.specs.Spans.{are_ordered, first_passage, first_span, spans_from, without_first_span, HasSpan};
ghost use Rattle.sq_postings.specs.Indexed.{spans_of, is_of_property};
ghost use Rattle.sq_postings.specs.Left.{AreEntries};

use sq_base::{MOST_VALUES, Steps};
use sq_coded::{Posting, Reader};
use sq_cursor::SpanCursor;
use std::sync::ledger::Ledger;

/// A cursor over the places of one token in the passages of one property, as spans of one token.
///
/// Each posting that it comes to counts one step. A seek passes whole blocks of postings without a
/// step by their last rows.
#[derive(Drop)]
pub struct PostCursor<'a> {
    reader: Reader<'a>,
    property: u32,
    ghost entries: { AreEntries property reader },
}

impl<'a> PostCursor<'a> {
    /// A cursor over what is left of a reader.
    pub(crate) fn new(reader: Reader<'a>, property: u32) -> PostCursor<'a>
        requires few { property < most_rows }
        requires list { is_list reader ≡ true }
        ensures left { ⟦<PostCursor<'a> as SpanCursor>⟧.left result ≡ spans_of property reader.entry }
        ensures parts { list_all (is_of_property property) (spans_of property reader.entry) ≡ true }
        ensures rest { ⟦<PostCursor<'a> as SpanCursor>⟧.rest result ≡ entries_behind (spans_of property reader.entry) }
    {
        PostCursor { reader, property }
    }

    /// The number of the first passage of the property.
    fn first_part(&self) -> u32
        ensures { result ≡ self.now.property * most_values }
    {
        self.property * MOST_VALUES
    }
}

impl<'a> SpanCursor for PostCursor<'a> {
    ghost left = { λ c. spans_of c.property c.reader };

    ghost rest = { λ c. entries_behind (spans_of c.property c.reader) };

    ghost ordered = { λ c. c.entries.spans };

    fn passage(&self) -> Option<(u32, u32)> {
        let here = self.reader.here()?;
        Some((here.row, self.first_part() + here.ordinal))
    }

    fn span(&self) -> Option<(u32, u32)> {
        let here = self.reader.here()?;
        Some((here.place, here.place))
    }

    /// Counts one step where a posting is left after it, and else none.
    fn step_span<L: Ledger>(&mut self, steps: &mut Steps<L>)
        requires { HasSpan (⟦<PostCursor<'a> as SpanCursor>⟧.left self.old) }
        ensures left { ⟦<PostCursor<'a> as SpanCursor>⟧.left self.new ≡ without_first_span (⟦<PostCursor<'a> as SpanCursor>⟧.left self.old) }
        ensures rest { ⟦<PostCursor<'a> as SpanCursor>⟧.rest self.new ≡ entries_behind (⟦<PostCursor<'a> as SpanCursor>⟧.left self.new) }
        ensures counted { steps.new ≡ steps.old + first_count (⟦<PostCursor<'a> as SpanCursor>⟧.left self.new) }
        ensures cost { steps.new + ⟦<PostCursor<'a> as SpanCursor>⟧.rest self.new ≤ steps.old + ⟦<PostCursor<'a> as SpanCursor>⟧.rest self.old }
    {
        self.reader.step(steps);
    }

    /// Counts a step for each posting that it comes to, and none for those of a block that it passes.
    fn seek_passage<L: Ledger>(&mut self, passage: (u32, u32), steps: &mut Steps<L>)
        ensures left { ⟦<PostCursor<'a> as SpanCursor>⟧.left self.new ≡ spans_from (passage.0, passage.1) (⟦<PostCursor<'a> as SpanCursor>⟧.left self.old) }
        ensures rest { ⟦<PostCursor<'a> as SpanCursor>⟧.rest self.new ≡ entries_behind (⟦<PostCursor<'a> as SpanCursor>⟧.left self.new) }
        ensures counted { length (⟦<PostCursor<'a> as SpanCursor>⟧.left self.new) < length (⟦<PostCursor<'a> as SpanCursor>⟧.left self.old) → steps.old + first_count (⟦<PostCursor<'a> as SpanCursor>⟧.left self.new) ≤ steps.new }
        ensures cost { steps.new + ⟦<PostCursor<'a> as SpanCursor>⟧.rest self.new ≤ steps.old + ⟦<PostCursor<'a> as SpanCursor>⟧.rest self.old }
    {
        let ordinal = passage.1.saturating_sub(self.first_part());
        self.reader.seek(passage.0, ordinal, steps);
    }
}
