ghost use Rattle.std.specs.Prelude.{◌≡◌, ℕ, ◌+◌, ◌-◌, ◌≤◌, length, drop};
ghost use Rattle.sq_cursor.specs.Entries.{entries_behind, first_count};
ghost use Rattle.sq_cursor.specs.Rows.{IsRising, IsRising-prop, IsRising-drop, rows_from, without_first, HasRow};

use crate::cursor::ItemCursor;
use sq_base::Steps;
use std::sync::ledger::Ledger;

/// A cursor over a strictly rising slice of rows.
///
/// Each entry that it comes to counts one step: the first when it is made, and those that a seek
/// passes on its way. So it has read each entry before the first that is left, and that one.
#[derive(Drop)]
pub struct ListCursor<'a> {
    rows: &'a [u32],
    at: usize,
    ghost rises: { IsRising rows.now } by { IsRising-prop rows.now },
}

impl<'a> ListCursor<'a> {
    /// A cursor at the first row. It counts one step where there is a row.
    pub fn new<L: Ledger>(rows: &'a [u32], steps: &mut Steps<L>) -> ListCursor<'a>
        requires { IsRising rows.now }
        ensures left { ⟦<ListCursor<'a> as ItemCursor>⟧.left result ≡ rows.now }
        ensures rest { ⟦<ListCursor<'a> as ItemCursor>⟧.rest result ≡ entries_behind rows.now }
        ensures counted { steps.new ≡ steps.old + first_count rows.now }
        ensures cost { steps.new + ⟦<ListCursor<'a> as ItemCursor>⟧.rest result ≡ steps.old + length rows.now }
    {
        let cursor = ListCursor { rows, at: 0 };
        cursor.read(steps);
        cursor
    }

    /// Counts the entry that the cursor is at, if there is one.
    fn read<L: Ledger>(&self, steps: &mut Steps<L>)
        ensures { steps.new ≡ steps.old + first_count (drop self.now.at self.now.rows.now) }
    {
        if self.at < self.rows.len() {
            steps.tick();
        }
    }
}

impl<'a> ItemCursor for ListCursor<'a> {
    ghost left = { λ c. drop c.at c.rows.now };

    ghost rest = { λ c. entries_behind (drop c.at c.rows.now) };

    ghost rising = { λ c. IsRising-drop c.at c.rows.now c.rises };

    fn here(&self) -> Option<u32> {
        self.rows.get(self.at).copied()
    }

    /// Counts one step where an entry is left after it, and else none.
    fn step<L: Ledger>(&mut self, steps: &mut Steps<L>)
        requires { HasRow (⟦<ListCursor<'a> as ItemCursor>⟧.left self.old) }
        ensures left { ⟦<ListCursor<'a> as ItemCursor>⟧.left self.new ≡ without_first (⟦<ListCursor<'a> as ItemCursor>⟧.left self.old) }
        ensures rest { ⟦<ListCursor<'a> as ItemCursor>⟧.rest self.new ≡ entries_behind (⟦<ListCursor<'a> as ItemCursor>⟧.left self.new) }
        ensures counted { steps.new ≡ steps.old + first_count (⟦<ListCursor<'a> as ItemCursor>⟧.left self.new) }
        ensures cost { steps.new + ⟦<ListCursor<'a> as ItemCursor>⟧.rest self.new ≤ steps.old + ⟦<ListCursor<'a> as ItemCursor>⟧.rest self.old }
    {
        self.at += 1;
        self.read(steps);
    }

    /// Goes from entry to entry, and counts one step for each that it comes to.
    fn seek<L: Ledger>(&mut self, row: u32, steps: &mut Steps<L>)
        ensures left { ⟦<ListCursor<'a> as ItemCursor>⟧.left self.new ≡ rows_from row (⟦<ListCursor<'a> as ItemCursor>⟧.left self.old) }
        ensures rest { ⟦<ListCursor<'a> as ItemCursor>⟧.rest self.new ≡ entries_behind (⟦<ListCursor<'a> as ItemCursor>⟧.left self.new) }
        ensures counted { steps.new + ⟦<ListCursor<'a> as ItemCursor>⟧.rest self.new ≡ steps.old + ⟦<ListCursor<'a> as ItemCursor>⟧.rest self.old }
        ensures cost { steps.new + ⟦<ListCursor<'a> as ItemCursor>⟧.rest self.new ≤ steps.old + ⟦<ListCursor<'a> as ItemCursor>⟧.rest self.old }
    {
        while let Some(here) = self.here() {
            if row <= here {
                return;
            }
            self.step(steps);
        }
    }
}
