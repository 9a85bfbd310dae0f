ghost use Rattle.std.specs.Prelude.{◌≡◌, ℕ, ◌+◌, ◌≤◌, true, IsTrue};
ghost use Rattle.sq_cursor.specs.Rows.{common_rows, other_rows, is_aligned, is_settled, IsRising-filter, is_row_of};

use crate::cursor::ItemCursor;
use sq_base::Steps;
use std::sync::ledger::Ledger;

/// The rows of both cursors. Both stand at its first row, or one of them is at its end.
#[derive(Drop)]
pub struct And<A: ItemCursor, B: ItemCursor> {
    a: A,
    b: B,
    ghost aligned: { is_aligned (A.left a) (B.left b) ≡ true },
}

/// Moves two cursors on to their first common row, or one of them to its end.
fn align<A: ItemCursor, B: ItemCursor, L: Ledger>(a: &mut A, b: &mut B, steps: &mut Steps<L>)
    ensures left { common_rows (A.left a.new) (B.left b.new) ≡ common_rows (A.left a.old) (B.left b.old) }
    ensures aligned { is_aligned (A.left a.new) (B.left b.new) ≡ true }
    ensures cost { steps.new + (A.rest a.new + B.rest b.new) ≤ steps.old + (A.rest a.old + B.rest b.old) }
{
    while let (Some(x), Some(y)) = (a.here(), b.here()) {
        if x < y {
            a.seek(y, steps);
        } else if y < x {
            b.seek(x, steps);
        } else {
            return;
        }
    }
}

impl<A: ItemCursor, B: ItemCursor> And<A, B> {
    /// A cursor over the rows that both cursors have. It may move both.
    pub fn new<L: Ledger>(a: A, b: B, steps: &mut Steps<L>) -> And<A, B>
        ensures left { ⟦<And<A, B> as ItemCursor>⟧.left result ≡ common_rows (A.left a) (B.left b) }
        ensures cost { steps.new + ⟦<And<A, B> as ItemCursor>⟧.rest result ≤ steps.old + (A.rest a + B.rest b) }
    {
        let mut a = a;
        let mut b = b;
        align(&mut a, &mut b, steps);
        And { a, b }
    }
}

impl<A: ItemCursor, B: ItemCursor> ItemCursor for And<A, B> {
    ghost left = { λ c. common_rows (A.left c.a) (B.left c.b) };

    ghost rest = { λ c. A.rest c.a + B.rest c.b };

    ghost rising = { λ c. IsRising-filter (is_row_of (B.left c.b)) (A.left c.a) (A.rising c.a) };

    fn here(&self) -> Option<u32> {
        self.b.here().and(self.a.here())
    }

    fn step<L: Ledger>(&mut self, steps: &mut Steps<L>) {
        self.a.step(steps);
        align(&mut self.a, &mut self.b, steps);
    }

    fn seek<L: Ledger>(&mut self, row: u32, steps: &mut Steps<L>) {
        self.a.seek(row, steps);
        self.b.seek(row, steps);
        align(&mut self.a, &mut self.b, steps);
    }
}

/// The rows of the first cursor that the second does not have. The first row of the first cursor
/// is none of the second's, or it is at its end.
#[derive(Drop)]
pub struct AndNot<A: ItemCursor, B: ItemCursor> {
    a: A,
    b: B,
    ghost settled: { is_settled (A.left a) (B.left b) ≡ true },
}

/// Moves `a` on to its first row that `b` does not have.
fn settle<A: ItemCursor, B: ItemCursor, L: Ledger>(a: &mut A, b: &mut B, steps: &mut Steps<L>)
    ensures left { other_rows (A.left a.new) (B.left b.new) ≡ other_rows (A.left a.old) (B.left b.old) }
    ensures settled { is_settled (A.left a.new) (B.left b.new) ≡ true }
    ensures cost { steps.new + (A.rest a.new + B.rest b.new) ≤ steps.old + (A.rest a.old + B.rest b.old) }
{
    while let Some(row) = a.here() {
        b.seek(row, steps);
        if b.here() != Some(row) {
            return;
        }
        a.step(steps);
    }
}

impl<A: ItemCursor, B: ItemCursor> AndNot<A, B> {
    /// A cursor over the rows of `a` that `b` does not have. It may move both.
    pub fn new<L: Ledger>(a: A, b: B, steps: &mut Steps<L>) -> AndNot<A, B>
        ensures left { ⟦<AndNot<A, B> as ItemCursor>⟧.left result ≡ other_rows (A.left a) (B.left b) }
        ensures cost { steps.new + ⟦<AndNot<A, B> as ItemCursor>⟧.rest result ≤ steps.old + (A.rest a + B.rest b) }
    {
        let mut a = a;
        let mut b = b;
        settle(&mut a, &mut b, steps);
        AndNot { a, b }
    }
}

impl<A: ItemCursor, B: ItemCursor> ItemCursor for AndNot<A, B> {
    ghost left = { λ c. other_rows (A.left c.a) (B.left c.b) };

    ghost rest = { λ c. A.rest c.a + B.rest c.b };

    ghost rising = { λ c. IsRising-filter _ (A.left c.a) (A.rising c.a) };

    fn here(&self) -> Option<u32> {
        self.a.here()
    }

    fn step<L: Ledger>(&mut self, steps: &mut Steps<L>) {
        self.a.step(steps);
        settle(&mut self.a, &mut self.b, steps);
    }

    fn seek<L: Ledger>(&mut self, row: u32, steps: &mut Steps<L>) {
        self.a.seek(row, steps);
        settle(&mut self.a, &mut self.b, steps);
    }
}
