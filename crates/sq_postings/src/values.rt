ghost use Rattle.std.specs.Prelude.{◌≡◌, ℕ, ◌+◌, ◌≤◌, true, length, drop, slice_get};
ghost use Rattle.sq_cursor.specs.Entries.{entries_behind, first_count};
ghost use Rattle.sq_postings.specs.Rising.{rises, pair_up_to};
ghost use Rattle.sq_postings.specs.Left.{HasPair, without_first_pair, pairs_from};

use sq_base::Steps;
use std::marker::Model;
use std::sync::ledger::Ledger;

/// A cursor over pairs of a row and a number, by row and then by number. It is seen as what is left.
///
/// Each pair that it comes to counts one step: the first when it is made, and those that a seek passes.
#[derive(Drop)]
pub struct ValueCursor<'a> {
    pairs: &'a [(u32, i64)],
    at: usize,
}

impl<'a> Model for ValueCursor<'a> {
    ghost use Rattle.std.specs.Prelude.{◌≡◌, ℕ, ℤ, List, true, drop};
    ghost use Rattle.sq_postings.specs.Rising.{rises, pair_up_to};

    ghost Value = { List (ℕ × ℤ) };

    ghost view = { λ c. drop c.at c.pairs.now };

    ghost invariant = { λ c. rises pair_up_to c.pairs.now ≡ true };
}

impl<'a> ValueCursor<'a> {
    /// A cursor at the first pair. It counts one step where there is a pair.
    pub(crate) fn new<L: Ledger>(pairs: &'a [(u32, i64)], steps: &mut Steps<L>) -> ValueCursor<'a>
        requires { rises pair_up_to pairs.now ≡ true }
        ensures left { result ≡ pairs.now }
        ensures counted { steps.new ≡ steps.old + first_count result }
        ensures cost { steps.new + entries_behind result ≡ steps.old + length result }
    {
        let cursor = ValueCursor { pairs, at: 0 };
        cursor.read(steps);
        cursor
    }

    /// Counts the pair that the cursor is at, if there is one.
    fn read<L: Ledger>(&self, steps: &mut Steps<L>)
        ensures { steps.new ≡ steps.old + first_count self.now }
    {
        if self.at < self.pairs.len() {
            steps.tick();
        }
    }

    /// The first pair that is left. Those that are left rise by row and then by number.
    pub fn here(&self) -> Option<(u32, i64)>
        ensures value { result ≡ slice_get self.now 0 }
        ensures rising { rises pair_up_to self.now ≡ true }
    {
        self.pairs.get(self.at).copied()
    }

    /// Drops the first pair. It counts one step where a pair is left after it, and else none.
    pub fn step<L: Ledger>(&mut self, steps: &mut Steps<L>)
        requires { HasPair self.old }
        ensures left { self.new ≡ without_first_pair self.old }
        ensures counted { steps.new ≡ steps.old + first_count self.new }
        ensures cost { steps.new + entries_behind self.new ≤ steps.old + entries_behind self.old }
    {
        self.at += 1;
        self.read(steps);
    }

    /// Drops the pairs whose row is below `row`, and counts one step for each that it comes to.
    pub fn seek<L: Ledger>(&mut self, row: u32, steps: &mut Steps<L>)
        ensures left { self.new ≡ pairs_from row self.old }
        ensures counted { steps.new + entries_behind self.new ≡ steps.old + entries_behind self.old }
    {
        while let Some(here) = self.here() {
            if row <= here.0 {
                return;
            }
            self.step(steps);
        }
    }
}
