ghost use Rattle.std.specs.Prelude.{◌≡◌, ◌+◌, true, length};
ghost use Rattle.sq_packet.specs.Refiners as packet;

use crate::counts::count_row;
use crate::entries::{buckets_of, singles_of};
use crate::marks::{marks_of, zeros};
use sq_base::{List, Steps};
use sq_postings::{Index, ValueCursor};
use sq_response::Entry;
use std::alloc::{AllocError, Global};
use std::sync::ledger::Ledger;

/// Counts, over the rows that come, of a property's numbers: by number, or by bucket. The rows rise. A
/// row that has a number twice, or two numbers of a bucket, counts once.
#[derive(Drop)]
pub struct Refiner<'a> {
    cursor: ValueCursor<'a>,
    /// Whether the counts are by number.
    bare: bool,
    /// The bounds of the buckets, or each number that there is, rising.
    marks: Vec<i64>,
    /// A count for the numbers below the first mark, and one from each mark on to below the next.
    counts: Vec<u64>,
    ghost rises: { packet.are_rising marks.items ≡ true },
    ghost sized: { length counts.items ≡ length marks.items + 1 },
}

impl<'a> Refiner<'a> {
    ghost use Rattle.std.specs.Prelude.{◌≡◌, ℕ, ◌+◌, ◌*◌, ◌≤◌, ℤ, true, List, [], ◌∷◌, ◌++◌, length, map, IfOk, MatchResult};
    ghost use Rattle.sq_model.specs.Valid.{are_rising};
    ghost use Rattle.sq_packet.specs.Refiners as packet;
    ghost use Rattle.sq_postings.specs.Indexed.{Indexed, values_in};
    ghost use Rattle.sq_ranking.specs.Ranking as ranking;
    ghost use Rattle.sq_collect.specs.Counted.{numbers_in_row};
    ghost use Rattle.sq_collect.specs.Refined.{refiner_rest, IsRefinerOf};

    /// A refiner that has no rows yet. Without bounds it reads each number of the property once, and
    /// steps and rest together are at most twice their number.
    pub fn reserve<L: Ledger>(
        alloc: Global,
        index: &'a Index,
        property: u32,
        bounds: &[i64],
        steps: &mut Steps<L>,
    ) -> Result<Refiner<'a>, AllocError>
        requires { packet.are_rising bounds.now ≡ true }
        ensures counts { IfOk result (λ refiner. IsRefinerOf index.now property bounds.now refiner []) }
        ensures cost { MatchResult result
            (λ refiner. steps.new + refiner_rest refiner ≤ steps.old + 2 * length (values_in index.now property))
            (λ _. steps.new ≤ steps.old + 2 * length (values_in index.now property)) }
    {
        let marks = marks_of(alloc, index, property, bounds, steps)?;
        let counts = zeros(alloc, marks.len() + 1)?;
        let cursor = index.values(property, steps);
        Ok(Refiner {
            cursor,
            bare: bounds.is_empty(),
            marks,
            counts,
        })
    }

    /// Counts the numbers of the next row. It takes no memory, and all rows together count one step for
    /// each number at most.
    pub fn take<L: Ledger>(&mut self, row: u32, steps: &mut Steps<L>)
        ensures counts { (index : Indexed) (property : ℕ) (bounds : List ℤ) (rows : List ℕ) → IsRefinerOf index property bounds self.old rows → are_rising (rows ++ row ∷ []) ≡ true → IsRefinerOf index property bounds self.new (rows ++ row ∷ []) }
        ensures cost { steps.new + refiner_rest self.new ≤ steps.old + refiner_rest self.old }
    {
        self.cursor.seek(row, steps);
        count_row(&mut self.cursor, row, &self.marks, &mut self.counts, steps);
    }

    /// The entries over the rows that came: without bounds one for each number that a row has, the least
    /// first, else one for each bucket.
    pub fn entries(&self, alloc: Global) -> Result<List<Entry>, AllocError>
        ensures { (index : Indexed) (property : ℕ) (bounds : List ℤ) (rows : List ℕ) → IsRefinerOf index property bounds self.now rows → are_rising rows ≡ true → IfOk result (λ found. found ≡ ranking.entries bounds (map (numbers_in_row index property) rows)) }
    {
        if self.bare {
            singles_of(alloc, &self.marks, &self.counts)
        } else {
            buckets_of(alloc, &self.marks, &self.counts)
        }
    }
}
