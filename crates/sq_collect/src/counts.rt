//! Counts of the places between marks.
ghost use Rattle.std.specs.Prelude.{◌≡◌, ℕ, ◌+◌, ◌<◌, ◌≤◌, ◌^◌, true, length, slice_index_or};
ghost use Rattle.std.specs.List.{list_any};
ghost use Rattle.sq_cursor.specs.Entries.{entries_behind};
ghost use Rattle.sq_packet.specs.Refiners.{are_rising};
ghost use Rattle.sq_postings.specs.Left.{pairs_from};
ghost use Rattle.sq_collect.specs.Counted as spec;
ghost use Rattle.sq_collect.specs.Counted.{are_from, is_placed, numbers_at, once};

use sq_base::Steps;
use sq_postings::ValueCursor;
use std::sync::ledger::Ledger;

/// Counts the numbers of a row, at which the cursor is.
pub fn count_row<L: Ledger>(
    cursor: &mut ValueCursor<'_>,
    row: u32,
    marks: &[i64],
    counts: &mut [u64],
    steps: &mut Steps<L>,
)
    requires rises { are_rising marks.now ≡ true }
    requires sized { length counts.old ≡ length marks.now + 1 }
    requires from { are_from row cursor.old ≡ true }
    ensures counts { (place : ℕ) → place ≤ length marks.now → slice_index_or counts.old place 0 < 2 ^ 32 → slice_index_or counts.new place 0 ≡ slice_index_or counts.old place 0 + once (list_any (is_placed marks.now place) (numbers_at row cursor.old)) }
    ensures later { (later : ℕ) → row < later → pairs_from later cursor.new ≡ pairs_from later cursor.old }
    ensures cost { steps.new + entries_behind cursor.new ≤ steps.old + entries_behind cursor.old }
{
    let mut next = 0;
    let mut left = cursor.here();
    while let Some(here) = left {
        if here.0 != row {
            return;
        }
        next = count_number(marks, counts, here.1, next);
        cursor.step(steps);
        left = cursor.here();
    }
}

/// Counts a number at its place, unless the places below `next` are counted and it is one of them.
/// Gives the place below which all are counted then.
fn count_number(marks: &[i64], counts: &mut [u64], number: i64, next: usize) -> usize
    requires rises { are_rising marks.now ≡ true }
    requires sized { length counts.old ≡ length marks.now + 1 }
    ensures next { result ≡ spec.next_place (spec.place_of marks.now number) next }
    ensures counts { counts.new ≡ spec.counted (spec.place_of marks.now number) next counts.old }
{
    let place = place_of(marks, number);
    if place < next {
        return next;
    }
    counts[place] = counts[place].saturating_add(1);
    place + 1
}

/// How many of the marks a number has reached.
fn place_of(marks: &[i64], number: i64) -> usize
    requires { are_rising marks.now ≡ true }
    ensures place { result ≡ spec.place_of marks.now number }
    ensures bound { result ≤ length marks.now }
{
    marks.partition_point(|&mark| mark <= number)
}
