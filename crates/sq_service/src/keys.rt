//! The keys of hits, which come in the order of their rows, off the numbers of properties.
ghost use Rattle.std.specs.Prelude.{◌≡◌, ℕ, ◌+◌, ◌<◌, ◌≤◌, ℤ, [], ◌∷◌, ◌++◌, length, true, slice_get, option_to_list};
ghost use Rattle.sq_cursor.specs.Entries.{entries_behind};
ghost use Rattle.sq_collect.specs.Counted.{numbers_at};
ghost use Rattle.sq_engine.specs.Answer as answer;
ghost use Rattle.sq_service.specs.Keys as spec;

use crate::sorts::{Key, Sort};
use sq_base::Steps;
use sq_packet::Direction;
use sq_postings::{Index, ValueCursor};
use sq_ranking::SortKeys;
use std::sync::ledger::Ledger;

/// The numbers of a property that rows yet to come may have, for a sort of this direction.
#[derive(Drop)]
pub(crate) struct Column<'a> {
    values: ValueCursor<'a>,
    direction: Direction,
}

/// What gives the key of each hit for one sort.
#[derive(Drop)]
pub(crate) enum KeySource<'a> {
    Nothing,
    Score,
    Property(Column<'a>),
}

/// What gives the keys of each hit for the first four sorts.
#[derive(Drop)]
pub(crate) struct KeySources<'a> {
    first: KeySource<'a>,
    second: KeySource<'a>,
    third: KeySource<'a>,
    fourth: KeySource<'a>,
}

/// The key among the best so far and one more.
fn better(direction: Direction, best: Option<i64>, n: i64) -> Option<i64>
    ensures { result ≡ answer.key_among direction (option_to_list best ++ n ∷ []) }
{
    let Some(before) = best else {
        return Some(n);
    };
    match direction {
        Direction::Ascending => Some(if n < before { n } else { before }),
        Direction::Descending => Some(if before < n { n } else { before }),
    }
}

/// The key among the numbers of a row, of pairs that begin there.
fn key_among<L: Ledger>(
    values: &mut ValueCursor<'_>,
    row: u32,
    direction: Direction,
    steps: &mut Steps<L>,
) -> Option<i64>
    requires { spec.AreFrom row values.old }
    ensures value { result ≡ answer.key_among direction (numbers_at row values.old) }
    ensures later { (r : ℕ) → row < r → numbers_at r values.new ≡ numbers_at r values.old }
    ensures cost { steps.new + entries_behind values.new ≤ steps.old + entries_behind values.old }
{
    let mut best = None;
    while let Some((at, n)) = values.here() {
        if at != row {
            return best;
        }
        best = better(direction, best, n);
        values.step(steps);
    }
    best
}

impl<'a> Column<'a> {
    fn new<L: Ledger>(
        index: &'a Index,
        property: u32,
        direction: Direction,
        steps: &mut Steps<L>,
    ) -> Column<'a>
        ensures key { (row : ℕ) → spec.column_key result row ≡ spec.key_in_row index.now property direction row }
        ensures cost { steps.new + spec.column_rest result ≤ steps.old + spec.property_cost index.now property }
    {
        let values = index.values(property, steps);
        Column { values, direction }
    }

    /// The key of a row: its least number for Ascending, its greatest for Descending.
    fn key<L: Ledger>(&mut self, row: u32, steps: &mut Steps<L>) -> Option<i64>
        ensures value { result ≡ spec.column_key self.old row }
        ensures later { (r : ℕ) → row < r → spec.column_key self.new r ≡ spec.column_key self.old r }
        ensures cost { steps.new + spec.column_rest self.new ≤ steps.old + spec.column_rest self.old }
    {
        self.values.seek(row, steps);
        key_among(&mut self.values, row, self.direction, steps)
    }
}

impl<'a> KeySource<'a> {
    fn new<L: Ledger>(index: &'a Index, sort: Option<Sort>, steps: &mut Steps<L>) -> KeySource<'a>
        ensures key { (row : ℕ) (score : ℤ) → spec.source_key result row score ≡ spec.key_by index.now sort row score }
        ensures cost { steps.new + spec.source_rest result ≤ steps.old + spec.sort_cost_at index.now sort }
    {
        let Some(sort) = sort else {
            return KeySource::Nothing;
        };
        match sort.key {
            Key::Score => KeySource::Score,
            Key::Property(property) => {
                KeySource::Property(Column::new(index, property, sort.direction, steps))
            }
        }
    }

    fn key<L: Ledger>(&mut self, row: u32, score: i64, steps: &mut Steps<L>) -> Option<i64>
        ensures value { result ≡ spec.source_key self.old row score }
        ensures later { (r : ℕ) (s : ℤ) → row < r → spec.source_key self.new r s ≡ spec.source_key self.old r s }
        ensures cost { steps.new + spec.source_rest self.new ≤ steps.old + spec.source_rest self.old }
    {
        match self {
            KeySource::Nothing => None,
            KeySource::Score => Some(score),
            KeySource::Property(column) => column.key(row, steps),
        }
    }
}

fn sort_at(sorts: &[Sort], i: usize) -> Option<Sort>
    ensures { result ≡ slice_get sorts.now i }
{
    sorts.get(i).copied()
}

impl<'a> KeySources<'a> {
    pub(crate) fn new<L: Ledger>(
        index: &'a Index,
        sorts: &[Sort],
        steps: &mut Steps<L>,
    ) -> KeySources<'a>
        ensures keys { (row : ℕ) (score : ℤ) → spec.keys_at result row score ≡ spec.keys_by index.now sorts.now row score }
        ensures cost { steps.new + spec.sources_rest result ≤ steps.old + spec.sources_cost index.now sorts.now }
    {
        let first = KeySource::new(index, sort_at(sorts, 0), steps);
        let second = KeySource::new(index, sort_at(sorts, 1), steps);
        let third = KeySource::new(index, sort_at(sorts, 2), steps);
        let fourth = KeySource::new(index, sort_at(sorts, 3), steps);
        KeySources {
            first,
            second,
            third,
            fourth,
        }
    }

    /// The keys of a hit in a row with this score. The rows rise.
    pub(crate) fn keys<L: Ledger>(&mut self, row: u32, score: i64, steps: &mut Steps<L>) -> SortKeys
        ensures value { result ≡ spec.keys_at self.old row score }
        ensures later { (r : ℕ) (s : ℤ) → row < r → spec.keys_at self.new r s ≡ spec.keys_at self.old r s }
        ensures cost { steps.new + spec.sources_rest self.new ≤ steps.old + spec.sources_rest self.old }
    {
        SortKeys {
            first: self.first.key(row, score, steps),
            second: self.second.key(row, score, steps),
            third: self.third.key(row, score, steps),
            fourth: self.fourth.key(row, score, steps),
        }
    }
}
