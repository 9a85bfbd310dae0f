ghost use Rattle.std.specs.Prelude.{◌≡◌, ℕ, ◌+◌, ◌<◌, ◌≤◌, ◌^◌, true, drop, length, slice_get, slice_index_or, []};
ghost use Rattle.sq_coded.specs.Coded.{AllFollow, origin, is_list, coded};
ghost use Rattle.sq_coded.specs.Reading.{HasEntry, without_first, first_count, count_behind, is_from, entries_from};

use crate::bytes::Bytes;
use crate::lists::Lists;
use crate::posting::Posting;
use sq_base::Steps;
use std::marker::Model;
use std::sync::ledger::Ledger;

/// A reader of one list, which decodes in place. It is seen as what is left of the list.
///
/// Each entry that it comes to counts one step. A seek passes blocks without a step by their last rows.
#[derive(Drop)]
pub struct Reader<'a> {
    lists: &'a Lists,
    list: usize,
    at: u64,
    here: Option<Posting>,
    more: u32,
    bytes: Bytes<'a>,
    last: u32,
    end: u32,
}

impl<'a> Model for Reader<'a> {
    ghost use Rattle.std.specs.Prelude.{List, [], drop, slice_index_or};
    ghost use Rattle.sq_coded.specs.declared.posting.Posting.{Posting};

    ghost Value = { List Posting };

    ghost use Rattle.sq_coded.specs.Reading.{IsReading};

    ghost view = { λ r. drop r.at (slice_index_or r.lists.now r.list []) };

    ghost invariant = { λ r. IsReading r.lists.now r.list r.at r.here r.more r.bytes r.last r.end };
}

/// Whether an entry is in a passage or a later one.
fn is_from(row: u32, ordinal: u32, entry: Posting) -> bool
    ensures { result ≡ is_from row ordinal entry }
{
    row < entry.row || (entry.row == row && ordinal <= entry.ordinal)
}

/// Passes blocks whose last row is below a row, from the one that begins at a word, and whose first
/// entry has a number. Gives the number of the next block's first entry, and where that block begins.
fn skip(lists: &Lists, list: usize, at: u64, end: u32, row: u32) -> (u64, u32)
    requires known { list < length lists.now }
    requires short { length (coded (slice_index_or lists.now list [])) < 2 ^ 32 }
    requires few { length (slice_index_or lists.now list []) < 2 ^ 40 }
    requires rises { is_list (slice_index_or lists.now list []) ≡ true }
    requires block { drop end (coded (slice_index_or lists.now list [])) ≡ coded (drop at (slice_index_or lists.now list [])) }
    ensures block { drop result.1 (coded (slice_index_or lists.now list [])) ≡ coded (drop result.0 (slice_index_or lists.now list [])) }
    ensures kept { (ordinal : ℕ) → entries_from row ordinal (drop result.0 (slice_index_or lists.now list []))
        ≡ entries_from row ordinal (drop at (slice_index_or lists.now list [])) }
    ensures on { at ≤ result.0 }
{
    let mut number = at;
    let mut place = end;
    while let Some(last) = lists.read(list, place) {
        if row <= last {
            return (number, place);
        }
        let size = match lists.read(list, place + 1) {
            Some(size) => size,
            None => unreachable!(),
        };
        number += (size / 65_536) as u64;
        place += 2 + size % 65_536;
    }
    (number, place)
}

impl<'a> Reader<'a> {
    /// A reader at the first entry of a list. It counts one step where there is an entry.
    pub fn new<L: Ledger>(lists: &'a Lists, list: usize, steps: &mut Steps<L>) -> Reader<'a>
        requires { list < length lists.now }
        ensures left { result ≡ slice_index_or lists.now list [] }
        ensures rises { is_list result ≡ true }
        ensures counted { steps.new ≡ steps.old + first_count result }
        ensures cost { steps.new + count_behind result ≡ steps.old + length result }
    {
        lists.tells(list);
        Reader::begin(lists, list, 0, 0, steps)
    }

    /// A reader at the block that begins at a word, if one does, with the entry of this number.
    fn begin<L: Ledger>(
        lists: &'a Lists,
        list: usize,
        at: u64,
        end: u32,
        steps: &mut Steps<L>,
    ) -> Reader<'a>
        requires known { list < length lists.now }
        requires short { length (coded (slice_index_or lists.now list [])) < 2 ^ 32 }
        requires few { length (slice_index_or lists.now list []) < 2 ^ 40 }
        requires rises { is_list (slice_index_or lists.now list []) ≡ true }
        requires block { drop end (coded (slice_index_or lists.now list [])) ≡ coded (drop at (slice_index_or lists.now list [])) }
        ensures left { result ≡ drop at (slice_index_or lists.now list []) }
        ensures counted { steps.new ≡ steps.old + first_count result }
    {
        match lists.read(list, end) {
            None => Reader {
                lists,
                list,
                at,
                here: None,
                more: 0,
                bytes: Bytes::new(lists, list, end),
                last: 0,
                end,
            },
            Some(last) => {
                let size = match lists.read(list, end + 1) {
                    Some(size) => size,
                    None => unreachable!(),
                };
                let mut bytes = Bytes::new(lists, list, end + 2);
                let here = bytes.entry(Posting {
                    row: 0,
                    ordinal: 0,
                    place: 0,
                });
                steps.tick();
                Reader {
                    lists,
                    list,
                    at,
                    here: Some(here),
                    more: size / 65_536 - 1,
                    bytes,
                    last,
                    end: end + 2 + size % 65_536,
                }
            }
        }
    }

    /// The first entry that is left.
    pub fn here(&self) -> Option<Posting>
        ensures { result ≡ slice_get self.now 0 }
    {
        self.here
    }

    /// Goes to the next entry. It counts one step where an entry is left after it, and else none.
    pub fn step<L: Ledger>(&mut self, steps: &mut Steps<L>)
        requires { HasEntry self.old }
        ensures left { self.new ≡ without_first self.old }
        ensures counted { steps.new ≡ steps.old + first_count self.new }
        ensures cost { steps.new + count_behind self.new ≤ steps.old + count_behind self.old }
    {
        let here = match self.here {
            Some(here) => here,
            None => unreachable!(),
        };
        if self.more > 0 {
            self.here = Some(self.bytes.entry(here));
            self.at += 1;
            self.more -= 1;
            steps.tick();
            return;
        }
        *self = Reader::begin(self.lists, self.list, self.at + 1, self.end, steps);
    }

    /// The first entry that is left, and that what is left rises.
    fn first(&self) -> Option<Posting>
        ensures value { result ≡ slice_get self.now 0 }
        ensures rises { AllFollow origin self.now }
    {
        self.here
    }

    /// Goes to the next entry, past blocks whose last row is below a row.
    fn pass<L: Ledger>(&mut self, row: u32, steps: &mut Steps<L>)
        requires { HasEntry self.old }
        ensures shorter { length self.new < length self.old }
        ensures kept { (ordinal : ℕ) → entries_from row ordinal self.new ≡ entries_from row ordinal (without_first self.old) }
        ensures counted { steps.new ≡ steps.old + first_count self.new }
    {
        if row <= self.last {
            self.step(steps);
            return;
        }
        if self.here.is_none() {
            unreachable!();
        }
        let (at, end) = skip(
            self.lists,
            self.list,
            self.at + 1 + self.more as u64,
            self.end,
            row,
        );
        *self = Reader::begin(self.lists, self.list, at, end, steps);
    }

    /// Goes to the first entry of a passage or a later one. It counts one step for each entry that it
    /// comes to, and none for those of a block that it passes.
    pub fn seek<L: Ledger>(&mut self, row: u32, ordinal: u32, steps: &mut Steps<L>)
        ensures left { self.new ≡ entries_from row ordinal self.old }
        ensures counted { length self.new < length self.old → steps.old + first_count self.new ≤ steps.new }
        ensures cost { steps.new + count_behind self.new ≤ steps.old + count_behind self.old }
    {
        while let Some(here) = self.first() {
            if is_from(row, ordinal, here) {
                return;
            }
            self.pass(row, steps);
        }
    }
}
