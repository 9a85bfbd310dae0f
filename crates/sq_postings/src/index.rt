ghost use Rattle.std.specs.Prelude.{◌≡◌, ℕ, ◌+◌, ◌<◌, true, length, slice_get, slice_index_or};
ghost use Rattle.std.specs.Option.{option_map};
ghost use Rattle.std.specs.List.{list_all};
ghost use Rattle.sq_coded.specs.Coded.{coded};
ghost use Rattle.sq_cursor.specs.Entries.{entries_behind, first_count};
ghost use Rattle.sq_postings.specs.Indexed.{indexed, row_at, kind_in, is_searchable_in, list_at, spans_of_list, is_of_property, AreListsOf, values_in, rows_with, claims_in, length_of};
ghost use Rattle.sq_postings.specs.Kept.{IsKept};
ghost use Rattle.sq_model.specs.declared.corpus.Corpus.{Corpus};
ghost use Rattle.sq_postings.specs.Laws.{ListsAreWithinCount, ListsHavePostings, ListsHavePlaces};
ghost use Rattle.sq_postings.specs.StandsFor.{StandsFor};

use crate::parts::{Claim, Parts};
use crate::posts::PostCursor;
use crate::search;
use crate::values::ValueCursor;
use sq_base::{MOST_VALUES, Steps};
use sq_coded::Reader;
use sq_cursor::{ItemCursor, ListCursor, SpanCursor};
use sq_schema::Kind;
use std::marker::Model;
use std::ops::Range;
use std::sync::ledger::Ledger;

/// The postings, numbers, claims and lengths of passages of a corpus.
///
/// A row is an item's position, from 0. The lists are those of the terms, in their order.
#[derive(Drop)]
pub struct Index {
    parts: Parts,
}

impl Model for Index {
    ghost use Rattle.sq_postings.specs.Indexed.{Indexed, indexed};
    ghost use Rattle.sq_postings.specs.Kept.{IsKept};

    ghost Value = { Indexed };

    ghost view = { λ index. indexed index.parts };

    ghost invariant = { λ index. IsKept index.parts };
}

impl Index {
    /// The index of these parts.
    pub fn new(parts: Parts) -> Index
        requires { IsKept parts }
        ensures { result ≡ indexed parts }
    {
        Index { parts }
    }

    /// What the lists say of each corpus that the index stands for. It does nothing.
    pub fn tells(&self)
        ensures count { (corpus : Corpus) → StandsFor self.now corpus → ListsAreWithinCount self.now corpus }
        ensures postings { (corpus : Corpus) → StandsFor self.now corpus → ListsHavePostings self.now corpus }
        ensures places { (corpus : Corpus) → StandsFor self.now corpus → ListsHavePlaces self.now corpus }
    {
        let _parts = &self.parts;
    }

    /// How many items there are.
    pub fn items(&self) -> u32
        ensures { result ≡ length self.now.rows }
    {
        self.parts.rows.len() as u32
    }

    /// The number of the item in a row.
    pub fn number(&self, row: u32) -> u32
        requires { row < length self.now.rows }
        ensures { result ≡ (row_at self.now row).number }
    {
        self.parts.rows.as_slice()[row as usize].number
    }

    /// The static rank of the item in a row.
    pub fn rank(&self, row: u32) -> i64
        requires { row < length self.now.rows }
        ensures { result ≡ (row_at self.now row).rank }
    {
        self.parts.rows.as_slice()[row as usize].rank
    }

    /// How many properties there are.
    pub fn properties(&self) -> u32
        ensures { result ≡ length self.now.shapes }
    {
        self.parts.shapes.len() as u32
    }

    /// What the values of a property are, and `None` where there is no such property.
    pub fn kind(&self, property: u32) -> Option<Kind>
        ensures { result ≡ kind_in (slice_get self.now.shapes property) }
    {
        let shape = self.parts.shapes.as_slice().get(property as usize)?;
        Some(shape.kind)
    }

    /// Whether a query without a property looks at this one.
    pub fn is_searchable(&self, property: u32) -> bool
        ensures { result ≡ is_searchable_in (slice_get self.now.shapes property) }
    {
        match self.parts.shapes.as_slice().get(property as usize) {
            Some(shape) => shape.searchable,
            None => false,
        }
    }

    /// How many lists of postings there are.
    pub fn lists(&self) -> u32
        ensures { result ≡ length self.now.lists }
    {
        self.parts.terms.len() as u32
    }

    /// How many postings a list has. No step is counted.
    pub fn list_len(&self, list: u32) -> u64
        requires { list < length self.now.lists }
        ensures { result ≡ length (list_at self.now list).postings }
    {
        let term = &self.parts.terms.as_slice()[list as usize];
        self.parts.lists.count(term.list as usize)
    }

    /// The lists of a property whose token equals the given one, or begins with it where `prefixed`.
    pub fn rows(&self, property: u32, token: &str, prefixed: bool) -> Range<u32>
        ensures { AreListsOf self.now property token.now prefixed result.start result.end }
    {
        let (start, end) = search::terms_of(self.parts.terms.as_slice(), property, token, prefixed);
        start as u32..end as u32
    }

    /// A cursor over a list, as spans of one token. It counts one step where the list has a posting.
    pub fn cursor<'a, L: Ledger>(&'a self, list: u32, steps: &mut Steps<L>) -> PostCursor<'a>
        requires { list < length self.now.lists }
        ensures left { ⟦<PostCursor<'a> as SpanCursor>⟧.left result ≡ spans_of_list (list_at self.now list) }
        ensures parts { list_all (is_of_property (list_at self.now list).property) (spans_of_list (list_at self.now list)) ≡ true }
        ensures rest { ⟦<PostCursor<'a> as SpanCursor>⟧.rest result ≡ entries_behind (spans_of_list (list_at self.now list)) }
        ensures counted { steps.new ≡ steps.old + first_count (spans_of_list (list_at self.now list)) }
        ensures cost { steps.new + ⟦<PostCursor<'a> as SpanCursor>⟧.rest result ≡ steps.old + length (list_at self.now list).postings }
    {
        let term = &self.parts.terms.as_slice()[list as usize];
        let reader = Reader::new(&self.parts.lists, term.list as usize, steps);
        PostCursor::new(reader, term.property)
    }

    /// A word of the code of a list, `None` exactly past its end. It counts one step.
    pub fn list_word<L: Ledger>(&self, list: u32, at: u32, steps: &mut Steps<L>) -> Option<u32>
        requires { list < length self.now.lists }
        ensures value { result ≡ slice_get (coded (list_at self.now list).postings) at }
        ensures counted { steps.new ≡ steps.old + 1 }
    {
        let term = &self.parts.terms.as_slice()[list as usize];
        self.parts.lists.word(term.list as usize, at, steps)
    }

    /// A cursor over the numbers of a property, each with its row, by row and then by number: a moment
    /// in seconds, 1 for yes and 0 for no. It counts one step where there is one.
    pub fn values<L: Ledger>(&self, property: u32, steps: &mut Steps<L>) -> ValueCursor<'_>
        ensures left { result ≡ values_in self.now property }
        ensures counted { steps.new ≡ steps.old + first_count result }
        ensures cost { steps.new + entries_behind result ≡ steps.old + length result }
    {
        let pairs: &[(u32, i64)] = match self.parts.values.as_slice().get(property as usize) {
            Some(pairs) => pairs.as_slice(),
            None => &[],
        };
        ValueCursor::new(pairs, steps)
    }

    /// A cursor over the rows whose list of claims that admit has a claim, or whose list of claims that
    /// deny where `denied`. It counts one step where there is a row.
    pub fn claims<'a, L: Ledger>(
        &'a self,
        claim: &str,
        denied: bool,
        steps: &mut Steps<L>,
    ) -> ListCursor<'a>
        ensures left { ⟦<ListCursor<'a> as ItemCursor>⟧.left result ≡ rows_with claim.now (claims_in self.now denied) }
        ensures rest { ⟦<ListCursor<'a> as ItemCursor>⟧.rest result ≡ entries_behind (rows_with claim.now (claims_in self.now denied)) }
        ensures counted { steps.new ≡ steps.old + first_count (rows_with claim.now (claims_in self.now denied)) }
        ensures cost { steps.new + ⟦<ListCursor<'a> as ItemCursor>⟧.rest result ≡ steps.old + length (rows_with claim.now (claims_in self.now denied)) }
    {
        let lists: &[Claim] = if denied {
            self.parts.deny.as_slice()
        } else {
            self.parts.allow.as_slice()
        };
        ListCursor::new(search::rows_of(lists, claim), steps)
    }

    /// How many tokens the passage of a row and a part has, and 0 where there is no such passage. A part
    /// is 1,000 times the property, and the place among its values. It counts one step.
    pub fn passage_length<L: Ledger>(&self, passage: (u32, u32), steps: &mut Steps<L>) -> u32
        ensures value { result ≡ length_of self.now passage.0 passage.1 }
        ensures counted { steps.new ≡ steps.old + 1 }
    {
        steps.tick();
        let property = (passage.1 / MOST_VALUES) as usize;
        match self.parts.lengths.as_slice().get(property) {
            Some(lengths) => {
                search::tokens_of(lengths.as_slice(), passage.0, passage.1 % MOST_VALUES)
            }
            None => 0,
        }
    }
}
