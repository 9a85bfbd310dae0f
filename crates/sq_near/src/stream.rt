ghost use Rattle.std.specs.Prelude.{◌≡◌, ℕ, ◌+◌, ◌-◌, ◌≤◌, ◌<◌, List, Option, None, map, filter, sum_by, length, option_map, IfOk, OnOk, OnErr};
ghost use Rattle.sq_cursor.specs.Spans.{spans_from};
ghost use Rattle.sq_near.specs.Moves.{furthest_from, hull_from, first_of, behind_end, strung, settled, Keeps, LeadsNext, is_after, soonest_from};
ghost use Rattle.sq_near.specs.Streams.{cover_span};

use crate::cover::Cover;
use crate::heads::{
    first_of_both, fit, follows, gives, is_before, later, passage_of, span_of, stands, with_part,
};
use sq_base::Steps;
use sq_cursor::SpanCursor;
use std::alloc::{AllocError, Global};
use std::collections::VecDeque;
use std::sync::ledger::Ledger;

/// A leaf, or streams that are joined or merged, to any depth.
#[cycle(stream)]
#[derive(Drop)]
pub enum Stream<C> {
    Leaf(C),
    Joined(Joined<C>),
    Merged(Merged<C>),
}

/// The least covers of one span of each part, at most `width` tokens long.
#[cycle(stream)]
#[derive(Drop)]
pub struct Joined<C> {
    parts: Vec<Stream<C>>,
    width: u32,
    ordered: bool,
    found: Option<Cover>,
}

/// The least spans of all parts.
#[cycle(stream)]
#[derive(Drop)]
pub struct Merged<C> {
    parts: Vec<Stream<C>>,
    found: Option<Cover>,
}

impl<C: SpanCursor> Stream<C> {
    ghost use Rattle.sq_near.specs.Streams.{stream_left, stream_rest, stream_depth, spans_beyond, found_left};
    ghost use Rattle.sq_near.specs.Covers.{joined_spans, merged_spans};

    /// The first of the first spans.
    fn soonest(parts: &Vec<Stream<C>>) -> Option<Cover>
        ensures { option_map cover_span result ≡ soonest_from None (map (stream_left C.left) parts.now.items) }
    {
        let mut first = None;
        for part in parts {
            first = first_of_both(first, part.cover());
        }
        first
    }

    /// Finds the first least span that comes after `after`, and moves the parts behind its beginning.
    #[cycle(seek)]
    fn merge<L: Ledger>(
        parts: &mut Vec<Stream<C>>,
        after: Option<Cover>,
        steps: &mut Steps<L>,
    ) -> Option<Cover>
        ensures left { found_left result (merged_spans (map (stream_left C.left) parts.new.items)) ≡ filter (is_after after) (merged_spans (map (stream_left C.left) parts.old.items)) }
        ensures cost { steps.new + sum_by (stream_rest C.rest) parts.new.items ≤ steps.old + sum_by (stream_rest C.rest) parts.old.items }
        ensures depth { map stream_depth parts.new.items ≡ map stream_depth parts.old.items }
    {
        let mut next = Stream::soonest(parts);
        while let Some(cover) = next {
            fit(cover.row, cover.part, cover.first);
            Stream::pass_all(parts, (cover.row, cover.part), cover.first, steps);
            if follows(after, cover) {
                return Some(cover);
            }
            next = Stream::soonest(parts);
        }
        None
    }

    /// The first span.
    fn cover(&self) -> Option<Cover>
        ensures { option_map cover_span result ≡ first_of (stream_left C.left self.now) }
    {
        if let Some((row, part)) = self.passage() {
            if let Some((first, last)) = self.span() {
                if first <= last {
                    return Some(Cover {
                        row,
                        part,
                        first,
                        last,
                    });
                }
            }
        }
        None
    }

    /// Moves behind a place of a passage.
    #[cycle(seek)]
    fn pass<L: Ledger>(&mut self, passage: (u32, u32), place: u32, steps: &mut Steps<L>)
        ensures left { stream_left C.left self.new ≡ spans_beyond (passage.0, passage.1) place (stream_left C.left self.old) }
        ensures cost { steps.new + stream_rest C.rest self.new ≤ steps.old + stream_rest C.rest self.old }
        ensures depth { stream_depth self.new ≡ stream_depth self.old }
    {
        self.seek_passage(passage, steps);
        while let Some((first, _)) = self.span() {
            if !stands(self.passage(), passage) || place < first {
                return;
            }
            self.step_span(steps);
        }
    }

    /// The last of the passages at which the parts stand, and `None` where one is at its end.
    fn furthest(parts: &Vec<Stream<C>>) -> Option<(u32, u32)>
        ensures { result ≡ furthest_from None (map (stream_left C.left) parts.now.items) }
    {
        let mut last = None;
        for part in parts {
            let here = part.passage()?;
            last = Some(later(last, here));
        }
        last
    }

    /// The cover of the first spans, and `None` where a part is at its end.
    fn heads_cover(parts: &Vec<Stream<C>>) -> Option<Cover>
        ensures { option_map cover_span result ≡ hull_from None (map (stream_left C.left) parts.now.items) }
    {
        let mut cover = None;
        for part in parts {
            let first = part.cover()?;
            cover = Some(with_part(cover, first));
        }
        cover
    }

    /// Seeks all parts to a passage.
    #[cycle(seek)]
    fn gather<L: Ledger>(parts: &mut Vec<Stream<C>>, passage: (u32, u32), steps: &mut Steps<L>)
        ensures left { map (stream_left C.left) parts.new.items ≡ map (spans_from (passage.0, passage.1)) (map (stream_left C.left) parts.old.items) }
        ensures cost { steps.new + sum_by (stream_rest C.rest) parts.new.items ≤ steps.old + sum_by (stream_rest C.rest) parts.old.items }
        ensures depth { map stream_depth parts.new.items ≡ map stream_depth parts.old.items }
    {
        for i in 0..parts.len() {
            parts[i].seek_passage(passage, steps);
        }
    }

    /// Moves all parts behind a place of a passage.
    #[cycle(seek)]
    fn pass_all<L: Ledger>(
        parts: &mut Vec<Stream<C>>,
        passage: (u32, u32),
        place: u32,
        steps: &mut Steps<L>,
    )
        ensures left { map (stream_left C.left) parts.new.items ≡ map (spans_beyond (passage.0, passage.1) place) (map (stream_left C.left) parts.old.items) }
        ensures cost { steps.new + sum_by (stream_rest C.rest) parts.new.items ≤ steps.old + sum_by (stream_rest C.rest) parts.old.items }
        ensures depth { map stream_depth parts.new.items ≡ map stream_depth parts.old.items }
    {
        for i in 0..parts.len() {
            parts[i].pass(passage, place, steps);
        }
    }

    /// Moves a part behind the end of the first span of another.
    #[cycle(seek)]
    fn pass_end<L: Ledger>(
        &mut self,
        end: Option<(u32, u32)>,
        passage: (u32, u32),
        steps: &mut Steps<L>,
    )
        ensures left { stream_left C.left self.new ≡ behind_end (passage.0, passage.1) end (stream_left C.left self.old) }
        ensures cost { steps.new + stream_rest C.rest self.new ≤ steps.old + stream_rest C.rest self.old }
        ensures depth { stream_depth self.new ≡ stream_depth self.old }
    {
        if let Some((_, last)) = end {
            self.pass(passage, last, steps);
        }
    }

    /// Moves each part behind the end of the one before.
    #[cycle(seek)]
    fn string<L: Ledger>(parts: &mut Vec<Stream<C>>, passage: (u32, u32), steps: &mut Steps<L>)
        ensures left { map (stream_left C.left) parts.new.items ≡ strung (passage.0, passage.1) (length parts.old.items - 1) (map (stream_left C.left) parts.old.items) }
        ensures cost { steps.new + sum_by (stream_rest C.rest) parts.new.items ≤ steps.old + sum_by (stream_rest C.rest) parts.old.items }
        ensures depth { map stream_depth parts.new.items ≡ map stream_depth parts.old.items }
    {
        for i in 1..parts.len() {
            let end = parts[i - 1].span();
            parts[i].pass_end(end, passage, steps);
        }
    }

    /// Moves the parts to a passage, and there, where ordered, one behind the other.
    #[cycle(seek)]
    fn settle<L: Ledger>(
        parts: &mut Vec<Stream<C>>,
        ordered: bool,
        passage: (u32, u32),
        steps: &mut Steps<L>,
    )
        ensures left { map (stream_left C.left) parts.new.items ≡ settled ordered (passage.0, passage.1) (map (stream_left C.left) parts.old.items) }
        ensures cost { steps.new + sum_by (stream_rest C.rest) parts.new.items ≤ steps.old + sum_by (stream_rest C.rest) parts.old.items }
        ensures depth { map stream_depth parts.new.items ≡ map stream_depth parts.old.items }
    {
        Stream::gather(parts, passage, steps);
        if ordered {
            Stream::string(parts, passage, steps);
        }
    }

    /// Moves the parts on to the first passage that all have, and there, where ordered, one behind the other.
    #[cycle(seek)]
    fn align<L: Ledger>(
        parts: &mut Vec<Stream<C>>,
        ordered: bool,
        steps: &mut Steps<L>,
    ) -> Option<Cover>
        ensures keeps { (width : ℕ) → Keeps width ordered (map (stream_left C.left) parts.new.items) (map (stream_left C.left) parts.old.items) }
        ensures leads { (width : ℕ) → LeadsNext width ordered (map (stream_left C.left) parts.new.items) (option_map cover_span result) }
        ensures cost { steps.new + sum_by (stream_rest C.rest) parts.new.items ≤ steps.old + sum_by (stream_rest C.rest) parts.old.items }
        ensures depth { map stream_depth parts.new.items ≡ map stream_depth parts.old.items }
    {
        let mut next = Stream::furthest(parts);
        while let Some(passage) = next {
            fit(passage.0, passage.1, 0);
            Stream::settle(parts, ordered, passage, steps);
            next = Stream::furthest(parts);
            if stands(next, passage) {
                return Stream::heads_cover(parts);
            }
        }
        None
    }

    /// Finds the first least cover that comes after `after`, and moves the parts behind its beginning.
    #[cycle(seek)]
    fn find<L: Ledger>(
        parts: &mut Vec<Stream<C>>,
        width: u32,
        ordered: bool,
        after: Option<Cover>,
        steps: &mut Steps<L>,
    ) -> Option<Cover>
        ensures left { found_left result (joined_spans width ordered (map (stream_left C.left) parts.new.items)) ≡ filter (is_after after) (joined_spans width ordered (map (stream_left C.left) parts.old.items)) }
        ensures cost { steps.new + sum_by (stream_rest C.rest) parts.new.items ≤ steps.old + sum_by (stream_rest C.rest) parts.old.items }
        ensures depth { map stream_depth parts.new.items ≡ map stream_depth parts.old.items }
    {
        let mut next = Stream::align(parts, ordered, steps);
        while let Some(cover) = next {
            fit(cover.row, cover.part, cover.first);
            Stream::pass_all(parts, (cover.row, cover.part), cover.first, steps);
            next = Stream::align(parts, ordered, steps);
            if gives(width, after, next, cover) {
                return Some(cover);
            }
        }
        None
    }
}

impl<C: SpanCursor> SpanCursor for Stream<C> {
    ghost use Rattle.sq_cursor.specs.Spans.{without_first_span, HasSpan};
    ghost use Rattle.sq_near.specs.Streams.{stream_left, stream_rest, stream_depth, stream_ordered};

    ghost left = { stream_left C.left };

    ghost rest = { stream_rest C.rest };

    ghost ordered = { stream_ordered C.left C.ordered };

    fn passage(&self) -> Option<(u32, u32)> {
        match self {
            Stream::Leaf(c) => c.passage(),
            Stream::Joined(j) => j.passage(),
            Stream::Merged(m) => m.passage(),
        }
    }

    fn span(&self) -> Option<(u32, u32)> {
        match self {
            Stream::Leaf(c) => c.span(),
            Stream::Joined(j) => j.span(),
            Stream::Merged(m) => m.span(),
        }
    }

    #[cycle(seek)]
    fn step_span<L: Ledger>(&mut self, steps: &mut Steps<L>)
        requires { HasSpan (stream_left C.left self.old) }
        ensures left { stream_left C.left self.new ≡ without_first_span (stream_left C.left self.old) }
        ensures cost { steps.new + stream_rest C.rest self.new ≤ steps.old + stream_rest C.rest self.old }
        ensures depth { stream_depth self.new ≡ stream_depth self.old }
    {
        match self {
            Stream::Leaf(c) => c.step_span(steps),
            Stream::Joined(j) => j.step_span(steps),
            Stream::Merged(m) => m.step_span(steps),
        }
    }

    #[cycle(seek)]
    fn seek_passage<L: Ledger>(&mut self, passage: (u32, u32), steps: &mut Steps<L>)
        ensures left { stream_left C.left self.new ≡ spans_from (passage.0, passage.1) (stream_left C.left self.old) }
        ensures cost { steps.new + stream_rest C.rest self.new ≤ steps.old + stream_rest C.rest self.old }
        ensures depth { stream_depth self.new ≡ stream_depth self.old }
    {
        match self {
            Stream::Leaf(c) => c.seek_passage(passage, steps),
            Stream::Joined(j) => j.seek_passage(passage, steps),
            Stream::Merged(m) => m.seek_passage(passage, steps),
        }
    }
}

impl<C: SpanCursor> Merged<C> {
    ghost use Rattle.sq_near.specs.Streams.{stream_left, stream_rest, merged_left, merged_rest};
    ghost use Rattle.sq_near.specs.Covers.{merged_spans};

    /// The merge of all parts at once.
    fn over<L: Ledger>(mut parts: Vec<Stream<C>>, steps: &mut Steps<L>) -> Merged<C>
        ensures left { merged_left C.left result ≡ merged_spans (map (stream_left C.left) parts.items) }
        ensures cost { steps.new + merged_rest C.rest result ≤ steps.old + sum_by (stream_rest C.rest) parts.items }
    {
        let found = Stream::merge(&mut parts, None, steps);
        Merged { parts, found }
    }
}

impl<C: SpanCursor + Drop> Merged<C> {
    ghost use Rattle.sq_near.specs.Streams.{stream_left, stream_rest, merged_left, merged_rest};
    ghost use Rattle.sq_near.specs.Covers.{merged_spans};

    /// Takes the first two streams of a queue, and puts their merge last.
    fn pair<L: Ledger>(
        alloc: Global,
        streams: &mut VecDeque<Stream<C>>,
        steps: &mut Steps<L>,
    ) -> Result<(), AllocError>
        requires { 2 ≤ length streams.old.items }
        ensures left { OnOk result (merged_spans (map (stream_left C.left) streams.new.items) ≡ merged_spans (map (stream_left C.left) streams.old.items)) }
        ensures shorter { OnOk result (length streams.new.items < length streams.old.items) }
        ensures cost { OnOk result (steps.new + sum_by (stream_rest C.rest) streams.new.items ≤ steps.old + sum_by (stream_rest C.rest) streams.old.items) }
        ensures cost_err { OnErr result (steps.new ≤ steps.old + sum_by (stream_rest C.rest) streams.old.items) }
    {
        let Some(first) = streams.pop_front() else {
            unreachable!()
        };
        let Some(second) = streams.pop_front() else {
            unreachable!()
        };
        let mut parts = Vec::new(alloc);
        parts.push(first)?;
        parts.push(second)?;
        let both = Merged::over(parts, steps);
        streams.push_back(Stream::Merged(both))?;
        Ok(())
    }

    /// The least spans of all parts, as a stream. With no part nothing is left.
    ///
    /// Parts are merged two by two, and their merges again, until two or one are left: so a span
    /// passes as many merges as the logarithm of the number of parts. After a refusal the parts are
    /// dropped, and what was counted is at most their rests.
    pub fn new<L: Ledger>(
        alloc: Global,
        parts: Vec<Stream<C>>,
        steps: &mut Steps<L>,
    ) -> Result<Merged<C>, AllocError>
        ensures left { IfOk result (λ merged. merged_left C.left merged ≡ merged_spans (map (stream_left C.left) parts.items)) }
        ensures cost { IfOk result (λ merged. steps.new + merged_rest C.rest merged ≤ steps.old + sum_by (stream_rest C.rest) parts.items) }
        ensures cost_err { OnErr result (steps.new ≤ steps.old + sum_by (stream_rest C.rest) parts.items) }
    {
        let mut streams = VecDeque::from_vec(parts);
        while streams.len() > 2 {
            Merged::pair(alloc, &mut streams, steps)?;
        }
        Ok(Merged::over(streams.into_vec(), steps))
    }
}

impl<C: SpanCursor> Joined<C> {
    ghost use Rattle.sq_near.specs.Streams.{stream_left, stream_rest, joined_left, joined_rest};
    ghost use Rattle.sq_near.specs.Covers.{joined_spans};

    /// The least covers of one span of each part, as a stream: in one passage, from the first token
    /// of the span that begins first to the last of the one that ends last, at most `width` tokens.
    /// Where `ordered`, the span of each part ends before that of the next begins. With no part
    /// nothing is left.
    ///
    /// It takes no memory of its own, and is not refused for now.
    pub fn new<L: Ledger>(
        _alloc: Global,
        mut parts: Vec<Stream<C>>,
        width: u32,
        ordered: bool,
        steps: &mut Steps<L>,
    ) -> Result<Joined<C>, AllocError>
        ensures left { IfOk result (λ joined. joined_left C.left joined ≡ joined_spans width ordered (map (stream_left C.left) parts.items)) }
        ensures cost { IfOk result (λ joined. steps.new + joined_rest C.rest joined ≤ steps.old + sum_by (stream_rest C.rest) parts.items) }
        ensures cost_err { OnErr result (steps.new ≤ steps.old + sum_by (stream_rest C.rest) parts.items) }
    {
        let found = Stream::find(&mut parts, width, ordered, None, steps);
        Ok(Joined {
            parts,
            width,
            ordered,
            found,
        })
    }
}

impl<C: SpanCursor> SpanCursor for Merged<C> {
    ghost use Rattle.sq_cursor.specs.Spans.{without_first_span, HasSpan};
    ghost use Rattle.sq_near.specs.Streams.{merged_left, merged_rest, merged_depth, merged_ordered};

    ghost left = { merged_left C.left };

    ghost rest = { merged_rest C.rest };

    ghost ordered = { merged_ordered C.left };

    fn passage(&self) -> Option<(u32, u32)> {
        passage_of(self.found)
    }

    fn span(&self) -> Option<(u32, u32)> {
        span_of(self.found)
    }

    #[cycle(seek)]
    fn step_span<L: Ledger>(&mut self, steps: &mut Steps<L>)
        requires { HasSpan (merged_left C.left self.old) }
        ensures left { merged_left C.left self.new ≡ without_first_span (merged_left C.left self.old) }
        ensures cost { steps.new + merged_rest C.rest self.new ≤ steps.old + merged_rest C.rest self.old }
        ensures depth { merged_depth self.new ≡ merged_depth self.old }
    {
        self.found = Stream::merge(&mut self.parts, self.found, steps);
    }

    #[cycle(seek)]
    fn seek_passage<L: Ledger>(&mut self, passage: (u32, u32), steps: &mut Steps<L>)
        ensures left { merged_left C.left self.new ≡ spans_from (passage.0, passage.1) (merged_left C.left self.old) }
        ensures cost { steps.new + merged_rest C.rest self.new ≤ steps.old + merged_rest C.rest self.old }
        ensures depth { merged_depth self.new ≡ merged_depth self.old }
    {
        if let Some(cover) = self.found {
            if is_before((cover.row, cover.part), passage) {
                Stream::gather(&mut self.parts, passage, steps);
                self.found = Stream::merge(&mut self.parts, self.found, steps);
            }
        }
    }
}

impl<C: SpanCursor> SpanCursor for Joined<C> {
    ghost use Rattle.sq_cursor.specs.Spans.{without_first_span, HasSpan};
    ghost use Rattle.sq_near.specs.Streams.{joined_left, joined_rest, joined_depth, joined_ordered};

    ghost left = { joined_left C.left };

    ghost rest = { joined_rest C.rest };

    ghost ordered = { joined_ordered C.left };

    fn passage(&self) -> Option<(u32, u32)> {
        passage_of(self.found)
    }

    fn span(&self) -> Option<(u32, u32)> {
        span_of(self.found)
    }

    #[cycle(seek)]
    fn step_span<L: Ledger>(&mut self, steps: &mut Steps<L>)
        requires { HasSpan (joined_left C.left self.old) }
        ensures left { joined_left C.left self.new ≡ without_first_span (joined_left C.left self.old) }
        ensures cost { steps.new + joined_rest C.rest self.new ≤ steps.old + joined_rest C.rest self.old }
        ensures depth { joined_depth self.new ≡ joined_depth self.old }
    {
        self.found = Stream::find(&mut self.parts, self.width, self.ordered, self.found, steps);
    }

    #[cycle(seek)]
    fn seek_passage<L: Ledger>(&mut self, passage: (u32, u32), steps: &mut Steps<L>)
        ensures left { joined_left C.left self.new ≡ spans_from (passage.0, passage.1) (joined_left C.left self.old) }
        ensures cost { steps.new + joined_rest C.rest self.new ≤ steps.old + joined_rest C.rest self.old }
        ensures depth { joined_depth self.new ≡ joined_depth self.old }
    {
        if let Some(cover) = self.found {
            if is_before((cover.row, cover.part), passage) {
                Stream::gather(&mut self.parts, passage, steps);
                self.found = Stream::find(
                    &mut self.parts,
                    self.width,
                    self.ordered,
                    self.found,
                    steps,
                );
            }
        }
    }
}
