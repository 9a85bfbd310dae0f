ghost use Rattle.std.specs.Prelude.{◌≡◌, ◌==◌, ◌&&◌, ◌+◌, ◌<◌, ◌≤◌, ◌++◌, true, length, flat_map, map, sum_by, IfOk, OnOk, MatchResult};
ghost use Rattle.sq_near.specs.Covers.{joined_spans};
ghost use Rattle.sq_near.specs.Streams.{stream_left, stream_rest};
ghost use Rattle.sq_postings.specs.Indexed.{list_at, spans_of_list};
ghost use Rattle.sq_postings.specs.Laws.{list_length, lists_between};
ghost use Rattle.sq_streams.specs.Pattern.{ArePlaces, IsWithinCount};
ghost use Rattle.sq_streams.specs.PatternSpans.{lists_of, lists_looked, searched_at, token_spans, texts_spans, in_a_row, phrase_spans, property_count, properties_count, token_count, texts_count, IsWithin};

use crate::merge::merge_of;
use sq_base::Steps;
use sq_cursor::SpanCursor;
use sq_model::Look;
use sq_near::{Joined, Stream, joined_are_least};
use sq_postings::{Index, PostCursor};
use sq_tokens::Pattern;
use std::alloc::{AllocError, Global};
use std::sync::ledger::Ledger;

/// A leaf over a list.
fn leaf<'a, L: Ledger>(index: &'a Index, list: u32, steps: &mut Steps<L>) -> Stream<PostCursor<'a>>
    requires { list < length index.now.lists }
    ensures left { stream_left ⟦<PostCursor<'a> as SpanCursor>⟧.left result ≡ spans_of_list (list_at index.now list) }
    ensures cost { steps.new + stream_rest ⟦<PostCursor<'a> as SpanCursor>⟧.rest result ≡ steps.old + list_length (list_at index.now list) }
{
    Stream::Leaf(index.cursor(list, steps))
}

/// Adds a leaf for each list from `start` to before `end`.
fn add_between<'a, L: Ledger>(
    index: &'a Index,
    start: u32,
    end: u32,
    leaves: &mut Vec<Stream<PostCursor<'a>>>,
    steps: &mut Steps<L>,
) -> Result<(), AllocError>
    requires { end ≤ length index.now.lists }
    ensures left { OnOk result (map (stream_left ⟦<PostCursor<'a> as SpanCursor>⟧.left) leaves.new.items ≡ map (stream_left ⟦<PostCursor<'a> as SpanCursor>⟧.left) leaves.old.items ++ map spans_of_list (lists_between index.now start end)) }
    ensures cost { MatchResult result
        (λ _. steps.new + sum_by (stream_rest ⟦<PostCursor<'a> as SpanCursor>⟧.rest) leaves.new.items ≤ steps.old + sum_by (stream_rest ⟦<PostCursor<'a> as SpanCursor>⟧.rest) leaves.old.items + sum_by list_length (lists_between index.now start end))
        (λ _. steps.new ≤ steps.old + sum_by (stream_rest ⟦<PostCursor<'a> as SpanCursor>⟧.rest) leaves.old.items + sum_by list_length (lists_between index.now start end)) }
{
    for list in start..end {
        let leaf = leaf(index, list, steps);
        leaves.push(leaf)?;
    }
    Ok(())
}

/// Adds a leaf for each list of a property whose token is asked for.
fn add_leaves<'a, L: Ledger>(
    index: &'a Index,
    property: u32,
    token: &str,
    prefixed: bool,
    leaves: &mut Vec<Stream<PostCursor<'a>>>,
    steps: &mut Steps<L>,
) -> Result<(), AllocError>
    ensures left { OnOk result (map (stream_left ⟦<PostCursor<'a> as SpanCursor>⟧.left) leaves.new.items
        ≡ map (stream_left ⟦<PostCursor<'a> as SpanCursor>⟧.left) leaves.old.items ++ map spans_of_list (lists_of index.now token.now prefixed property)) }
    ensures cost { MatchResult result
        (λ _. IsWithin index.now (property_count token.now prefixed property) (steps.old + sum_by (stream_rest ⟦<PostCursor<'a> as SpanCursor>⟧.rest) leaves.old.items) (steps.new + sum_by (stream_rest ⟦<PostCursor<'a> as SpanCursor>⟧.rest) leaves.new.items))
        (λ _. IsWithin index.now (property_count token.now prefixed property) (steps.old + sum_by (stream_rest ⟦<PostCursor<'a> as SpanCursor>⟧.rest) leaves.old.items) steps.new) }
{
    index.tells();
    let lists = index.rows(property, token, prefixed);
    add_between(index, lists.start, lists.end, leaves, steps)
}

/// Adds those of a property where it is searchable, and else none.
fn add_searchable<'a, L: Ledger>(
    index: &'a Index,
    property: u32,
    token: &str,
    prefixed: bool,
    leaves: &mut Vec<Stream<PostCursor<'a>>>,
    steps: &mut Steps<L>,
) -> Result<(), AllocError>
    ensures left { OnOk result (map (stream_left ⟦<PostCursor<'a> as SpanCursor>⟧.left) leaves.new.items
        ≡ map (stream_left ⟦<PostCursor<'a> as SpanCursor>⟧.left) leaves.old.items ++ map spans_of_list (flat_map (lists_of index.now token.now prefixed) (searched_at index.now property))) }
    ensures cost { MatchResult result
        (λ _. IsWithin index.now (properties_count token.now prefixed (searched_at index.now property)) (steps.old + sum_by (stream_rest ⟦<PostCursor<'a> as SpanCursor>⟧.rest) leaves.old.items) (steps.new + sum_by (stream_rest ⟦<PostCursor<'a> as SpanCursor>⟧.rest) leaves.new.items))
        (λ _. IsWithin index.now (properties_count token.now prefixed (searched_at index.now property)) (steps.old + sum_by (stream_rest ⟦<PostCursor<'a> as SpanCursor>⟧.rest) leaves.old.items) steps.new) }
{
    if !index.is_searchable(property) {
        return Ok(());
    }
    add_leaves(index, property, token, prefixed, leaves, steps)
}

/// A leaf for each list of the searchable properties whose token is asked for.
fn searchable_leaves<'a, L: Ledger>(
    alloc: Global,
    index: &'a Index,
    token: &str,
    prefixed: bool,
    steps: &mut Steps<L>,
) -> Result<Vec<Stream<PostCursor<'a>>>, AllocError>
    ensures left { IfOk result (λ leaves. map (stream_left ⟦<PostCursor<'a> as SpanCursor>⟧.left) leaves.items ≡ map spans_of_list (lists_looked index.now Look.Searchable token.now prefixed)) }
    ensures cost { MatchResult result
        (λ leaves. IsWithin index.now (token_count Look.Searchable token.now prefixed) steps.old (steps.new + sum_by (stream_rest ⟦<PostCursor<'a> as SpanCursor>⟧.rest) leaves.items))
        (λ _. IsWithin index.now (token_count Look.Searchable token.now prefixed) steps.old steps.new) }
{
    let mut leaves = Vec::new(alloc);
    for property in 0..index.properties() {
        add_searchable(index, property, token, prefixed, &mut leaves, steps)?;
    }
    Ok(leaves)
}

/// A leaf for each list of one property whose token is asked for.
fn property_leaves<'a, L: Ledger>(
    alloc: Global,
    index: &'a Index,
    property: u32,
    token: &str,
    prefixed: bool,
    steps: &mut Steps<L>,
) -> Result<Vec<Stream<PostCursor<'a>>>, AllocError>
    ensures left { IfOk result (λ leaves. map (stream_left ⟦<PostCursor<'a> as SpanCursor>⟧.left) leaves.items ≡ map spans_of_list (lists_looked index.now (Look.One property) token.now prefixed)) }
    ensures cost { MatchResult result
        (λ leaves. IsWithin index.now (token_count (Look.One property) token.now prefixed) steps.old (steps.new + sum_by (stream_rest ⟦<PostCursor<'a> as SpanCursor>⟧.rest) leaves.items))
        (λ _. IsWithin index.now (token_count (Look.One property) token.now prefixed) steps.old steps.new) }
{
    let mut leaves = Vec::new(alloc);
    add_leaves(index, property, token, prefixed, &mut leaves, steps)?;
    Ok(leaves)
}

/// A leaf for each list of the properties looked at whose token is asked for.
fn leaves_looked<'a, L: Ledger>(
    alloc: Global,
    index: &'a Index,
    look: Look,
    token: &str,
    prefixed: bool,
    steps: &mut Steps<L>,
) -> Result<Vec<Stream<PostCursor<'a>>>, AllocError>
    ensures left { IfOk result (λ leaves. map (stream_left ⟦<PostCursor<'a> as SpanCursor>⟧.left) leaves.items ≡ map spans_of_list (lists_looked index.now look token.now prefixed)) }
    ensures cost { MatchResult result
        (λ leaves. IsWithin index.now (token_count look token.now prefixed) steps.old (steps.new + sum_by (stream_rest ⟦<PostCursor<'a> as SpanCursor>⟧.rest) leaves.items))
        (λ _. IsWithin index.now (token_count look token.now prefixed) steps.old steps.new) }
{
    match look {
        Look::Searchable => searchable_leaves(alloc, index, token, prefixed, steps),
        Look::One(property) => property_leaves(alloc, index, property, token, prefixed, steps),
    }
}

/// The places of one token.
fn token_stream<'a, L: Ledger>(
    alloc: Global,
    index: &'a Index,
    look: Look,
    token: &str,
    prefixed: bool,
    steps: &mut Steps<L>,
) -> Result<Stream<PostCursor<'a>>, AllocError>
    ensures left { IfOk result (λ stream. stream_left ⟦<PostCursor<'a> as SpanCursor>⟧.left stream ≡ token_spans index.now look token.now prefixed) }
    ensures cost { MatchResult result
        (λ stream. IsWithin index.now (token_count look token.now prefixed) steps.old (steps.new + stream_rest ⟦<PostCursor<'a> as SpanCursor>⟧.rest stream))
        (λ _. IsWithin index.now (token_count look token.now prefixed) steps.old steps.new) }
{
    let leaves = leaves_looked(alloc, index, look, token, prefixed, steps)?;
    merge_of(alloc, leaves, steps)
}

/// Whether a token of a literal may be only the beginning of a token: where the literal's last may, and it is the last.
fn is_prefixed_at(pattern: &Pattern, i: usize) -> bool
    requires { i < length pattern.now.texts }
    ensures { result ≡ (pattern.now.prefixed && (i + 1 == length pattern.now.texts)) }
{
    let count = pattern.len();
    pattern.prefixed() && i + 1 == count
}

/// The places of each token of a literal.
fn token_streams<'a, L: Ledger>(
    alloc: Global,
    index: &'a Index,
    look: Look,
    pattern: &Pattern,
    steps: &mut Steps<L>,
) -> Result<Vec<Stream<PostCursor<'a>>>, AllocError>
    ensures left { IfOk result (λ streams. map (stream_left ⟦<PostCursor<'a> as SpanCursor>⟧.left) streams.items ≡ texts_spans index.now look pattern.now.prefixed pattern.now.texts) }
    ensures cost { MatchResult result
        (λ streams. IsWithin index.now (texts_count look pattern.now.prefixed pattern.now.texts) steps.old (steps.new + sum_by (stream_rest ⟦<PostCursor<'a> as SpanCursor>⟧.rest) streams.items))
        (λ _. IsWithin index.now (texts_count look pattern.now.prefixed pattern.now.texts) steps.old steps.new) }
{
    let mut streams = Vec::new(alloc);
    for i in 0..pattern.len() {
        let prefixed = is_prefixed_at(pattern, i);
        let stream = token_stream(alloc, index, look, pattern.token(i), prefixed, steps)?;
        streams.push(stream)?;
    }
    Ok(streams)
}

/// The spans of all parts that stand in a row.
fn join_all<C: SpanCursor + Drop, L: Ledger>(
    alloc: Global,
    parts: Vec<Stream<C>>,
    width: u32,
    steps: &mut Steps<L>,
) -> Result<Stream<C>, AllocError>
    ensures left { IfOk result (λ stream. stream_left C.left stream ≡ joined_spans width true (map (stream_left C.left) parts.items)) }
    ensures cost { MatchResult result
        (λ stream. steps.new + stream_rest C.rest stream ≤ steps.old + sum_by (stream_rest C.rest) parts.items)
        (λ _. steps.new ≤ steps.old + sum_by (stream_rest C.rest) parts.items) }
{
    let joined = Joined::new(alloc, parts, width, true, steps)?;
    Ok(Stream::Joined(joined))
}

/// One stream as it is, and of several their spans in a row.
fn row_of<C: SpanCursor + Drop, L: Ledger>(
    alloc: Global,
    mut parts: Vec<Stream<C>>,
    steps: &mut Steps<L>,
) -> Result<Stream<C>, AllocError>
    ensures left { IfOk result (λ stream. stream_left C.left stream ≡ in_a_row (map (stream_left C.left) parts.items)) }
    ensures cost { MatchResult result
        (λ stream. steps.new + stream_rest C.rest stream ≤ steps.old + sum_by (stream_rest C.rest) parts.items)
        (λ _. steps.new ≤ steps.old + sum_by (stream_rest C.rest) parts.items) }
{
    if parts.len() != 1 {
        let Ok(width) = u32::try_from(parts.len()) else {
            return Err(AllocError);
        };
        return join_all(alloc, parts, width, steps);
    }
    match parts.pop() {
        Some(part) => Ok(part),
        None => Err(AllocError),
    }
}

/// The places of a literal, by the index alone.
fn phrase_stream<'a, L: Ledger>(
    alloc: Global,
    index: &'a Index,
    look: Look,
    pattern: &Pattern,
    steps: &mut Steps<L>,
) -> Result<Stream<PostCursor<'a>>, AllocError>
    ensures left { IfOk result (λ stream. stream_left ⟦<PostCursor<'a> as SpanCursor>⟧.left stream ≡ phrase_spans index.now look pattern.now) }
    ensures cost { MatchResult result
        (λ stream. IsWithin index.now (texts_count look pattern.now.prefixed pattern.now.texts) steps.old (steps.new + stream_rest ⟦<PostCursor<'a> as SpanCursor>⟧.rest stream))
        (λ _. IsWithin index.now (texts_count look pattern.now.prefixed pattern.now.texts) steps.old steps.new) }
{
    let parts = token_streams(alloc, index, look, pattern, steps)?;
    row_of(alloc, parts, steps)
}

/// The stream of a literal: its places in the passages looked at, each a span as long as the literal.
///
/// Steps and rest together are at most the tokens of these passages that the literal asks for.
pub fn pattern_stream<'a, L: Ledger>(
    alloc: Global,
    index: &'a Index,
    look: Look,
    pattern: &Pattern,
    steps: &mut Steps<L>,
) -> Result<Stream<PostCursor<'a>>, AllocError>
    ensures left { IfOk result (λ stream. ArePlaces index.now look pattern.now (stream_left ⟦<PostCursor<'a> as SpanCursor>⟧.left stream)) }
    ensures cost { MatchResult result
        (λ stream. IsWithinCount index.now look pattern.now steps.old (steps.new + stream_rest ⟦<PostCursor<'a> as SpanCursor>⟧.rest stream))
        (λ _. IsWithinCount index.now look pattern.now steps.old steps.new) }
{
    // These three only tell what the proof needs: the law of joins, the lists' places, and that there is a token.
    joined_are_least();
    index.tells();
    pattern.len();
    phrase_stream(alloc, index, look, pattern, steps)
}
