//! FQL expressions over the passages that they look at.
ghost use Rattle.std.specs.Prelude.{◌≡◌, ◌+◌, not, length, sum_by, IfOk};
ghost use Rattle.std.specs.List.{list_any};
ghost use Rattle.sq_model.specs.Lists.{is_empty};
ghost use Rattle.sq_model.specs.Places.{places, fits_edge};
ghost use Rattle.sq_model.specs.Looked.{looked, looked_rows};
ghost use Rattle.sq_model.specs.Spans.{triples};
ghost use Rattle.sq_slow.specs.TextValues.{text_values, passages_in};
ghost use Rattle.sq_model.specs.Fql.{below, is_counted};

use crate::fql_spans::triples;
use crate::places::places;
use crate::restrictions::fits_edge_in;
use crate::seen::searchable;
use crate::text_value::TextValue;
use sq_base::List;
use sq_model::{Item, Look, SpanTree};
use sq_schema::Schema;
use sq_tokens::Pattern;
use std::alloc::{AllocError, Global};

/// The rows of the properties at which an expression looks.
fn looked_rows(alloc: Global, look: Look, schema: &Schema) -> Result<List<u32>, AllocError>
    ensures { IfOk result (λ rows. rows ≡ looked_rows look schema.now) }
{
    match look {
        Look::One(property) => {
            let mut rows = List::new(alloc);
            rows.push(property)?;
            Ok(rows)
        }
        Look::Searchable => {
            let rows = searchable(alloc, schema)?;
            Ok(rows)
        }
    }
}

/// Whether the expression matches in one of the property's passages.
fn matches_in(
    alloc: Global,
    texts: &[TextValue],
    property: u32,
    tree: &SpanTree,
) -> Result<bool, AllocError>
    ensures { IfOk result (λ b. b ≡ list_any (λ passage. not (is_empty (triples passage tree.now))) (passages_in texts.now property)) }
{
    for text in texts {
        if text.property == property {
            let found = triples(alloc, &text.tokens, tree)?;
            if !found.as_slice().is_empty() {
                return Ok(true);
            }
        }
    }
    Ok(false)
}

pub fn spans_hold(
    alloc: Global,
    schema: &Schema,
    item: &Item,
    texts: &[TextValue],
    look: Look,
    tree: &SpanTree,
) -> Result<bool, AllocError>
    requires { texts.now ≡ text_values item.now.values }
    ensures { IfOk result (λ b. b ≡ list_any (λ passage. not (is_empty (triples passage tree.now))) (looked look schema.now item.now.values)) }
{
    let rows = looked_rows(alloc, look, schema)?;
    for row in rows.as_slice() {
        if matches_in(alloc, texts, *row, tree)? {
            return Ok(true);
        }
    }
    Ok(false)
}

pub fn edge_holds(
    alloc: Global,
    schema: &Schema,
    item: &Item,
    texts: &[TextValue],
    look: Look,
    pattern: &Pattern,
    starts: bool,
    ends: bool,
) -> Result<bool, AllocError>
    requires { texts.now ≡ text_values item.now.values }
    ensures { IfOk result (λ b. b ≡ list_any (fits_edge pattern.now starts ends) (looked look schema.now item.now.values)) }
{
    let rows = looked_rows(alloc, look, schema)?;
    for row in rows.as_slice() {
        if fits_edge_in(alloc, pattern, starts, ends, texts, *row)? {
            return Ok(true);
        }
    }
    Ok(false)
}

/// Gives up, as for want of memory, where the sum passes 64 bits.
fn add_counts(m: usize, n: usize) -> Result<usize, AllocError>
    ensures { IfOk result (λ sum. sum ≡ m + n) }
{
    match m.checked_add(n) {
        Some(sum) => Ok(sum),
        None => Err(AllocError),
    }
}

/// At how many places of the property's passages the pattern fits.
fn count_in(
    alloc: Global,
    texts: &[TextValue],
    property: u32,
    pattern: &Pattern,
) -> Result<usize, AllocError>
    ensures { IfOk result (λ count. count ≡ sum_by (λ passage. length (places pattern.now passage)) (passages_in texts.now property)) }
{
    let mut count: usize = 0;
    for text in texts {
        if text.property == property {
            let found = places(alloc, pattern, &text.tokens)?;
            count = add_counts(count, found.len())?;
        }
    }
    Ok(count)
}

fn count_all(
    alloc: Global,
    schema: &Schema,
    item: &Item,
    texts: &[TextValue],
    look: Look,
    pattern: &Pattern,
) -> Result<usize, AllocError>
    requires { texts.now ≡ text_values item.now.values }
    ensures { IfOk result (λ count. count ≡ sum_by (λ passage. length (places pattern.now passage)) (looked look schema.now item.now.values)) }
{
    let rows = looked_rows(alloc, look, schema)?;
    let mut count: usize = 0;
    for row in rows.as_slice() {
        let more = count_in(alloc, texts, *row, pattern)?;
        count = add_counts(count, more)?;
    }
    Ok(count)
}

fn is_below(to: Option<u32>, count: usize) -> bool
    ensures { result ≡ below to count }
{
    match to {
        None => true,
        Some(end) => count < end as usize,
    }
}

fn is_counted(from: u32, to: Option<u32>, count: usize) -> bool
    ensures { result ≡ is_counted from to count }
{
    from as usize <= count && is_below(to, count)
}

pub fn count_holds(
    alloc: Global,
    schema: &Schema,
    item: &Item,
    texts: &[TextValue],
    look: Look,
    pattern: &Pattern,
    from: u32,
    to: Option<u32>,
) -> Result<bool, AllocError>
    requires { texts.now ≡ text_values item.now.values }
    ensures { IfOk result (λ b. b ≡ is_counted from to (sum_by (λ passage. length (places pattern.now passage)) (looked look schema.now item.now.values))) }
{
    let count = count_all(alloc, schema, item, texts, look, pattern)?;
    Ok(is_counted(from, to, count))
}
