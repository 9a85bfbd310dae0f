//! Restrictions of one property.
ghost use Rattle.std.specs.Prelude.{◌≡◌, ◌&&◌, int_lt, int_le, IfOk};
ghost use Rattle.std.specs.List.{list_any};
ghost use Rattle.sq_model.specs.Passages.{passages, numbers, some_within};
ghost use Rattle.sq_model.specs.Places.{fits_edge};
ghost use Rattle.sq_slow.specs.TextValues.{text_values, passages_in};
ghost use Rattle.sq_model.specs.Kql.{compares, reads};

use crate::places::{fits_edge, places};
use crate::seen::numbers;
use crate::text_value::TextValue;
use sq_model::{Item, Relation};
use sq_tokens::Pattern;
use std::alloc::{AllocError, Global};

pub fn some_within(first: i64, last: i64, numbers: &[i64]) -> bool
    ensures { result ≡ some_within first last numbers.now }
{
    numbers.iter().any(|n| first <= *n && *n <= last)
}

fn some_below(bound: i64, numbers: &[i64]) -> bool
    ensures { result ≡ list_any (λ n. int_lt n bound) numbers.now }
{
    numbers.iter().any(|n| *n < bound)
}

fn some_above(bound: i64, numbers: &[i64]) -> bool
    ensures { result ≡ list_any (λ n. int_lt bound n) numbers.now }
{
    numbers.iter().any(|n| bound < *n)
}

fn some_at_most(bound: i64, numbers: &[i64]) -> bool
    ensures { result ≡ list_any (λ n. int_le n bound) numbers.now }
{
    numbers.iter().any(|n| *n <= bound)
}

fn some_at_least(bound: i64, numbers: &[i64]) -> bool
    ensures { result ≡ list_any (λ n. int_le bound n) numbers.now }
{
    numbers.iter().any(|n| bound <= *n)
}

fn compares(relation: Relation, first: i64, last: i64, numbers: &[i64]) -> bool
    ensures { result ≡ compares relation first last numbers.now }
{
    match relation {
        Relation::Less => some_below(first, numbers),
        Relation::More => some_above(last, numbers),
        Relation::AtMost => some_at_most(last, numbers),
        Relation::AtLeast => some_at_least(first, numbers),
        Relation::Unequal => !some_within(first, last, numbers),
        Relation::Has | Relation::Equal | Relation::Range => some_within(first, last, numbers),
    }
}

fn some_fits(
    alloc: Global,
    pattern: &Pattern,
    texts: &[TextValue],
    property: u32,
) -> Result<bool, AllocError>
    ensures { IfOk result (λ b. b ≡ reads Relation.Has pattern.now (passages_in texts.now property)) }
{
    for text in texts {
        if text.property == property {
            let found = places(alloc, pattern, &text.tokens)?;
            if !found.as_slice().is_empty() {
                return Ok(true);
            }
        }
    }
    Ok(false)
}

/// Whether the pattern stands first or last, or both, in one of the property's passages.
pub fn fits_edge_in(
    alloc: Global,
    pattern: &Pattern,
    starts: bool,
    ends: bool,
    texts: &[TextValue],
    property: u32,
) -> Result<bool, AllocError>
    ensures { IfOk result (λ b. b ≡ list_any (fits_edge pattern.now starts ends) (passages_in texts.now property)) }
{
    for text in texts {
        if text.property == property {
            if fits_edge(alloc, pattern, starts, ends, &text.tokens)? {
                return Ok(true);
            }
        }
    }
    Ok(false)
}

fn reads(
    alloc: Global,
    relation: Relation,
    pattern: &Pattern,
    texts: &[TextValue],
    property: u32,
) -> Result<bool, AllocError>
    ensures { IfOk result (λ b. b ≡ reads relation pattern.now (passages_in texts.now property)) }
{
    match relation {
        Relation::Has => some_fits(alloc, pattern, texts, property),
        Relation::Equal => fits_edge_in(alloc, pattern, true, true, texts, property),
        Relation::Unequal => {
            let equals = fits_edge_in(alloc, pattern, true, true, texts, property)?;
            Ok(!equals)
        }
        Relation::Less | Relation::More | Relation::AtMost | Relation::AtLeast | Relation::Range =>
            Ok(false),
    }
}

/// Whether a restriction of a text property holds of an item with these texts.
pub fn text_test(
    alloc: Global,
    item: &Item,
    texts: &[TextValue],
    property: u32,
    relation: Relation,
    pattern: &Pattern,
) -> Result<bool, AllocError>
    requires { texts.now ≡ text_values item.now.values }
    ensures { IfOk result (λ b. b ≡ reads relation pattern.now (passages item.now.values property)) }
{
    let answer = reads(alloc, relation, pattern, texts, property)?;
    Ok(answer)
}

/// Whether a restriction of a property of numbers holds of the item.
pub fn value_test(
    alloc: Global,
    item: &Item,
    property: u32,
    relation: Relation,
    first: i64,
    last: i64,
) -> Result<bool, AllocError>
    ensures { IfOk result (λ b. b ≡ compares relation first last (numbers item.now.values property)) }
{
    let all = numbers(alloc, item, property)?;
    Ok(compares(relation, first, last, all.as_slice()))
}
