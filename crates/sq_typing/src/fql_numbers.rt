//! The numbers that the scope of a property of another kind than Text asks for.

ghost use Rattle.std.specs.Prelude.{◌≡◌, ◌<ℤ◌, MatchOption};
ghost use Rattle.sq_schema.specs.Bounds as bounds;
ghost use Rattle.sq_typing.specs.FqlNumbers as spec;
ghost use Rattle.sq_typing.specs.Together.{mapped};

use crate::codes::{BAD_DATE, BAD_NUMBER, BAD_YES_NO, NUMBER_OUT_OF_RANGE, WRONG_OPERATOR};
use crate::fql_place::{Measure, misplaced};
use crate::fql_texts::{only_literal, unread};
use crate::together::{both, refused};
use sq_base::QueryFault;
use sq_fql::{FPiece, FRaw, Op};
use sq_model::FTree;
use sq_schema::{Interval, NumberFault, Schema, day_interval, number, yes_no};

#[tactic(auto, unfolding(crate::specs::FqlNumbers::number_in))]
fn number_in(piece: &FPiece) -> Result<Interval, QueryFault>
    ensures { result ≡ spec.number_in piece.now }
{
    match number(piece.text.as_str()) {
        Ok(n) => Ok(Interval { first: n, last: n }),
        Err(NumberFault::Shape) => Err(refused(BAD_NUMBER, piece.at)),
        Err(NumberFault::Range) => Err(refused(NUMBER_OUT_OF_RANGE, piece.at)),
    }
}

#[tactic(auto, unfolding(crate::specs::FqlNumbers::date_in))]
fn date_in(piece: &FPiece) -> Result<Interval, QueryFault>
    ensures { result ≡ spec.date_in piece.now }
{
    match day_interval(piece.text.as_str()) {
        Some(interval) => Ok(interval),
        None => Err(refused(BAD_DATE, piece.at)),
    }
}

fn value_in(measure: Measure, piece: &FPiece) -> Result<Interval, QueryFault>
    ensures { result ≡ spec.value_in measure piece.now }
{
    match measure {
        Measure::Integer => number_in(piece),
        Measure::DateTime => date_in(piece),
    }
}

#[tactic(auto, unfolding(crate::specs::FqlNumbers::yes_no_in))]
fn yes_no_in(piece: &FPiece) -> Result<Interval, QueryFault>
    ensures { result ≡ spec.yes_no_in piece.now }
{
    match yes_no(piece.text.as_str()) {
        Some(true) => Ok(Interval { first: 1, last: 1 }),
        Some(false) => Ok(Interval { first: 0, last: 0 }),
        None => Err(refused(BAD_YES_NO, piece.at)),
    }
}

fn reads(measure: Measure, op: Op) -> bool
    ensures { result ≡ spec.reads measure op }
{
    match measure {
        Measure::Integer => matches!(op, Op::Int),
        Measure::DateTime => matches!(op, Op::DateTime),
    }
}

/// The value of int or datetime, of which the property has one.
#[tactic(auto, unfolding(crate::specs::FqlNumbers::literal_value))]
fn literal_value(
    measure: Measure,
    at: u32,
    op: Op,
    operands: &[FRaw],
) -> Result<Interval, QueryFault>
    ensures { result ≡ spec.literal_value measure at op operands.now }
{
    if !reads(measure, op) {
        return Err(refused(WRONG_OPERATOR, at));
    }
    match only_literal(operands) {
        Some(piece) => value_in(measure, piece),
        None => Err(unread()),
    }
}

#[tactic(auto, using(crate::proofs::FqlEquations::bound_rules))]
fn bound(schema: &Schema, measure: Measure, operand: &FRaw) -> Result<Interval, QueryFault>
    ensures { result ≡ spec.bound schema.now measure operand.now }
{
    match operand {
        FRaw::All(at) => Err(refused(WRONG_OPERATOR, *at)),
        FRaw::Literal(piece) => value_in(measure, piece),
        FRaw::Scope { at, name, inner: _ } => Err(misplaced(
            schema,
            WRONG_OPERATOR,
            *at,
            name.as_str(),
        )),
        FRaw::Apply { at, op, operands } => literal_value(measure, *at, *op, operands.as_slice()),
    }
}

fn is_literal(text: &str, operand: &FRaw) -> bool
    ensures { result ≡ spec.is_literal text.now operand.now }
{
    match operand {
        FRaw::Literal(piece) => piece.text.as_str() == text,
        FRaw::All(_) | FRaw::Scope { .. } | FRaw::Apply { .. } => false,
    }
}

#[tactic(auto, unfolding(crate::specs::FqlNumbers::lower_bound))]
fn lower_bound(schema: &Schema, measure: Measure, operand: &FRaw) -> Result<Interval, QueryFault>
    ensures { result ≡ spec.lower_bound schema.now measure operand.now }
{
    if is_literal("min", operand) {
        return Ok(Interval {
            first: i64::MIN,
            last: i64::MIN,
        });
    }
    bound(schema, measure, operand)
}

#[tactic(auto, unfolding(crate::specs::FqlNumbers::upper_bound))]
fn upper_bound(schema: &Schema, measure: Measure, operand: &FRaw) -> Result<Interval, QueryFault>
    ensures { result ≡ spec.upper_bound schema.now measure operand.now }
{
    if is_literal("max", operand) {
        return Ok(Interval {
            first: i64::MAX,
            last: i64::MAX,
        });
    }
    bound(schema, measure, operand)
}

/// The first number that isn't below a lower bound, or above it, if 64 bits have it.
fn first_from(above: bool, lower: Interval) -> Option<i64>
    ensures { MatchOption result (bounds.greatest_number <ℤ spec.first_from above lower) (λ n. n ≡ spec.first_from above lower) }
{
    if above {
        lower.last.checked_add(1)
    } else {
        Some(lower.first)
    }
}

/// The last number that isn't above an upper bound, or below it, if 64 bits have it.
fn last_to(below: bool, upper: Interval) -> Option<i64>
    ensures { MatchOption result (spec.last_to below upper <ℤ bounds.least_number) (λ n. n ≡ spec.last_to below upper) }
{
    if below {
        upper.first.checked_sub(1)
    } else {
        Some(upper.last)
    }
}

/// The numbers between two bounds.
#[tactic(auto, unfolding(crate::specs::FqlNumbers::between))]
fn between(above: bool, below: bool, lower: Interval, upper: Interval) -> Interval
    ensures { result ≡ spec.between above below lower upper }
{
    let empty = Interval { first: 1, last: 0 };
    let Some(first) = first_from(above, lower) else {
        return empty;
    };
    let Some(last) = last_to(below, upper) else {
        return empty;
    };
    if first <= last {
        Interval { first, last }
    } else {
        empty
    }
}

fn range(
    schema: &Schema,
    measure: Measure,
    above: bool,
    below: bool,
    operands: &[FRaw],
) -> Result<Interval, QueryFault>
    ensures { result ≡ spec.range schema.now measure above below operands.now }
{
    match operands {
        [lower, upper] => {
            let lower = lower_bound(schema, measure, lower);
            let upper = upper_bound(schema, measure, upper);
            match both(lower, upper) {
                Ok((lower, upper)) => Ok(between(above, below, lower, upper)),
                Err(fault) => Err(fault),
            }
        }
        _ => Err(unread()),
    }
}

fn numbers(
    schema: &Schema,
    measure: Measure,
    at: u32,
    op: Op,
    operands: &[FRaw],
) -> Result<Interval, QueryFault>
    ensures { result ≡ spec.numbers schema.now measure at op operands.now }
{
    match op {
        Op::Range { above, below } => range(schema, measure, above, below, operands),
        _ => literal_value(measure, at, op, operands),
    }
}

fn within(row: u32, numbers: Result<Interval, QueryFault>) -> Result<FTree, QueryFault>
    ensures { result ≡ mapped (spec.within row) numbers }
{
    match numbers {
        Ok(interval) => Ok(FTree::Within {
            property: row,
            first: interval.first,
            last: interval.last,
        }),
        Err(fault) => Err(fault),
    }
}

/// A literal in the scope of an Integer or DateTime property.
pub(crate) fn number_literal(
    row: u32,
    measure: Measure,
    piece: &FPiece,
) -> Result<FTree, QueryFault>
    ensures { result ≡ mapped (spec.within row) (spec.value_in measure piece.now) }
{
    within(row, value_in(measure, piece))
}

/// A literal in the scope of a YesNo property.
pub(crate) fn yes_no_literal(row: u32, piece: &FPiece) -> Result<FTree, QueryFault>
    ensures { result ≡ mapped (spec.within row) (spec.yes_no_in piece.now) }
{
    within(row, yes_no_in(piece))
}

/// An operator in the scope of an Integer or DateTime property.
pub(crate) fn in_numbers(
    schema: &Schema,
    row: u32,
    measure: Measure,
    at: u32,
    op: Op,
    operands: &[FRaw],
) -> Result<FTree, QueryFault>
    ensures { result ≡ mapped (spec.within row) (spec.numbers schema.now measure at op operands.now) }
{
    within(row, numbers(schema, measure, at, op, operands))
}
