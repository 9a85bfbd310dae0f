//! What a restriction of KQL asks of its property.

ghost use Rattle.std.specs.Prelude.{◌≡◌, IfOk, IfSome};
ghost use Rattle.sq_schema.specs.Intervals.{clamped};
ghost use Rattle.sq_typing.specs.Formed.{IsValue};
ghost use Rattle.sq_typing.specs.KqlValues as spec;
ghost use Rattle.sq_typing.specs.Together.{together};

use crate::codes::{
    BAD_DATE, BAD_NUMBER, BAD_YES_NO, NO_TOKEN, NOT_IN_PROXIMITY, NUMBER_OUT_OF_RANGE,
    UNKNOWN_PROPERTY, WRONG_OPERATOR,
};
use crate::leaves::literal;
use crate::together::{both, refused};
use sq_base::QueryFault;
use sq_kql::{Piece, Relation as Spelled};
use sq_model::{KTree, Leaf, Relation};
use sq_schema::{
    Interval, Kind, NumberFault, Schema, day_interval, named_interval, number, yes_no,
};
use std::alloc::{AllocError, Global};

pub(crate) fn relation_of(relation: Spelled) -> Relation
    ensures { result ≡ spec.relation_of relation }
{
    match relation {
        Spelled::Has => Relation::Has,
        Spelled::Equal => Relation::Equal,
        Spelled::Less => Relation::Less,
        Spelled::More => Relation::More,
        Spelled::AtMost => Relation::AtMost,
        Spelled::AtLeast => Relation::AtLeast,
        Spelled::Unequal => Relation::Unequal,
        Spelled::Range => Relation::Range,
    }
}

#[tactic(auto, unfolding(crate::specs::KqlValues::found))]
fn found(schema: &Schema, name: &str) -> Option<(u32, Kind)>
    ensures { result ≡ spec.found schema.now name.now }
{
    let row = schema.find(name)?;
    let property = schema.property(row)?;
    Some((row, property.kind))
}

fn has_relation(kind: Kind, relation: Relation) -> bool
    ensures { result ≡ spec.has_relation kind relation }
{
    match kind {
        Kind::Text | Kind::YesNo => matches!(
            relation,
            Relation::Has | Relation::Equal | Relation::Unequal
        ),
        Kind::Integer | Kind::DateTime => true,
    }
}

/// The property that a restriction names, if its kind has the relation.
#[tactic(auto, unfolding(crate::specs::KqlValues::tested))]
pub(crate) fn tested(
    schema: &Schema,
    at: u32,
    name: &str,
    relation: Relation,
) -> Result<(u32, Kind), QueryFault>
    ensures { result ≡ spec.tested schema.now at name.now relation }
{
    match found(schema, name) {
        None => Err(refused(UNKNOWN_PROPERTY, at)),
        Some((row, kind)) => if has_relation(kind, relation) {
            Ok((row, kind))
        } else {
            Err(refused(WRONG_OPERATOR, at))
        },
    }
}

#[tactic(auto, unfolding(crate::specs::KqlValues::number_value))]
fn number_value(piece: &Piece) -> Result<Interval, QueryFault>
    ensures { result ≡ spec.number_value piece.now }
{
    match number(piece.text.as_str()) {
        Ok(n) => Ok(Interval { first: n, last: n }),
        Err(NumberFault::Shape) => Err(refused(BAD_NUMBER, piece.at)),
        Err(NumberFault::Range) => Err(refused(NUMBER_OUT_OF_RANGE, piece.at)),
    }
}

/// A date, or an interval's name about the moment.
#[tactic(auto, unfolding(crate::specs::KqlValues::moment_value))]
fn moment_value(now: i64, piece: &Piece) -> Result<Interval, QueryFault>
    requires { now ≡ clamped now }
    ensures { result ≡ spec.moment_value now piece.now }
{
    let text = piece.text.as_str();
    match day_interval(text) {
        Some(interval) => Ok(interval),
        None => match named_interval(text, now) {
            Some(interval) => Ok(interval),
            None => Err(refused(BAD_DATE, piece.at)),
        },
    }
}

#[tactic(auto, unfolding(crate::specs::KqlValues::yes_no_value))]
fn yes_no_value(piece: &Piece) -> Result<Interval, QueryFault>
    ensures { result ≡ spec.yes_no_value piece.now }
{
    match yes_no(piece.text.as_str()) {
        Some(true) => Ok(Interval { first: 1, last: 1 }),
        Some(false) => Ok(Interval { first: 0, last: 0 }),
        None => Err(refused(BAD_YES_NO, piece.at)),
    }
}

/// A range, if both bounds are values.
fn range_of(
    lower: Result<Interval, QueryFault>,
    upper: Result<Interval, QueryFault>,
) -> Result<Interval, QueryFault>
    ensures { result ≡ together spec.range_of lower upper }
{
    match both(lower, upper) {
        Ok((lower, upper)) => Ok(Interval {
            first: lower.first,
            last: upper.last,
        }),
        Err(fault) => Err(fault),
    }
}

fn number_bounds(value: &Piece, upper: &Option<Piece>) -> Result<Interval, QueryFault>
    ensures { result ≡ spec.bounds spec.number_value value.now upper.now }
{
    match upper {
        None => number_value(value),
        Some(upper) => range_of(number_value(value), number_value(upper)),
    }
}

fn moment_bounds(now: i64, value: &Piece, upper: &Option<Piece>) -> Result<Interval, QueryFault>
    requires { now ≡ clamped now }
    ensures { result ≡ spec.bounds (spec.moment_value now) value.now upper.now }
{
    match upper {
        None => moment_value(now, value),
        Some(upper) => range_of(moment_value(now, value), moment_value(now, upper)),
    }
}

fn value_test(
    row: u32,
    relation: Relation,
    value: Result<Interval, QueryFault>,
) -> Result<KTree, QueryFault>
    ensures { result ≡ spec.value_test row relation value }
{
    match value {
        Ok(interval) => Ok(KTree::ValueTest {
            property: row,
            relation,
            first: interval.first,
            last: interval.last,
        }),
        Err(fault) => Err(fault),
    }
}

#[tactic(auto, unfolding(crate::specs::KqlValues::text_value))]
fn text_value(alloc: Global, piece: &Piece) -> Result<Result<Leaf, QueryFault>, AllocError>
    requires { IsValue piece.now }
    ensures { IfOk result (λ leaf. leaf ≡ spec.text_value piece.now) }
{
    match literal(alloc, piece.text.as_str())? {
        Some(leaf) => Ok(Ok(leaf)),
        None => Ok(Err(refused(NO_TOKEN, piece.at))),
    }
}

fn text_test(
    alloc: Global,
    row: u32,
    relation: Relation,
    piece: &Piece,
) -> Result<Result<KTree, QueryFault>, AllocError>
    requires { IsValue piece.now }
    ensures { IfOk result (λ tree. tree ≡ spec.text_test row relation piece.now) }
{
    match text_value(alloc, piece)? {
        Ok(leaf) => Ok(Ok(KTree::TextTest {
            property: row,
            relation,
            leaf,
        })),
        Err(fault) => Ok(Err(fault)),
    }
}

/// The test that a restriction is, or its fault: the property's, the relation's, or else the value's.
pub(crate) fn restriction(
    alloc: Global,
    schema: &Schema,
    now: i64,
    at: u32,
    name: &str,
    relation: Relation,
    value: &Piece,
    upper: &Option<Piece>,
) -> Result<Result<KTree, QueryFault>, AllocError>
    requires now { now ≡ clamped now }
    requires value { IsValue value.now }
    ensures { IfOk result (λ tree. tree ≡ spec.restriction schema.now now at name.now relation value.now upper.now) }
{
    match tested(schema, at, name, relation) {
        Err(fault) => Ok(Err(fault)),
        Ok((row, Kind::Text)) => text_test(alloc, row, relation, value),
        Ok((row, Kind::Integer)) => Ok(value_test(row, relation, number_bounds(value, upper))),
        Ok((row, Kind::DateTime)) => Ok(value_test(
            row,
            relation,
            moment_bounds(now, value, upper),
        )),
        Ok((row, Kind::YesNo)) => Ok(value_test(row, relation, yes_no_value(value))),
    }
}

/// What is wrong with a restriction where none may stand.
pub(crate) fn misplaced(
    schema: &Schema,
    at: u32,
    name: &str,
    relation: Spelled,
) -> Result<KTree, QueryFault>
    ensures { result ≡ spec.misplaced schema.now at name.now (spec.relation_of relation) }
{
    match tested(schema, at, name, relation_of(relation)) {
        Ok(_) => Err(refused(NOT_IN_PROXIMITY, at)),
        Err(fault) => Err(fault),
    }
}
