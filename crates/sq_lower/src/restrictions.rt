//! Restrictions of properties, as scopes.

ghost use Rattle.std.specs.Prelude.{◌≡◌, true, false, slice_get, IfOk, codes};
ghost use Rattle.std.specs.Fmt.{signed_decimal};
ghost use Rattle.sq_schema.specs.Moments.{IsMoment};
ghost use Rattle.sq_model.specs.KqlSound.{is_value_test_of};
ghost use Rattle.sq_model.specs.Kinds.{kind_of};
ghost use Rattle.sq_lower.specs.Lowered as spec;

use crate::build::{apply, literal, negated, one, phrase, range, scope};
use sq_base::Text;
use sq_fql::{FRaw, Op};
use sq_model::{Leaf, Relation};
use sq_schema::{Kind, Schema, moment_text};
use std::alloc::{AllocError, Global};

/// The values that are the phrase as a whole.
fn equal_text(alloc: Global, name: &str, leaf: &Leaf) -> Result<FRaw, AllocError>
    ensures { IfOk result (λ raw. raw ≡ spec.text_form name.now Relation.Equal leaf.now) }
{
    let text = phrase(alloc, leaf)?;
    let operands = one(alloc, text)?;
    let form = scope(alloc, name, apply(Op::Equals, operands))?;
    Ok(form)
}

fn text_form(alloc: Global, name: &str, relation: Relation, leaf: &Leaf) -> Result<FRaw, AllocError>
    ensures { IfOk result (λ raw. raw ≡ spec.text_form name.now relation leaf.now) }
{
    match relation {
        Relation::Equal => {
            let form = equal_text(alloc, name, leaf)?;
            Ok(form)
        }
        Relation::Unequal => {
            let equal = equal_text(alloc, name, leaf)?;
            let form = negated(alloc, equal)?;
            Ok(form)
        }
        Relation::Has
        | Relation::Less
        | Relation::More
        | Relation::AtMost
        | Relation::AtLeast
        | Relation::Range => {
            let text = phrase(alloc, leaf)?;
            let form = scope(alloc, name, text)?;
            Ok(form)
        }
    }
}

/// A restriction of a text property.
#[inline(never)]
pub(crate) fn text_test(
    alloc: Global,
    schema: &Schema,
    property: u32,
    relation: Relation,
    leaf: &Leaf,
) -> Result<FRaw, AllocError>
    ensures { IfOk result (λ raw. raw ≡ spec.text_test (slice_get schema.now property) relation leaf.now) }
{
    match schema.property(property) {
        Some(row) => {
            let form = text_form(alloc, row.name.as_str(), relation, leaf)?;
            Ok(form)
        }
        None => Ok(FRaw::All(0)),
    }
}

fn flag(alloc: Global, n: i64) -> Result<Text, AllocError>
    ensures { IfOk result (λ text. text ≡ spec.flag_text n) }
{
    let text = if n == 1 { "true" } else { "false" };
    let text = Text::from_str(alloc, text)?;
    Ok(text)
}

fn decimal(alloc: Global, n: i64) -> Result<Text, AllocError>
    ensures { IfOk result (λ text. text ≡ signed_decimal n) }
{
    let text = format!(in alloc; "{n}")?;
    let text = Text::from_str(alloc, &text)?;
    Ok(text)
}

/// A number as a value of its kind is written.
fn number_text(alloc: Global, kind: Kind, n: i64) -> Result<Text, AllocError>
    requires { kind ≡ Kind.DateTime → IsMoment n }
    ensures { IfOk result (λ text. text ≡ spec.number_text kind n) }
{
    match kind {
        Kind::DateTime => {
            let text = moment_text(alloc, n)?;
            Ok(text)
        }
        Kind::YesNo => flag(alloc, n),
        Kind::Text | Kind::Integer => decimal(alloc, n),
    }
}

/// The numbers to a bound.
fn numbers_to(alloc: Global, below: bool, bound: Text) -> Result<FRaw, AllocError>
    ensures { IfOk result (λ raw. raw ≡ spec.range false below (codes "min") bound) }
{
    let least = Text::from_str(alloc, "min")?;
    let form = range(alloc, false, below, least, bound)?;
    Ok(form)
}

/// The numbers from a bound.
fn numbers_from(alloc: Global, above: bool, bound: Text) -> Result<FRaw, AllocError>
    ensures { IfOk result (λ raw. raw ≡ spec.range above false bound (codes "max")) }
{
    let greatest = Text::from_str(alloc, "max")?;
    let form = range(alloc, above, false, bound, greatest)?;
    Ok(form)
}

/// The numbers from one to another.
fn between(alloc: Global, kind: Kind, first: i64, last: i64) -> Result<FRaw, AllocError>
    requires first { kind ≡ Kind.DateTime → IsMoment first }
    requires last { kind ≡ Kind.DateTime → IsMoment last }
    ensures { IfOk result (λ raw. raw ≡ spec.range false false (spec.number_text kind first) (spec.number_text kind last)) }
{
    let lower = number_text(alloc, kind, first)?;
    let upper = number_text(alloc, kind, last)?;
    let form = range(alloc, false, false, lower, upper)?;
    Ok(form)
}

/// The values that are meant: those of a date are an interval, another value is alone.
fn value_meant(alloc: Global, kind: Kind, first: i64, last: i64) -> Result<FRaw, AllocError>
    requires first { kind ≡ Kind.DateTime → IsMoment first }
    requires last { kind ≡ Kind.DateTime → IsMoment last }
    ensures { IfOk result (λ raw. raw ≡ spec.value_meant kind first last) }
{
    match kind {
        Kind::DateTime => {
            let form = between(alloc, kind, first, last)?;
            Ok(form)
        }
        Kind::Text | Kind::Integer | Kind::YesNo => {
            let text = number_text(alloc, kind, first)?;
            Ok(literal(text))
        }
    }
}

/// The values that stand in the relation, but for `<>`, which is that of those that are meant.
fn values_related(
    alloc: Global,
    kind: Kind,
    relation: Relation,
    first: i64,
    last: i64,
) -> Result<FRaw, AllocError>
    requires first { kind ≡ Kind.DateTime → IsMoment first }
    requires last { kind ≡ Kind.DateTime → IsMoment last }
    ensures { IfOk result (λ raw. raw ≡ spec.values_related kind relation first last) }
{
    match relation {
        Relation::Less => {
            let form = numbers_to(alloc, true, number_text(alloc, kind, first)?)?;
            Ok(form)
        }
        Relation::More => {
            let form = numbers_from(alloc, true, number_text(alloc, kind, last)?)?;
            Ok(form)
        }
        Relation::AtMost => {
            let form = numbers_to(alloc, false, number_text(alloc, kind, last)?)?;
            Ok(form)
        }
        Relation::AtLeast => {
            let form = numbers_from(alloc, false, number_text(alloc, kind, first)?)?;
            Ok(form)
        }
        Relation::Range => {
            let form = between(alloc, kind, first, last)?;
            Ok(form)
        }
        Relation::Has | Relation::Equal | Relation::Unequal => {
            let form = value_meant(alloc, kind, first, last)?;
            Ok(form)
        }
    }
}

fn value_form(
    alloc: Global,
    name: &str,
    kind: Kind,
    relation: Relation,
    first: i64,
    last: i64,
) -> Result<FRaw, AllocError>
    requires first { kind ≡ Kind.DateTime → IsMoment first }
    requires last { kind ≡ Kind.DateTime → IsMoment last }
    ensures { IfOk result (λ raw. raw ≡ spec.value_form name.now kind relation first last) }
{
    let values = values_related(alloc, kind, relation, first, last)?;
    let scoped = scope(alloc, name, values)?;
    match relation {
        Relation::Unequal => {
            let form = negated(alloc, scoped)?;
            Ok(form)
        }
        _ => Ok(scoped),
    }
}

/// A restriction of a property of numbers, whose values are the numbers from `first` to `last`.
#[inline(never)]
pub(crate) fn value_test(
    alloc: Global,
    schema: &Schema,
    property: u32,
    relation: Relation,
    first: i64,
    last: i64,
) -> Result<FRaw, AllocError>
    requires { is_value_test_of (kind_of schema.now property) relation first last ≡ true }
    ensures { IfOk result (λ raw. raw ≡ spec.value_test (slice_get schema.now property) relation first last) }
{
    match schema.property(property) {
        Some(row) => {
            let form = value_form(alloc, row.name.as_str(), row.kind, relation, first, last)?;
            Ok(form)
        }
        None => Ok(FRaw::All(0)),
    }
}
