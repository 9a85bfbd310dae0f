//! Where an expression of FQL stands: outside of every scope, or in the scope of a property.

ghost use Rattle.std.specs.Prelude.{◌≡◌};
ghost use Rattle.sq_typing.specs.FqlPlaces as spec;

use crate::codes::UNKNOWN_PROPERTY;
use crate::fql_codes::NESTED_SCOPE;
use crate::together::refused;
use sq_base::QueryFault;
use sq_model::Look;
use sq_schema::{Kind, Schema};

/// How the literals of a property are read as numbers.
#[derive(Clone, Copy, Debug, PartialEq, Eq)]
pub(crate) enum Measure {
    Integer,
    DateTime,
}

/// Where an expression stands. It looks at texts outside of every scope and in the scope of a text property.
#[derive(Clone, Copy, Debug, PartialEq, Eq)]
pub(crate) enum Place {
    Texts(Look),
    /// In the scope of the Integer or DateTime property of a row.
    Numbers { row: u32, measure: Measure },
    /// In the scope of the YesNo property of a row.
    YesNo(u32),
}

fn place_of(row: u32, kind: Kind) -> Place
    ensures { result ≡ spec.place_of row kind }
{
    match kind {
        Kind::Text => Place::Texts(Look::One(row)),
        Kind::Integer => Place::Numbers {
            row,
            measure: Measure::Integer,
        },
        Kind::DateTime => Place::Numbers {
            row,
            measure: Measure::DateTime,
        },
        Kind::YesNo => Place::YesNo(row),
    }
}

/// The place in the scope of a property, if the schema has it.
#[tactic(auto, unfolding(crate::specs::FqlPlaces::opened))]
fn opened(schema: &Schema, name: &str) -> Option<Place>
    ensures { result ≡ spec.opened schema.now name.now }
{
    let row = schema.find(name)?;
    let property = schema.property(row)?;
    Some(place_of(row, property.kind))
}

fn named(schema: &Schema, at: u32, name: &str) -> Result<Place, QueryFault>
    ensures { result ≡ spec.named schema.now at name.now }
{
    match opened(schema, name) {
        Some(place) => Ok(place),
        None => Err(refused(UNKNOWN_PROPERTY, at)),
    }
}

fn is_outside(place: Place) -> bool
    ensures { result ≡ spec.is_outside place }
{
    match place {
        Place::Texts(Look::Searchable) => true,
        Place::Texts(Look::One(_)) | Place::Numbers { .. } | Place::YesNo(_) => false,
    }
}

/// The place in a scope, which may stand only outside of all others.
#[tactic(auto, unfolding(crate::specs::FqlPlaces::entered))]
pub(crate) fn entered(
    schema: &Schema,
    place: Place,
    at: u32,
    name: &str,
) -> Result<Place, QueryFault>
    ensures { result ≡ spec.entered schema.now place at name.now }
{
    let inside = named(schema, at, name)?;
    if is_outside(place) {
        Ok(inside)
    } else {
        Err(refused(NESTED_SCOPE, at))
    }
}

/// What is wrong with a scope where none may stand.
pub(crate) fn misplaced(schema: &Schema, code: u16, at: u32, name: &str) -> QueryFault
    ensures { result ≡ spec.misplaced schema.now code at name.now }
{
    match named(schema, at, name) {
        Ok(_) => refused(code, at),
        Err(fault) => fault,
    }
}

/// What is wrong with what needs something else outside of every scope, and isn't for texts in one.
pub(crate) fn barred(look: Look, outside: u16, inside: u16, at: u32) -> QueryFault
    ensures { result ≡ spec.barred look outside inside at }
{
    match look {
        Look::Searchable => refused(outside, at),
        Look::One(_) => refused(inside, at),
    }
}
