ghost use Rattle.std.specs.Prelude.{◌≡◌, ◌≢◌, false, IfOk};
ghost use Rattle.std.specs.List.{list_any};
ghost use Rattle.sq_schema.specs.Properties as properties;
ghost use Rattle.sq_corpus.specs.Lines as spec;

use crate::words::Flags;
use sq_base::Text;
use sq_schema::{Kind, Property, Schema, SchemaFault};
use std::alloc::{AllocError, Global};

/// The row of a schema that a line's fields say.
pub(crate) fn row_of(
    alloc: Global,
    name: &str,
    kind: Kind,
    flags: Flags,
) -> Result<Property, AllocError>
    ensures { IfOk result (λ row. row ≡ spec.row_of name.now kind flags) }
{
    Ok(Property {
        name: Text::from_str(alloc, name)?,
        kind,
        searchable: flags.searchable,
        multi: flags.multi,
        refinable: flags.refinable,
    })
}

// A row that a schema refuses by itself isn't sound.
fn refused(fault: SchemaFault) -> Result<bool, AllocError>
    requires { fault ≢ SchemaFault.TooMany }
    ensures { IfOk result (λ sound. (sound ≡ false) × (fault ≢ SchemaFault.NoMemory)) }
{
    match fault {
        SchemaFault::BadRow(_) => Ok(false),
        SchemaFault::Repeated(_) => Ok(false),
        SchemaFault::NoMemory => Err(AllocError),
        SchemaFault::TooMany => unreachable!(),
    }
}

/// Whether a schema takes the row by itself.
pub(crate) fn is_sound(alloc: Global, row: Property) -> Result<bool, AllocError>
    ensures { IfOk result (λ sound. sound ≡ properties.is_sound row) }
{
    let mut rows = Vec::new(alloc);
    rows.push(row)?;
    match Schema::new(alloc, rows) {
        Ok(_) => Ok(true),
        Err(fault) => {
            let sound = refused(fault)?;
            Ok(sound)
        }
    }
}

#[tactic(auto, unfolding(sq_schema::specs::Properties::has_name, sq_schema::specs::Words::is_same_word))]
fn has_name(row: &Property, name: &str) -> bool
    ensures { result ≡ properties.has_name name.now row.now }
{
    row.name.as_str().eq_ignore_ascii_case(name)
}

/// Whether an earlier row has the name, where the case of ASCII letters does not count.
pub(crate) fn is_taken(rows: &[Property], name: &str) -> bool
    ensures { result ≡ list_any (properties.has_name name.now) rows.now }
{
    rows.iter().any(|row| has_name(row, name))
}

fn copy_of(alloc: Global, row: &Property) -> Result<Property, AllocError>
    ensures { IfOk result (λ copy. copy ≡ row.now) }
{
    Ok(Property {
        name: Text::from_str(alloc, row.name.as_str())?,
        kind: row.kind,
        searchable: row.searchable,
        multi: row.multi,
        refinable: row.refinable,
    })
}

fn copies_of(alloc: Global, rows: &[Property]) -> Result<Vec<Property>, AllocError>
    ensures { IfOk result (λ copies. copies.items ≡ rows.now) }
{
    let mut copies = Vec::new(alloc);
    for row in rows {
        copies.push(copy_of(alloc, row)?)?;
    }
    Ok(copies)
}

/// The schema of rows that have no fault.
pub(crate) fn schema_of(alloc: Global, rows: Vec<Property>) -> Result<Schema, AllocError>
    requires { properties.IsSchema rows.items }
    ensures { IfOk result (λ schema. schema ≡ rows.items) }
{
    match Schema::new(alloc, rows) {
        Ok(schema) => Ok(schema),
        Err(SchemaFault::NoMemory) => Err(AllocError),
        Err(SchemaFault::TooMany) => unreachable!(),
        Err(SchemaFault::BadRow(_)) => unreachable!(),
        Err(SchemaFault::Repeated(_)) => unreachable!(),
    }
}

/// The schema of copies of rows that have no fault.
pub(crate) fn schema_of_copies(alloc: Global, rows: &[Property]) -> Result<Schema, AllocError>
    requires { properties.IsSchema rows.now }
    ensures { IfOk result (λ schema. schema ≡ rows.now) }
{
    schema_of(alloc, copies_of(alloc, rows)?)
}
