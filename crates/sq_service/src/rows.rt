//! The properties that are asked for.
ghost use Rattle.std.specs.Prelude.{◌≡◌, ◌==◌, [], IfOk, OnOk, ◌++◌};
ghost use Rattle.std.specs.List.{list_any};
ghost use Rattle.sq_engine.specs.Answer as answer;
ghost use Rattle.sq_service.specs.Rows.{new_row};

use sq_base::{List, Text};
use sq_schema::Schema;
use std::alloc::{AllocError, Global};

fn contains(rows: &[u32], row: u32) -> bool
    ensures { result ≡ list_any (λ other. other == row) rows.now }
{
    rows.iter().any(|other| *other == row)
}

/// Adds the row of a property that isn't there yet.
fn add_row(schema: &Schema, name: &str, rows: &mut List<u32>) -> Result<(), AllocError>
    ensures { OnOk result (rows.new ≡ rows.old ++ new_row schema.now name.now rows.old) }
{
    if let Some(row) = schema.find(name) {
        if !contains(rows.as_slice(), row) {
            rows.push(row)?;
        }
    }
    Ok(())
}

/// The rows of the properties asked for, each once, at its first place.
pub(crate) fn rows_of(
    alloc: Global,
    schema: &Schema,
    names: &[Text],
) -> Result<List<u32>, AllocError>
    ensures { IfOk result (λ rows. rows ≡ answer.rows_of schema.now names.now []) }
{
    let mut rows = List::new(alloc);
    for name in names {
        add_row(schema, name.as_str(), &mut rows)?;
    }
    Ok(rows)
}
