//! What an index keeps of each property and of each item.
ghost use Rattle.std.specs.Prelude.{◌≡◌, ◌<◌, length, map, slice_get, Some, IfOk};
ghost use Rattle.sq_postings.specs.StandsFor.{shape_of, row_of};

use sq_base::List;
use sq_model::Item;
use sq_postings::{Row, Shape};
use sq_schema::{Property, Schema};
use std::alloc::{AllocError, Global};

fn property_at(schema: &Schema, row: u32) -> &Property
    requires { row < length schema.now }
    ensures { slice_get schema.now row ≡ Some result.now }
{
    match schema.property(row) {
        Some(property) => property,
        None => unreachable!(),
    }
}

/// What an index keeps of each property, in the schema's order: the shapes of its parts.
pub fn shapes_of(alloc: Global, schema: &Schema) -> Result<List<Shape>, AllocError>
    ensures { IfOk result (λ shapes. shapes ≡ map shape_of schema.now) }
{
    let mut shapes = List::new(alloc);
    for row in 0..schema.len() {
        let property = property_at(schema, row);
        shapes.push(Shape {
            kind: property.kind,
            searchable: property.searchable,
        })?;
    }
    Ok(shapes)
}

/// What an index keeps of each item, in order: the rows of its parts.
pub fn rows_of(alloc: Global, items: &[Item]) -> Result<List<Row>, AllocError>
    ensures { IfOk result (λ rows. rows ≡ map row_of items.now) }
{
    let mut rows = List::new(alloc);
    for item in items {
        rows.push(Row {
            number: item.number,
            rank: item.rank,
        })?;
    }
    Ok(rows)
}
