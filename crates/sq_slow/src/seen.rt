//! What an expression sees of an item.
ghost use Rattle.std.specs.Prelude.{◌≡◌, ◌<◌, true, length, slice_get, IfOk};
ghost use Rattle.sq_model.specs.Passages.{number_of, numbers, searchable, is_searchable};
ghost use Rattle.sq_slow.specs.TextValues.{text_values};
ghost use Rattle.sq_model.specs.Valid.{has_short_texts};

use crate::text_value::TextValue;
use sq_base::List;
use sq_model::{Content, Item};
use sq_schema::Schema;
use sq_tokens::tokens_of;
use std::alloc::{AllocError, Global};

/// The tokens of each text of the item, made once for an evaluation.
pub fn text_values(alloc: Global, item: &Item) -> Result<List<TextValue>, AllocError>
    requires { has_short_texts item.now ≡ true }
    ensures { IfOk result (λ texts. texts ≡ text_values item.now.values) }
{
    let mut texts = List::new(alloc);
    for value in item.values.as_slice() {
        if let Content::Words(text) = &value.content {
            let tokens = tokens_of(alloc, text.as_str())?;
            texts.push(TextValue {
                property: value.property,
                tokens,
            })?;
        }
    }
    Ok(texts)
}

fn number_of(content: &Content) -> Option<i64>
    ensures { result ≡ number_of content.now }
{
    match content {
        Content::Words(_) => None,
        Content::Number(n) => Some(*n),
        Content::Moment(n) => Some(*n),
        Content::Flag(b) => Some(if *b { 1 } else { 0 }),
    }
}

pub fn numbers(alloc: Global, item: &Item, property: u32) -> Result<List<i64>, AllocError>
    ensures { IfOk result (λ all. all ≡ numbers item.now.values property) }
{
    let mut all = List::new(alloc);
    for value in item.values.as_slice() {
        if value.property == property {
            if let Some(n) = number_of(&value.content) {
                all.push(n)?;
            }
        }
    }
    Ok(all)
}

fn is_searchable(schema: &Schema, row: u32) -> bool
    ensures { result ≡ is_searchable (slice_get schema.now row) }
{
    match schema.property(row) {
        Some(property) => property.searchable,
        None => false,
    }
}

/// The rows of the searchable properties.
pub fn searchable(alloc: Global, schema: &Schema) -> Result<List<u32>, AllocError>
    ensures { IfOk result (λ rows. rows ≡ searchable schema.now) }
{
    let mut rows = List::new(alloc);
    for row in 0..schema.len() {
        if is_searchable(schema, row) {
            rows.push(row)?;
        }
    }
    Ok(rows)
}
