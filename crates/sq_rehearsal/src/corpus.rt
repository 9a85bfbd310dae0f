//! The corpus: its properties, its callers, and as many items as are asked for.
ghost use Rattle.std.specs.Prelude.{◌≡◌, ◌≤◌, ℕ, map, IfOk};
ghost use Rattle.std.specs.List.{range_with_len};
ghost use Rattle.sq_model.specs.Valid.{IsValid};
ghost use Rattle.sq_rehearsal.specs.Rehearsal as spec;

use crate::items::item;
use sq_base::{List, Text};
use sq_model::{Caller, Corpus, Item};
use sq_schema::{Kind, Property, Schema};
use std::alloc::{AllocError, Global};

fn property(alloc: Global, name: &str, kind: Kind, searchable: bool) -> Result<Property, AllocError>
    ensures { IfOk result (λ row. row ≡ spec.property name.now kind searchable) }
{
    Ok(Property {
        name: Text::from_str(alloc, name)?,
        kind,
        searchable,
        multi: false,
        refinable: false,
    })
}

fn schema(alloc: Global) -> Result<Schema, AllocError>
    ensures { IfOk result (λ schema. schema ≡ spec.properties) }
{
    let mut rows = Vec::new(alloc);
    rows.push(property(alloc, "title", Kind::Text, true)?)?;
    rows.push(property(alloc, "body", Kind::Text, true)?)?;
    rows.push(property(alloc, "size", Kind::Integer, false)?)?;
    match Schema::new(alloc, rows) {
        Ok(schema) => Ok(schema),
        Err(_) => Err(AllocError),
    }
}

fn caller(alloc: Global, name: &str, claims: &[&str]) -> Result<Caller, AllocError>
    ensures { IfOk result (λ caller. caller ≡ record { name = name.now; claims = map (λ claim. claim.now) claims.now }) }
{
    let mut held = List::new(alloc);
    for claim in claims {
        held.push(Text::from_str(alloc, claim)?)?;
    }
    Ok(Caller {
        name: Text::from_str(alloc, name)?,
        claims: held,
    })
}

fn callers(alloc: Global) -> Result<List<Caller>, AllocError>
    ensures { IfOk result (λ callers. callers ≡ spec.callers) }
{
    let mut callers = List::new(alloc);
    callers.push(caller(alloc, "reader", &["staff"])?)?;
    callers.push(caller(alloc, "chief", &["staff", "board", "temp"])?)?;
    Ok(callers)
}

fn items(alloc: Global, count: u32) -> Result<List<Item>, AllocError>
    requires { count ≤ spec.most_rehearsed }
    ensures { IfOk result (λ items. items ≡ map spec.item (range_with_len 1 count)) }
{
    let mut items = List::new(alloc);
    for before in 0..count {
        items.push(item(alloc, before + 1)?)?;
    }
    Ok(items)
}

/// The corpus of a rehearsal with so many items, 1 to 2,000. The items have the numbers from 1 on.
pub fn rehearsal(alloc: Global, count: u32) -> Result<Corpus, AllocError>
    requires some { 1 ≤ count }
    requires few { count ≤ spec.most_rehearsed }
    ensures equals { IfOk result (λ corpus. corpus ≡ spec.rehearsal count) }
    ensures valid { IfOk result IsValid }
{
    Ok(Corpus {
        schema: schema(alloc)?,
        callers: callers(alloc)?,
        items: items(alloc, count)?,
    })
}
