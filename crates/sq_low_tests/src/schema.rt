//! Schemas made of rows.

use sq_base::Text;
use sq_schema::{Kind, Property, Schema, SchemaFault};
use std::alloc::{AllocError, Global};
use std::test::Fail;

fn row(alloc: Global, name: &str, kind: Kind, searchable: bool) -> Result<Property, AllocError> {
    Ok(Property {
        name: Text::from_str(alloc, name)?,
        kind,
        searchable,
        multi: false,
        refinable: matches!(kind, Kind::Integer),
    })
}

fn schema_of(alloc: Global, count: u32) -> Result<Schema, SchemaFault> {
    let mut rows = Vec::new(alloc);
    for number in 0..count {
        let name = format!(in alloc; "Size_{number}").map_err(|_| SchemaFault::NoMemory)?;
        let row = row(alloc, &name, Kind::Integer, false).map_err(|_| SchemaFault::NoMemory)?;
        rows.push(row).map_err(|_| SchemaFault::NoMemory)?;
    }
    Schema::new(alloc, rows)
}

#[test]
fn a_schema_of_64_rows_finds_each_by_its_name(rt: HostRuntime) -> Result<(), Fail> {
    let alloc = rt.alloc();
    let schema = schema_of(alloc, 64)?;
    assert_eq!(rt; schema.len(), 64);
    assert_eq!(rt; schema.find("sIZE_0"), Some(0));
    assert_eq!(rt; schema.find("size_63"), Some(63));
    assert_eq!(rt; schema.find("size_64"), None);
    assert!(rt; schema.property(63).is_some());
    assert!(rt; schema.property(64).is_none());
    assert_eq!(rt; schema_of(alloc, 65).err(), Some(SchemaFault::TooMany));
    Ok(())
}

/// A line for each name of the second of three rows, and the fault of the rows: the first row that is none, or
/// that has an earlier name.
const SECOND: &str = "\
Draft|BadRow(2)\n\
title|Repeated(1)\n\
TITLE|Repeated(1)\n\
|BadRow(1)\n\
2nd|BadRow(1)\n\
a-b|BadRow(1)";

#[test]
fn the_first_faulty_row_is_named(rt: HostRuntime) -> Result<(), Fail> {
    let alloc = rt.alloc();
    for line in SECOND.split('\n') {
        let (name, want) = line.split_once('|').unwrap_or((line, ""));
        let mut rows = Vec::new(alloc);
        rows.push(row(alloc, "Title", Kind::Text, true)?)?;
        rows.push(row(alloc, name, Kind::YesNo, false)?)?;
        rows.push(row(alloc, "TITLE", Kind::DateTime, true)?)?;
        let fault = Schema::new(alloc, rows).err().ok_or("a schema")?;
        assert_eq!(rt; format!(in alloc; "{fault:?}")?.as_str(), want, "at {line}");
    }
    Ok(())
}
