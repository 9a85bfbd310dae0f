//! The numbers of each property, by row and then by number.
ghost use Rattle.std.specs.Prelude.{◌≡◌, ◌++◌, ◌<◌, ◌^◌, length, map, int_lt, IfOk, OnOk};
ghost use Rattle.std.specs.Ordering.{is_lt};
ghost use Rattle.sq_base.specs.Sorting.{in_order};
ghost use Rattle.sq_model.specs.Passages.{number_of, numbers};
ghost use Rattle.sq_postings.specs.Occurrences.{numbered, numbers_from};
ghost use Rattle.sq_build.specs.Numbers.{numbers_by_property};

use sq_base::List;
use sq_model::{Content, Item, Value};
use std::alloc::{AllocError, Global};
use std::cmp::Ordering;

fn number_of(content: &Content) -> Option<i64>
    ensures { result ≡ number_of content.now }
{
    match content {
        Content::Words(_) => None,
        Content::Number(n) => Some(*n),
        Content::Moment(n) => Some(*n),
        Content::Flag(b) => Some(if *b { 1 } else { 0 }),
    }
}

/// The numbers of a property of an item, as they stand.
fn numbers_in(alloc: Global, values: &[Value], property: u32) -> Result<Vec<i64>, AllocError>
    ensures { IfOk result (λ all. all.items ≡ numbers values.now property) }
{
    let mut all = Vec::new(alloc);
    for value in values {
        if value.property == property {
            if let Some(n) = number_of(&value.content) {
                all.push(n)?;
            }
        }
    }
    Ok(all)
}

fn compare(a: i64, b: i64) -> Ordering
    ensures { is_lt result ≡ int_lt a b }
{
    a.cmp(&b)
}

fn sort(all: &mut Vec<i64>)
    ensures { all.new.items ≡ in_order int_lt all.old.items }
{
    all.sort_unstable_by(|a, b| compare(*a, *b));
}

/// Adds the numbers of a property of an item.
fn push_numbers(
    alloc: Global,
    pairs: &mut List<(u32, i64)>,
    row: u32,
    values: &[Value],
    property: u32,
) -> Result<(), AllocError>
    ensures { OnOk result (pairs.new ≡ pairs.old ++ map (numbered row) (in_order int_lt (numbers values.now property))) }
{
    let mut all = numbers_in(alloc, values, property)?;
    sort(&mut all);
    for n in &all {
        pairs.push((row, *n))?;
    }
    Ok(())
}

fn numbers_of(alloc: Global, items: &[Item], property: u32) -> Result<List<(u32, i64)>, AllocError>
    requires { length items.now < 2 ^ 32 }
    ensures { IfOk result (λ pairs. pairs ≡ numbers_from 0 property items.now) }
{
    let mut pairs = List::new(alloc);
    for (row, item) in items.iter().enumerate() {
        push_numbers(
            alloc,
            &mut pairs,
            row as u32,
            item.values.as_slice(),
            property,
        )?;
    }
    Ok(pairs)
}

/// The numbers of each of so many properties, by row and then by number: the values of an index's parts.
///
/// A moment is in seconds, yes is 1 and no is 0. `properties` is how many the schema has.
pub fn numbers_by_property(
    alloc: Global,
    items: &[Item],
    properties: u32,
) -> Result<List<List<(u32, i64)>>, AllocError>
    requires { length items.now < 2 ^ 32 }
    ensures { IfOk result (λ all. all ≡ numbers_by_property properties items.now) }
{
    let mut all = List::new(alloc);
    for property in 0..properties {
        all.push(numbers_of(alloc, items, property)?)?;
    }
    Ok(all)
}
