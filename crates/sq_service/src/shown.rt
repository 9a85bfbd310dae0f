//! The values of a hit as they are shown.
ghost use Rattle.std.specs.Prelude.{◌≡◌, ◌+◌, ◌≤◌, ◌++◌, map, length, option_map, option_to_list, slice_get, IfOk, OnOk};
ghost use Rattle.sq_stored.specs.Stored.{values_at};
ghost use Rattle.sq_engine.specs.Answer as answer;
ghost use Rattle.sq_service.specs.Listed as spec;

use sq_base::{List, Steps, Text};
use sq_response::Shown;
use sq_schema::Schema;
use sq_stored::Stored;
use std::alloc::{AllocError, Global};
use std::sync::ledger::Ledger;

/// The name of a row, as the schema spells it.
pub(crate) fn name_of(alloc: Global, schema: &Schema, row: u32) -> Result<Text, AllocError>
    ensures { IfOk result (λ name. name ≡ answer.name_of schema.now row) }
{
    match schema.property(row) {
        Some(property) => Ok(property.name.clone()?),
        None => Ok(Text::from_str(alloc, "")?),
    }
}

fn shown(alloc: Global, name: &Text, text: &str) -> Result<Shown, AllocError>
    ensures { IfOk result (λ one. one ≡ spec.shown_as name.now text.now) }
{
    Ok(Shown {
        name: name.clone()?,
        text: Text::from_str(alloc, text)?,
    })
}

/// Adds the text of a value, if there is one. It counts a step.
fn add_value<L: Ledger>(
    alloc: Global,
    name: &Text,
    stored: &Stored,
    row: u32,
    property: u32,
    i: u32,
    all: &mut List<Shown>,
    steps: &mut Steps<L>,
) -> Result<(), AllocError>
    ensures value { OnOk result (all.new ≡ all.old ++ option_to_list (option_map (spec.shown_as name.now) (slice_get (values_at stored.now row property) i))) }
    ensures cost { steps.new ≤ steps.old + 1 }
{
    if let Some(text) = stored.value(row, property, i, steps) {
        all.push(shown(alloc, name, text)?)?;
    }
    Ok(())
}

/// Adds the values of a property in a row, in the item's order. Each counts a step.
fn add_values<L: Ledger>(
    alloc: Global,
    schema: &Schema,
    stored: &Stored,
    row: u32,
    property: u32,
    all: &mut List<Shown>,
    steps: &mut Steps<L>,
) -> Result<(), AllocError>
    ensures values { OnOk result (all.new ≡ all.old ++ spec.shown_of schema.now stored.now row property) }
    ensures cost { steps.new ≤ steps.old + length (values_at stored.now row property) }
{
    let name = name_of(alloc, schema, property)?;
    for i in 0..stored.count(row, property) {
        add_value(alloc, &name, stored, row, property, i, all, steps)?;
    }
    Ok(())
}

/// The values of a row that are shown, in the order of the properties.
pub(crate) fn shown_values<L: Ledger>(
    alloc: Global,
    schema: &Schema,
    stored: &Stored,
    row: u32,
    properties: &[u32],
    steps: &mut Steps<L>,
) -> Result<List<Shown>, AllocError>
    ensures values { IfOk result (λ all. all ≡ spec.shown_values schema.now stored.now properties.now row) }
    ensures cost { steps.new ≤ steps.old + spec.shown_cost stored.now properties.now row }
{
    let mut all = List::new(alloc);
    for property in properties {
        add_values(alloc, schema, stored, row, *property, &mut all, steps)?;
    }
    Ok(all)
}
