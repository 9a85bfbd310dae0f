//! The refiners of a request.
ghost use Rattle.std.specs.Prelude.{◌≡◌, ℕ, ◌+◌, ◌≤◌, Some, true, List, [], length, map, sum_by, slice_get, IfOk};
ghost use Rattle.std.specs.List.{All};
ghost use Rattle.sq_schema.specs.declared.property.Property.{Property};
ghost use Rattle.sq_model.specs.Valid.{are_rising};
ghost use Rattle.sq_packet.specs.Asked.{HasBuckets};
ghost use Rattle.sq_packet.specs.declared.request.RefinerSpec.{RefinerSpec as Asked};
ghost use Rattle.sq_packet.specs.Limits.{most_refiners};
ghost use Rattle.sq_postings.specs.Indexed.{Indexed};
ghost use Rattle.sq_engine.specs.Verdict as verdict;
ghost use Rattle.sq_service.specs.Refining as spec;

use crate::shown::name_of;
use sq_base::{List, Steps};
use sq_collect::Refiner;
use sq_packet::RefinerSpec;
use sq_postings::Index;
use sq_response::Refined;
use sq_schema::Schema;
use std::alloc::{AllocError, Global};
use std::sync::ledger::Ledger;

/// A refiner with the row of its property in the schema.
#[derive(Drop)]
pub(crate) struct Refining<'a> {
    property: u32,
    refiner: Refiner<'a>,
}

impl<'a> Refining<'a> {
    /// Counts the numbers of a row, which comes behind those before.
    fn take<L: Ledger>(&mut self, row: u32, steps: &mut Steps<L>)
        ensures taken { spec.Took row (Some self.old) (Some self.new) }
        ensures cost { steps.new + spec.refining_rest self.new ≤ steps.old + spec.refining_rest self.old }
    {
        self.refiner.take(row, steps);
    }
}

fn is_refinable(schema: &Schema, refiner: &RefinerSpec) -> bool
    ensures { result ≡ verdict.is_refinable schema.now refiner.now }
{
    let Some(row) = schema.find(refiner.name.as_str()) else {
        return false;
    };
    match schema.property(row) {
        Some(property) => property.refinable,
        None => false,
    }
}

/// The number of the first refiner that is no refinable property.
pub(crate) fn first_unrefinable(schema: &Schema, refiners: &[RefinerSpec]) -> Option<u32>
    requires { length refiners.now ≤ most_refiners }
    ensures { result ≡ verdict.first_without (verdict.is_refinable schema.now) 0 refiners.now }
{
    for (i, refiner) in refiners.iter().enumerate() {
        if !is_refinable(schema, refiner) {
            return Some(i as u32);
        }
    }
    None
}

/// The refiner of a property of the schema. Another name, which is refused before, is answered as want of memory.
fn refining_of<'a, L: Ledger>(
    alloc: Global,
    schema: &Schema,
    index: &'a Index,
    asked: &RefinerSpec,
    steps: &mut Steps<L>,
) -> Result<Refining<'a>, AllocError>
    requires { HasBuckets asked.now }
    ensures counts { IfOk result (λ one. spec.IsRefiningOf index.now schema.now asked.now one []) }
    ensures cost { steps.new ≤ steps.old + spec.refiner_cost index.now schema.now asked.now }
    ensures rest { IfOk result (λ one. steps.new + spec.refining_rest one ≤ steps.old + spec.refiner_cost index.now schema.now asked.now) }
{
    let Some(property) = schema.find(asked.name.as_str()) else {
        return Err(AllocError);
    };
    let refiner = Refiner::reserve(alloc, index, property, asked.bounds.as_slice(), steps)?;
    Ok(Refining { property, refiner })
}

/// The refiners of a request, which have no rows yet. All their names are of the schema.
pub(crate) fn refinings_of<'a, L: Ledger>(
    alloc: Global,
    schema: &Schema,
    index: &'a Index,
    asked: &[RefinerSpec],
    steps: &mut Steps<L>,
) -> Result<Vec<Refining<'a>>, AllocError>
    requires { All HasBuckets asked.now }
    ensures counts { IfOk result (λ all. spec.AreRefiningsOf index.now schema.now asked.now all.items []) }
    ensures cost { steps.new ≤ steps.old + sum_by (spec.refiner_cost index.now schema.now) asked.now }
    ensures rest { IfOk result (λ all. steps.new + sum_by spec.refining_rest all.items ≤ steps.old + sum_by (spec.refiner_cost index.now schema.now) asked.now) }
{
    let mut all = Vec::new(alloc);
    for one in asked {
        all.push(refining_of(alloc, schema, index, one, steps)?)?;
    }
    Ok(all)
}

/// Counts the numbers of a row, which comes behind those before.
pub(crate) fn take_row<L: Ledger>(refinings: &mut Vec<Refining<'_>>, row: u32, steps: &mut Steps<L>)
    ensures taken { (k : ℕ) → spec.Took row (slice_get refinings.old.items k) (slice_get refinings.new.items k) }
    ensures cost { steps.new + sum_by spec.refining_rest refinings.new.items ≤ steps.old + sum_by spec.refining_rest refinings.old.items }
{
    for i in 0..refinings.len() {
        refinings[i].take(row, steps);
    }
}

/// The counts of a refiner, under its property's name as the schema spells it.
fn refined(alloc: Global, schema: &Schema, one: &Refining<'_>) -> Result<Refined, AllocError>
    ensures { (index : Indexed) (asked : Asked) (rows : List ℕ) → spec.IsRefiningOf index schema.now asked one.now rows → are_rising rows ≡ true
        → IfOk result (λ shown. shown ≡ spec.refined_by index schema.now rows asked) }
{
    Ok(Refined {
        name: name_of(alloc, schema, one.property)?,
        entries: one.refiner.entries(alloc)?,
    })
}

/// The counts of each refiner.
pub(crate) fn refined_of(
    alloc: Global,
    schema: &Schema,
    refinings: &[Refining<'_>],
) -> Result<List<Refined>, AllocError>
    ensures { (index : Indexed) (asked : List Asked) (rows : List ℕ) → spec.AreRefiningsOf index schema.now asked refinings.now rows → are_rising rows ≡ true
        → IfOk result (λ all. all ≡ map (spec.refined_by index schema.now rows) asked) }
{
    let mut all = List::new(alloc);
    for one in refinings {
        all.push(refined(alloc, schema, one)?)?;
    }
    Ok(all)
}
