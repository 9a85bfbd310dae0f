//! The numbers that a refiner counts between.
ghost use Rattle.std.specs.Prelude.{◌≡◌, ◌+◌, ◌≤◌, length, map, replicate, IfOk};
ghost use Rattle.sq_postings.specs.Indexed.{values_in};
ghost use Rattle.sq_collect.specs.Counted as spec;
ghost use Rattle.sq_collect.specs.Counted.{number_of};

use sq_base::Steps;
use sq_postings::Index;
use std::alloc::{AllocError, Global};
use std::sync::ledger::Ledger;

/// The numbers of a property, by row and then by number.
fn numbers_of<L: Ledger>(
    alloc: Global,
    index: &Index,
    property: u32,
    steps: &mut Steps<L>,
) -> Result<Vec<i64>, AllocError>
    ensures numbers { IfOk result (λ numbers. numbers.items ≡ map number_of (values_in index.now property)) }
    ensures cost { steps.new ≤ steps.old + length (values_in index.now property) }
{
    let mut numbers = Vec::new(alloc);
    let mut cursor = index.values(property, steps);
    while let Some(here) = cursor.here() {
        numbers.push(here.1)?;
        cursor.step(steps);
    }
    Ok(numbers)
}

/// The bounds, or without any each number of the property once, the least first.
pub fn marks_of<L: Ledger>(
    alloc: Global,
    index: &Index,
    property: u32,
    bounds: &[i64],
    steps: &mut Steps<L>,
) -> Result<Vec<i64>, AllocError>
    ensures marks { IfOk result (λ marks. marks.items ≡ spec.marks_of bounds.now (map number_of (values_in index.now property))) }
    ensures cost { steps.new ≤ steps.old + length (values_in index.now property) }
{
    if !bounds.is_empty() {
        return Vec::from_slice(alloc, bounds);
    }
    let mut numbers = numbers_of(alloc, index, property, steps)?;
    numbers.sort_unstable();
    numbers.dedup();
    Ok(numbers)
}

/// So many zeros.
pub fn zeros(alloc: Global, count: usize) -> Result<Vec<u64>, AllocError>
    ensures { IfOk result (λ zeros. zeros.items ≡ replicate count 0) }
{
    Vec::from_elem(alloc, 0, count)
}
