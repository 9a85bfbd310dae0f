//! The entries of a refiner, by its counts.
ghost use Rattle.std.specs.Prelude.{◌≡◌, ◌++◌, IfOk, OnOk};
ghost use Rattle.sq_collect.specs.Counted as spec;

use sq_base::List;
use sq_response::Entry;
use std::alloc::{AllocError, Global};

/// The count at a place, and 0 past the end.
fn count_in(counts: &[u64], place: usize) -> u64
    ensures { result ≡ spec.count_in counts.now place }
{
    counts.get(place).copied().unwrap_or(0)
}

/// An entry for each mark whose count is not 0.
pub fn singles_of(alloc: Global, marks: &[i64], counts: &[u64]) -> Result<List<Entry>, AllocError>
    ensures { IfOk result (λ found. found ≡ spec.counted_singles (spec.count_in counts.now) 0 marks.now) }
{
    let mut found = List::new(alloc);
    for (i, &value) in marks.iter().enumerate() {
        push_single(&mut found, value, count_in(counts, i + 1))?;
    }
    Ok(found)
}

/// Adds an entry for a value, unless its count is 0.
fn push_single(found: &mut List<Entry>, value: i64, count: u64) -> Result<(), AllocError>
    ensures { OnOk result (found.new ≡ found.old ++ spec.single_of value count) }
{
    if count == 0 {
        return Ok(());
    }
    found.push(Entry::Single { value, count })
}

/// An entry for each place between the marks.
pub fn buckets_of(alloc: Global, marks: &[i64], counts: &[u64]) -> Result<List<Entry>, AllocError>
    ensures { IfOk result (λ found. found ≡ spec.counted_buckets (spec.count_in counts.now) 0 None marks.now) }
{
    let mut found = List::new(alloc);
    let mut from = None;
    for (i, &mark) in marks.iter().enumerate() {
        let to = Some(mark);
        let count = count_in(counts, i);
        found.push(Entry::Bucket { from, to, count })?;
        from = to;
    }
    let count = count_in(counts, marks.len());
    found.push(Entry::Bucket {
        from,
        to: None,
        count,
    })?;
    Ok(found)
}
