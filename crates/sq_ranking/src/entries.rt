//! The entries of a refiner.
ghost use Rattle.std.specs.Prelude.{◌≡◌, IfOk, [], length, filter};
ghost use Rattle.std.specs.List.{count_by, list_any};
ghost use Rattle.std.specs.List.Sorted.{IsSorted};
ghost use Rattle.std.specs.Ordering.{int_cmp, int_eq};
ghost use Rattle.sq_ranking.specs.Gathered.{Gathered};
ghost use Rattle.sq_ranking.specs.Ranking.{bucket, buckets, entries, in_bucket, values};

use sq_base::List;
use sq_response::Entry;
use std::alloc::{AllocError, Global};

/// The counts of a refiner over the numbers of each hit. Without bounds there is an entry for each number that some hit has,
/// the least first; else one for each bucket. A hit that has a number twice counts once.
#[tactic(auto, using(crate::proofs::CountLemmas::entries_bare, crate::proofs::CountLemmas::entries_bounded))]
pub fn entries_of(
    alloc: Global,
    bounds: &[i64],
    hits: &[List<i64>],
) -> Result<List<Entry>, AllocError>
    ensures { IfOk result (λ found. found ≡ entries bounds.now hits.now) }
{
    if bounds.is_empty() {
        singles_of(alloc, hits)
    } else {
        buckets_of(alloc, bounds, hits)
    }
}

/// An entry for each number that some hit has.
fn singles_of(alloc: Global, hits: &[List<i64>]) -> Result<List<Entry>, AllocError>
    ensures { IfOk result (λ found. found ≡ entries [] hits.now) }
{
    let numbers = gathered(alloc, hits)?;
    let once = values_of(alloc, &numbers)?;
    let mut found = List::new(alloc);
    for &value in &once {
        let count = count_of(&numbers, value);
        found.push(Entry::Single { value, count })?;
    }
    Ok(found)
}

/// The numbers of all hits, each once for each hit that has it, the least first.
fn gathered(alloc: Global, hits: &[List<i64>]) -> Result<Vec<i64>, AllocError>
    ensures { IfOk result (λ numbers. Gathered hits.now numbers.items) }
{
    let mut numbers = Vec::new(alloc);
    for hit in hits {
        let once = values_of(alloc, hit.as_slice())?;
        numbers.extend_from_slice(&once)?;
    }
    numbers.sort_unstable();
    Ok(numbers)
}

/// Each number once, the least first.
fn values_of(alloc: Global, numbers: &[i64]) -> Result<Vec<i64>, AllocError>
    ensures { IfOk result (λ once. once.items ≡ values numbers.now) }
{
    let mut once = Vec::from_slice(alloc, numbers)?;
    once.sort_unstable();
    once.dedup();
    Ok(once)
}

/// How often the value stands among numbers that do not fall.
fn count_of(numbers: &[i64], value: i64) -> u64
    requires { IsSorted int_cmp numbers.now }
    ensures { result ≡ count_by (int_eq value) numbers.now }
{
    let from = numbers.partition_point(|&number| number < value);
    let to = numbers.partition_point(|&number| number <= value);
    (to - from) as u64
}

/// An entry for each bucket.
fn buckets_of(alloc: Global, bounds: &[i64], hits: &[List<i64>]) -> Result<List<Entry>, AllocError>
    ensures { IfOk result (λ found. found ≡ buckets hits.now None bounds.now) }
{
    let mut found = List::new(alloc);
    let mut from = None;
    for &bound in bounds {
        let to = Some(bound);
        found.push(bucket_of(hits, from, to))?;
        from = to;
    }
    found.push(bucket_of(hits, from, None))?;
    Ok(found)
}

/// The entry of one bucket.
fn bucket_of(hits: &[List<i64>], from: Option<i64>, to: Option<i64>) -> Entry
    ensures { result ≡ bucket hits.now from to }
{
    let count = count_in(hits, from, to);
    Entry::Bucket { from, to, count }
}

/// How many hits have a number of the bucket.
fn count_in(hits: &[List<i64>], from: Option<i64>, to: Option<i64>) -> u64
    ensures { result ≡ length (filter (list_any (in_bucket from to)) hits.now) }
{
    let mut count = 0;
    for hit in hits {
        if has_one(hit.as_slice(), from, to) {
            count += 1;
        }
    }
    count
}

/// Whether one of the numbers is in the bucket.
fn has_one(numbers: &[i64], from: Option<i64>, to: Option<i64>) -> bool
    ensures { result ≡ list_any (in_bucket from to) numbers.now }
{
    for &number in numbers {
        if is_inside(from, to, number) {
            return true;
        }
    }
    false
}

/// At least `from` and below `to`, as far as they are there.
fn is_inside(from: Option<i64>, to: Option<i64>, number: i64) -> bool
    ensures { result ≡ in_bucket from to number }
{
    let is_not_below = match from {
        Some(from) => from <= number,
        None => true,
    };
    let is_below = match to {
        Some(to) => number < to,
        None => true,
    };
    is_not_below & is_below
}
