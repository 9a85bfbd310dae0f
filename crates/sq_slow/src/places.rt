//! Where a pattern fits, by trying each place.
ghost use Rattle.std.specs.Prelude.{◌≡◌, IfOk};
ghost use Rattle.sq_model.specs.Places.{places, is_edge, fits_edge};
ghost use Rattle.sq_model.specs.Triples.{at_place, of_phrase};

use sq_base::List;
use sq_model::Triple;
use sq_tokens::{Pattern, Tokens, fits};
use std::alloc::{AllocError, Global};

pub fn places(alloc: Global, pattern: &Pattern, passage: &Tokens) -> Result<List<usize>, AllocError>
    ensures { IfOk result (λ found. found ≡ places pattern.now passage.now) }
{
    let mut found = List::new(alloc);
    for i in 0..passage.len() {
        if fits(pattern, passage, i) {
            found.push(i)?;
        }
    }
    Ok(found)
}

/// Gives up, as for want of memory, where a place passes 64 bits.
fn at_place(m: usize, i: usize) -> Result<Triple, AllocError>
    ensures { IfOk result (λ found. found ≡ at_place m i) }
{
    let Some(end) = i.checked_add(m) else {
        return Err(AllocError);
    };
    Ok(Triple {
        first: i as u64,
        last: end.saturating_sub(1) as u64,
        weight: m as u64,
    })
}

pub fn of_phrase(
    alloc: Global,
    pattern: &Pattern,
    passage: &Tokens,
) -> Result<List<Triple>, AllocError>
    ensures { IfOk result (λ found. found ≡ of_phrase pattern.now passage.now) }
{
    let mut found = List::new(alloc);
    let all_places = places(alloc, pattern, passage)?;
    let m = pattern.len();
    for i in all_places.as_slice() {
        found.push(at_place(m, *i)?)?;
    }
    Ok(found)
}

fn is_edge(starts: bool, ends: bool, m: usize, len: usize, i: usize) -> bool
    ensures { result ≡ is_edge starts ends m len i }
{
    (!starts || i == 0) && (!ends || (i <= len && len - i == m))
}

pub fn fits_edge(
    alloc: Global,
    pattern: &Pattern,
    starts: bool,
    ends: bool,
    passage: &Tokens,
) -> Result<bool, AllocError>
    ensures { IfOk result (λ b. b ≡ fits_edge pattern.now starts ends passage.now) }
{
    let m = pattern.len();
    let len = passage.len();
    let found = places(alloc, pattern, passage)?;
    Ok(
        found
            .as_slice()
            .iter()
            .any(|i| is_edge(starts, ends, m, len, *i)),
    )
}
