ghost use Rattle.std.specs.Prelude.{◌≡◌, ℕ, ◌+◌, ◌<◌, ◌^◌, ◌==◌, slice_index, if◌then◌else◌, OnOk};
ghost use Rattle.sq_base.specs.Limits.{most_values};

use std::alloc::AllocError;

/// The number at a place, and 0 past the end.
pub(crate) fn count_at(counts: &[u32], place: usize) -> u32
    ensures { result ≡ slice_index counts.now place }
{
    if place < counts.len() {
        counts[place]
    } else {
        0
    }
}

/// Adds 1 at a place.
pub(crate) fn add_one(counts: &mut Vec<u32>, place: usize) -> Result<(), AllocError>
    requires few { slice_index counts.old.items place < most_values }
    requires within { place < 2 ^ 32 }
    ensures { OnOk result ((p : ℕ) → slice_index counts.new.items p ≡ slice_index counts.old.items p + (if place == p then 1 else 0)) }
{
    if place >= counts.len() {
        counts.resize(place + 1, 0)?;
    }
    counts[place] += 1;
    Ok(())
}
