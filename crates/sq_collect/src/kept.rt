//! Hits in the order of a request, cut to those that matter.
ghost use Rattle.std.specs.Prelude.{◌≡◌, ◌≤◌, take, drop, vec_len, vec_capacity};
ghost use Rattle.std.specs.List.Sorted.{IsPermutation, IsSortedBy};
ghost use Rattle.sq_collect.specs.Best.{before, IsCut};

use sq_ranking::{Directions, RankedHit};

/// Puts the hits in order.
pub fn rank(kept: &mut Vec<RankedHit>, order: Directions)
    ensures moved { IsPermutation kept.old.items kept.new.items }
    ensures rises { IsSortedBy (before order) kept.new.items }
    ensures len { vec_len kept.new ≡ vec_len kept.old }
    ensures capacity { vec_capacity kept.new ≡ vec_capacity kept.old }
{
    kept.sort_unstable_by(|a, b| a.compare(b, &order));
}

/// Puts the hits in order, drops all but the first `limit`, and gives the last of those.
pub fn cut(kept: &mut Vec<RankedHit>, order: Directions, limit: usize) -> Option<RankedHit>
    ensures cut { IsCut order limit kept.old.items kept.new.items result }
    ensures len { vec_len kept.new ≤ limit }
    ensures capacity { vec_capacity kept.new ≡ vec_capacity kept.old }
{
    rank(kept, order);
    kept.truncate(limit);
    kept.last().copied()
}

/// Drops the first `skipped` hits, and all but `count` of the others.
pub fn cut_to_places(kept: &mut Vec<RankedHit>, skipped: u32, count: u32)
    ensures { kept.new.items ≡ take count (drop skipped kept.old.items) }
{
    let from = (skipped as usize).min(kept.len());
    let behind = kept.len() - from;
    kept.rotate_left(from);
    kept.truncate((count as usize).min(behind));
}
