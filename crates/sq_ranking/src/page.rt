//! The page of an answer.
ghost use Rattle.std.specs.Prelude.{◌≡◌, ◌-◌, true, map, take, drop};
ghost use Rattle.sq_model.specs.Valid.{are_rising};
ghost use Rattle.sq_ranking.specs.Keys.{directions_of, ranked_hit};
ghost use Rattle.sq_ranking.specs.Ranking as spec;

use crate::keys::{Directions, RankedHit};

/// Puts the hits in the order that is asked for, and gives those at the places from `start` on, counted from 1, at most
/// `count` of them. The hits come in order of number. It takes no memory.
pub fn page_of<'a>(
    hits: &'a mut Vec<RankedHit>,
    order: Directions,
    start: u32,
    count: u32,
) -> &'a [RankedHit]
    requires { are_rising (map (λ hit. hit.number) hits.now.items) ≡ true }
    ensures { result.now ≡ spec.page_by ranked_hit (directions_of order) start count hits.old.items }
{
    rank(hits, order);
    page_in(hits, start, count)
}

/// Puts the hits in the order that is asked for.
fn rank(hits: &mut [RankedHit], order: Directions)
    requires { are_rising (map (λ hit. hit.number) hits.old) ≡ true }
    ensures { hits.new ≡ spec.ordered_by ranked_hit (directions_of order) hits.old }
{
    hits.sort_unstable_by(|a, b| a.compare(b, &order));
}

/// The hits at the places from `start` on, counted from 1, at most `count` of them.
fn page_in(ranked: &[RankedHit], start: u32, count: u32) -> &[RankedHit]
    ensures { result.now ≡ take count (drop (start - 1) ranked.now) }
{
    let from = (start.saturating_sub(1) as usize).min(ranked.len());
    let behind = &ranked[from..];
    let count = (count as usize).min(behind.len());
    &behind[..count]
}
