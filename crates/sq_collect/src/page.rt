ghost use Rattle.std.specs.Prelude.{◌*◌, ◌<◌, ◌≤◌, vec_len, vec_capacity};
ghost use Rattle.sq_packet.specs.Limits.{greatest_page_end};

use crate::kept::{cut, cut_to_places, rank};
use sq_base::List;
use sq_ranking::{Directions, RankedHit};
use std::alloc::{AllocError, Global};
use std::cmp::Ordering;

/// The best hits so far, in the order of a request, and how many there were. The number of a hit is its
/// row here, and the rows rise.
#[derive(Drop)]
pub struct Page {
    order: Directions,
    /// How many places lie before the page.
    before: u32,
    /// The most hits on the page.
    count: u32,
    /// How many hits, the best first, can matter.
    limit: u32,
    total: u64,
    kept: Vec<RankedHit>,
    /// A hit that does not come before this one is not on the page.
    bar: Option<RankedHit>,
    ghost has_room: { 2 * limit < vec_capacity kept },
    ghost within: { vec_len kept ≤ 2 * limit },
}

impl Page {
    ghost use Rattle.std.specs.Prelude.{◌≡◌, ℕ, ◌+◌, ◌≤◌, true, List, [], ◌∷◌, ◌++◌, length, map, IfOk};
    ghost use Rattle.sq_model.specs.Valid.{are_rising};
    ghost use Rattle.sq_ranking.specs.Keys.{directions_of, ranked_hit};
    ghost use Rattle.sq_ranking.specs.Ranking.{page_by};
    ghost use Rattle.sq_collect.specs.Best as best;
    ghost use Rattle.sq_collect.specs.Best.{row};
    ghost use Rattle.sq_collect.specs.Paged.{Keeps, IsPageOf, IsSameRequest};

    /// A page with no hits yet: its places are those from `start` on, counted from 1, at most `count` of
    /// them. It takes the memory for all hits that come.
    pub fn reserve(
        alloc: Global,
        order: Directions,
        start: u32,
        count: u32,
    ) -> Result<Page, AllocError>
        requires first { 1 ≤ start }
        requires last { start + count ≤ greatest_page_end }
        ensures { IfOk result (λ page. IsPageOf order start count page []) }
    {
        let before = start - 1;
        let limit = before + count;
        let kept = Vec::with_capacity(alloc, 2 * limit as usize + 1)?;
        Ok(Page {
            order,
            before,
            count,
            limit,
            total: 0,
            kept,
            bar: None,
        })
    }

    /// Counts the next hit, and keeps it where it may be on the page. It takes no memory, and mostly one
    /// comparison once the page is full.
    pub fn offer(&mut self, hit: RankedHit)
        ensures { (order : Directions) (start count : ℕ) (hits : List RankedHit) → IsPageOf order start count self.old hits → are_rising (map row (hits ++ hit ∷ [])) ≡ true → IsPageOf order start count self.new (hits ++ hit ∷ []) }
    {
        self.total = self.total.saturating_add(1);
        if self.is_past(&hit) {
            return;
        }
        self.keep(hit);
    }

    /// How many hits there were.
    pub fn total(&self) -> u64
        ensures { (order : Directions) (start count : ℕ) (hits : List RankedHit) → IsPageOf order start count self.now hits → are_rising (map row hits) ≡ true → result ≡ length hits }
    {
        self.total
    }

    /// The hits on the page, in its order. It takes no memory.
    pub fn finish(self) -> List<RankedHit>
        ensures { (order : Directions) (start count : ℕ) (hits : List RankedHit) → IsPageOf order start count self hits → are_rising (map row hits) ≡ true → result ≡ page_by ranked_hit (directions_of order) start count hits }
    {
        let Page {
            order,
            before,
            count,
            mut kept,
            ..
        } = self;
        rank(&mut kept, order);
        cut_to_places(&mut kept, before, count);
        List::from_vec(kept)
    }

    /// Whether the hit is not on the page, by the bar.
    fn is_past(&self, hit: &RankedHit) -> bool
        ensures { result ≡ best.is_past self.now.order self.now.bar hit.now }
    {
        match &self.bar {
            Some(bar) => hit.compare(bar, &self.order) != Ordering::Less,
            None => false,
        }
    }

    /// Keeps the hit, and cuts what is kept to the best once there is twice as much as can matter.
    fn keep(&mut self, hit: RankedHit)
        ensures same { IsSameRequest self.old self.new }
        ensures kept { (hits : List RankedHit) → are_rising (map row (hits ++ hit ∷ [])) ≡ true → Keeps self.old hits → Keeps self.new (hits ++ hit ∷ []) }
    {
        if self.kept.push(hit).is_err() {
            unreachable!()
        }
        let limit = self.limit as usize;
        if self.kept.len() > 2 * limit {
            self.bar = cut(&mut self.kept, self.order, limit);
        }
    }
}
