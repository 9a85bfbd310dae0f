//! What is collected of hits while they come.
ghost use Rattle.std.specs.Prelude.{◌≡◌, ℕ, ◌+◌, ◌<◌, ◌≤◌, ℤ, ◌+ℤ◌, true, List, [], ◌∷◌, ◌++◌, length, map, IfOk, OnOk};
ghost use Rattle.sq_model.specs.Valid.{are_rising};
ghost use Rattle.sq_packet.specs.Asked.{IsAsked};
ghost use Rattle.sq_packet.specs.declared.request.Request.{Request as Asked};
ghost use Rattle.sq_postings.specs.Indexed.{row_at};
ghost use Rattle.sq_eval.specs.Plans.{plan_left, plan_rest};
ghost use Rattle.sq_holding.specs.Held.{Held};
ghost use Rattle.sq_service.specs.Collected as spec;
ghost use Rattle.sq_service.specs.Found.{row_of, are_within, collected_cost};
ghost use Rattle.sq_service.specs.declared.sorts.Sort.{Sort as Ordered};

use crate::keys::KeySources;
use crate::refiners::{Refining, refinings_of, take_row};
use crate::sorts::{Sort, directions_of};
use sq_base::Steps;
use sq_collect::Page;
use sq_eval::Plan;
use sq_holding::Holding;
use sq_packet::Request;
use sq_postings::Index;
use sq_ranking::RankedHit;
use std::alloc::{AllocError, Global};
use std::sync::ledger::Ledger;

/// The best hits so far, the keys of those that come, and the refiners' counts. It takes memory only where it is made.
#[derive(Drop)]
pub(crate) struct Collected<'a> {
    pub(crate) page: Page,
    sources: KeySources<'a>,
    pub(crate) refinings: Vec<Refining<'a>>,
}

/// A row's rank and its boost together. A score past 64 bits is refused as want of memory.
fn score_of(index: &Index, row: u32, boost: i64) -> Result<i64, AllocError>
    requires { row < length index.now.rows }
    ensures { IfOk result (λ score. score ≡ (row_at index.now row).rank +ℤ boost) }
{
    match index.rank(row).checked_add(boost) {
        Some(score) => Ok(score),
        None => Err(AllocError),
    }
}

impl<'a> Collected<'a> {
    /// Of no hits yet.
    pub(crate) fn reserve<L: Ledger>(
        alloc: Global,
        held: &'a Holding,
        sorts: &[Sort],
        request: &Request,
        steps: &mut Steps<L>,
    ) -> Result<Collected<'a>, AllocError>
        requires asked { IsAsked request.now }
        requires few { length sorts.now ≤ 4 }
        ensures nothing { IfOk result (λ collected. spec.HasTaken held.now sorts.now request.now collected []) }
        ensures cost { steps.new ≤ steps.old + collected_cost held.now sorts.now request.now }
        ensures rest { IfOk result (λ collected. steps.new + spec.collected_rest collected ≤ steps.old + collected_cost held.now sorts.now request.now) }
    {
        let page = Page::reserve(alloc, directions_of(sorts), request.start, request.count)?;
        let sources = KeySources::new(held.index(), sorts, steps);
        let refinings = refinings_of(
            alloc,
            held.schema(),
            held.index(),
            request.refiners.as_slice(),
            steps,
        )?;
        Ok(Collected {
            page,
            sources,
            refinings,
        })
    }

    /// Takes a hit in a row behind those before, with its boost.
    fn take<L: Ledger>(
        &mut self,
        index: &Index,
        row: u32,
        boost: i64,
        steps: &mut Steps<L>,
    ) -> Result<(), AllocError>
        requires { row < length index.now.rows }
        ensures taken { (held : Held) (sorts : List Ordered) (request : Asked) (hits : List (ℕ × ℤ)) → held.index ≡ index.now
            → spec.HasTaken held sorts request self.old hits → are_rising (map row_of hits ++ row ∷ []) ≡ true
            → OnOk result (spec.HasTaken held sorts request self.new (hits ++ (row, boost) ∷ [])) }
        ensures cost { steps.new + spec.collected_rest self.new ≤ steps.old + spec.collected_rest self.old }
    {
        let score = score_of(index, row, boost)?;
        let keys = self.sources.keys(row, score, steps);
        self.page.offer(RankedHit {
            number: row,
            score,
            keys,
        });
        take_row(&mut self.refinings, row, steps);
        Ok(())
    }
}

/// Takes all hits of a plan.
pub(crate) fn collect<L: Ledger>(
    index: &Index,
    mut plan: Plan<'_>,
    collected: &mut Collected<'_>,
    steps: &mut Steps<L>,
) -> Result<(), AllocError>
    requires { are_within (length index.now.rows) (plan_left plan) ≡ true }
    ensures taken { (held : Held) (sorts : List Ordered) (request : Asked) → held.index ≡ index.now
        → spec.HasTaken held sorts request collected.old [] → are_rising (map row_of (plan_left plan.entry)) ≡ true
        → OnOk result (spec.HasTaken held sorts request collected.new (plan_left plan.entry)) }
    ensures cost { steps.new ≤ steps.old + plan_rest plan.entry + spec.collected_rest collected.old }
{
    while let Some((row, boost)) = plan.next(steps) {
        collected.take(index, row, boost, steps)?;
    }
    Ok(())
}
