//! What is found of the hits.
ghost use Rattle.std.specs.Prelude.{◌≡◌, ℕ, ◌+◌, ◌≤◌, ℤ, true, List, length, map, sum_by, IfOk};
ghost use Rattle.sq_model.specs.Valid.{are_rising};
ghost use Rattle.sq_packet.specs.Asked.{IsAsked};
ghost use Rattle.sq_eval.specs.Plans.{plan_left, plan_rest};
ghost use Rattle.sq_engine.specs.Answer.{rows_of as rows_asked};
ghost use Rattle.sq_service.specs.Collected.{HasTaken};
ghost use Rattle.sq_service.specs.Found as spec;
ghost use Rattle.sq_service.specs.declared.sorts.Sort.{Sort as Ordered};

use crate::collected::{Collected, collect};
use crate::listed::listed_hits;
use crate::refiners::refined_of;
use crate::rows::rows_of;
use crate::sorts::Sort;
use sq_base::Steps;
use sq_eval::Plan;
use sq_holding::Holding;
use sq_packet::Request;
use sq_response::Found;
use std::alloc::{AllocError, Global};
use std::sync::ledger::Ledger;

/// The page, the number of hits and the refiners' counts.
fn found_in<L: Ledger>(
    alloc: Global,
    held: &Holding,
    collected: Collected<'_>,
    request: &Request,
    steps: &mut Steps<L>,
) -> Result<Found, AllocError>
    ensures found { (sorts : List Ordered) (hits : List (ℕ × ℤ)) → HasTaken held.now sorts request.now collected.entry hits → are_rising (map spec.row_of hits) ≡ true
        → IfOk result (λ found. found ≡ spec.found_of held.now sorts request.now hits) }
    ensures cost { (sorts : List Ordered) (hits : List (ℕ × ℤ)) → HasTaken held.now sorts request.now collected.entry hits → are_rising (map spec.row_of hits) ≡ true
        → steps.new ≤ steps.old + spec.page_cost held.now sorts request.now hits }
{
    let schema = held.schema();
    let rows = rows_of(alloc, schema, request.properties.as_slice())?;
    let total = collected.page.total();
    let refiners = refined_of(alloc, schema, collected.refinings.as_slice())?;
    let page = collected.page.finish();
    let hits = listed_hits(alloc, held, rows.as_slice(), page.as_slice(), steps)?;
    Ok(Found {
        start: request.start,
        total,
        hits,
        refiners,
    })
}

/// The same; `None` where there is no hit.
fn found_if_some<L: Ledger>(
    alloc: Global,
    held: &Holding,
    collected: Collected<'_>,
    request: &Request,
    steps: &mut Steps<L>,
) -> Result<Option<Found>, AllocError>
    ensures found { (sorts : List Ordered) (hits : List (ℕ × ℤ)) → HasTaken held.now sorts request.now collected.entry hits → are_rising (map spec.row_of hits) ≡ true
        → IfOk result (λ found. found ≡ spec.found_by held.now sorts request.now hits) }
    ensures cost { (sorts : List Ordered) (hits : List (ℕ × ℤ)) → HasTaken held.now sorts request.now collected.entry hits → are_rising (map spec.row_of hits) ≡ true
        → steps.new ≤ steps.old + spec.page_cost held.now sorts request.now hits }
{
    if collected.page.total() == 0 {
        return Ok(None);
    }
    let found = found_in(alloc, held, collected, request, steps)?;
    Ok(Some(found))
}

/// The page of a plan's hits, their number, and the counts of each refiner over all of them; `None` where there is no hit.
pub(crate) fn found_of<L: Ledger>(
    alloc: Global,
    held: &Holding,
    plan: Plan<'_>,
    sorts: &[Sort],
    request: &Request,
    steps: &mut Steps<L>,
) -> Result<Option<Found>, AllocError>
    requires asked { IsAsked request.now }
    requires few { length sorts.now ≤ 4 }
    requires rising { are_rising (map spec.row_of (plan_left plan)) ≡ true }
    requires within { spec.are_within (length held.now.index.rows) (plan_left plan) ≡ true }
    ensures found { IfOk result (λ found. found ≡ spec.found_by held.now sorts.now request.now (plan_left plan.entry)) }
    ensures cost { steps.new ≤ steps.old + plan_rest plan.entry + spec.collected_cost held.now sorts.now request.now
        + spec.page_cost held.now sorts.now request.now (plan_left plan.entry) }
{
    let mut collected = Collected::reserve(alloc, held, sorts, request, steps)?;
    collect(held.index(), plan, &mut collected, steps)?;
    let found = found_if_some(alloc, held, collected, request, steps)?;
    Ok(found)
}
