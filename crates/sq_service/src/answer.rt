//! The answer to a request.
ghost use Rattle.std.specs.Prelude.{◌≡◌, ◌+◌, ◌≤◌, Ok, true, length, map};
ghost use Rattle.std.specs.List.{list_all};
ghost use Rattle.sq_schema.specs.Intervals.{clamped};
ghost use Rattle.sq_model.specs.Access.{view};
ghost use Rattle.sq_model.specs.FqlSound.{IsSound};
ghost use Rattle.sq_model.specs.declared.corpus.Corpus.{Corpus};
ghost use Rattle.sq_packet.specs.Asked.{IsAsked};
ghost use Rattle.sq_holding.specs.Holds.{Holds};
ghost use Rattle.sq_engine.specs.Answers.{Answers};
ghost use Rattle.sq_engine.specs.Price as price;
ghost use Rattle.sq_engine.specs.Query as query;
ghost use Rattle.sq_engine.specs.Verdict as verdict;
ghost use Rattle.sq_service.specs.Sorts.{sort_of, is_within};

use crate::callers::caller_named;
use crate::found::found_of;
use crate::refiners::first_unrefinable;
use crate::sorts::{Sort, sorts_of};
use sq_base::{Fault, Steps, Text};
use sq_collect::columns_count_as_numbers;
use sq_engine::{Refused, tree_of};
use sq_eval::Plan;
use sq_holding::Holding;
use sq_model::{FTree, Joiner};
use sq_packet::Request;
use sq_response::Response;
use sq_stored::{stored_urls_stand, stored_values_stand};
use std::alloc::Global;
use std::sync::ledger::Ledger;

/// How operands that stand side by side in a KQL text are joined.
fn joiner_of(request: &Request) -> Joiner
    ensures { result ≡ query.joiner_of request.now }
{
    if request.implicit_and {
        Joiner::All
    } else {
        Joiner::Any
    }
}

/// Answers by a tree and by sorts.
fn answer_sorted<L: Ledger>(
    alloc: Global,
    held: &Holding,
    claims: &[Text],
    tree: &FTree,
    sorts: &[Sort],
    request: &Request,
    steps: &mut Steps<L>,
) -> Result<Response, Refused>
    requires asked { IsAsked request.now }
    requires sound { IsSound held.now.schema tree.now }
    requires few { length sorts.now ≤ 4 }
    requires within { list_all (is_within held.now.schema) sorts.now ≡ true }
    ensures says { (corpus : Corpus) → Holds held.now corpus
        → Answers (verdict.sorts_verdict corpus.schema (price.meaning_by_tree corpus.schema tree.now) request.now (view corpus claims.now) (Ok (map sort_of sorts.now))) result }
    ensures price { (corpus : Corpus) → Holds held.now corpus
        → steps.new ≤ steps.old + price.sorts_price corpus claims.now request.now tree.now (Ok (map sort_of sorts.now)) }
{
    held.tells();
    columns_count_as_numbers();
    stored_urls_stand();
    stored_values_stand();
    let plan = Plan::begin(alloc, held.index(), claims, tree, steps)?;
    match found_of(alloc, held, plan, sorts, request, steps)? {
        Some(found) => Ok(Response::Found(found)),
        None => Ok(Response::Nothing),
    }
}

/// Answers by a tree.
fn answer_by<L: Ledger>(
    alloc: Global,
    held: &Holding,
    claims: &[Text],
    tree: &FTree,
    request: &Request,
    steps: &mut Steps<L>,
) -> Result<Response, Refused>
    requires asked { IsAsked request.now }
    requires sound { IsSound held.now.schema tree.now }
    ensures says { (corpus : Corpus) → Holds held.now corpus
        → Answers (verdict.refiners_verdict corpus.schema (price.meaning_by_tree corpus.schema tree.now) request.now (view corpus claims.now)
        (verdict.first_without (verdict.is_refinable corpus.schema) 0 request.now.refiners)) result }
    ensures price { (corpus : Corpus) → Holds held.now corpus
        → steps.new ≤ steps.old + price.refiners_price corpus claims.now request.now tree.now
        (verdict.first_without (verdict.is_refinable corpus.schema) 0 request.now.refiners) }
{
    if let Some(i) = first_unrefinable(held.schema(), request.refiners.as_slice()) {
        return Err(Refused::UnknownRefiner(i));
    }
    match sorts_of(alloc, held.schema(), request.sorts.as_slice())? {
        Ok(sorts) => answer_sorted(alloc, held, claims, tree, sorts.as_slice(), request, steps),
        Err(i) => Err(Refused::UnknownSort(i)),
    }
}

/// Answers a caller with these claims.
fn answer_holder<L: Ledger>(
    alloc: Global,
    held: &Holding,
    claims: &[Text],
    now: i64,
    request: &Request,
    steps: &mut Steps<L>,
) -> Result<Response, Refused>
    requires asked { IsAsked request.now }
    requires now { now ≡ clamped now }
    ensures says { (corpus : Corpus) → Holds held.now corpus
        → Answers (verdict.text_verdict corpus.schema request.now (view corpus claims.now) (verdict.meaning_of corpus.schema now request.now)) result }
    ensures price { (corpus : Corpus) → Holds held.now corpus
        → steps.new ≤ steps.old + price.text_price corpus claims.now request.now
        (query.tree_of corpus.schema now (query.joiner_of request.now) request.now.language request.now.text) }
{
    let text = request.text.as_str();
    match tree_of(
        alloc,
        held.schema(),
        joiner_of(request),
        request.language,
        text,
        now,
    ) {
        Ok(tree) => answer_by(alloc, held, claims, &tree, request, steps),
        Err(Fault::Query(fault)) => Err(Refused::Query(fault)),
        Err(Fault::NoMemory) => Err(Refused::NoMemory),
    }
}

/// Answers what is said of the corpus that is held to the caller of this name, at a moment, in UTC seconds since
/// 1970-01-01T00:00:00Z.
#[tactic(auto, unfolding(sq_engine::specs::Verdict::said, sq_engine::specs::Price::price_to))]
pub(crate) fn answer<L: Ledger>(
    alloc: Global,
    held: &Holding,
    caller: &[u8],
    now: i64,
    request: &Request,
    steps: &mut Steps<L>,
) -> Result<Response, Refused>
    requires asked { IsAsked request.now }
    requires now { now ≡ clamped now }
    ensures says { (corpus : Corpus) → Holds held.now corpus → Answers (verdict.verdict corpus caller.now now request.now) result }
    ensures price { (corpus : Corpus) → Holds held.now corpus → steps.new ≤ steps.old + price.price corpus caller.now now request.now }
{
    match caller_named(held.callers().as_slice(), caller) {
        Some(caller) => answer_holder(alloc, held, caller.claims.as_slice(), now, request, steps),
        None => Err(Refused::UnknownCaller),
    }
}
