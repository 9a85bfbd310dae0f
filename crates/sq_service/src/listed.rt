//! The items of a page as they are listed.
ghost use Rattle.std.specs.Prelude.{◌≡◌, ◌+◌, ◌<◌, ◌≤◌, ◌++◌, length, option_to_list, sum_by, IfOk, OnOk};
ghost use Rattle.std.specs.List.{filter_map};
ghost use Rattle.sq_service.specs.Listed as spec;

use crate::shown::shown_values;
use sq_base::{List, Steps, Text};
use sq_holding::Holding;
use sq_ranking::RankedHit;
use sq_response::Hit;
use std::alloc::{AllocError, Global};
use std::sync::ledger::Ledger;

/// An item as it is listed.
fn listed<L: Ledger>(
    alloc: Global,
    held: &Holding,
    properties: &[u32],
    ranked: &RankedHit,
    url: &str,
    steps: &mut Steps<L>,
) -> Result<Hit, AllocError>
    requires { ranked.now.number < length held.now.index.rows }
    ensures hit { IfOk result (λ hit. hit ≡ spec.listed held.now properties.now ranked.now url.now) }
    ensures cost { steps.new ≤ steps.old + spec.listed_cost held.now properties.now ranked.now }
{
    let row = ranked.number;
    Ok(Hit {
        number: held.index().number(row),
        score: ranked.score,
        url: Text::from_str(alloc, url)?,
        values: shown_values(alloc, held.schema(), held.stored(), row, properties, steps)?,
    })
}

/// The item of a hit as it is listed.
fn hit_at<L: Ledger>(
    alloc: Global,
    held: &Holding,
    properties: &[u32],
    ranked: &RankedHit,
    steps: &mut Steps<L>,
) -> Result<Option<Hit>, AllocError>
    ensures hit { IfOk result (λ hit. hit ≡ spec.listed_by held.now properties.now ranked.now) }
    ensures cost { steps.new ≤ steps.old + spec.listed_cost held.now properties.now ranked.now }
{
    held.tells();
    match held.stored().url(ranked.number) {
        Some(url) => Ok(Some(listed(alloc, held, properties, ranked, url, steps)?)),
        None => Ok(None),
    }
}

/// Adds the item of a hit.
fn add_hit<L: Ledger>(
    alloc: Global,
    held: &Holding,
    properties: &[u32],
    ranked: &RankedHit,
    hits: &mut List<Hit>,
    steps: &mut Steps<L>,
) -> Result<(), AllocError>
    ensures hits { OnOk result (hits.new ≡ hits.old ++ option_to_list (spec.listed_by held.now properties.now ranked.now)) }
    ensures cost { steps.new ≤ steps.old + spec.listed_cost held.now properties.now ranked.now }
{
    if let Some(hit) = hit_at(alloc, held, properties, ranked, steps)? {
        hits.push(hit)?;
    }
    Ok(())
}

/// The items of a page as they are listed, with the values of these properties.
pub(crate) fn listed_hits<L: Ledger>(
    alloc: Global,
    held: &Holding,
    properties: &[u32],
    page: &[RankedHit],
    steps: &mut Steps<L>,
) -> Result<List<Hit>, AllocError>
    ensures hits { IfOk result (λ hits. hits ≡ filter_map (spec.listed_by held.now properties.now) page.now) }
    ensures cost { steps.new ≤ steps.old + sum_by (spec.listed_cost held.now properties.now) page.now }
{
    let mut hits = List::new(alloc);
    for ranked in page {
        add_hit(alloc, held, properties, ranked, &mut hits, steps)?;
    }
    Ok(hits)
}
