//! The claims of items, each with the rows of the items that have it.
ghost use Rattle.std.specs.Prelude.{◌≡◌, ℕ, ◌<◌, ◌^◌, true, false, [], ◌∷◌, ◌++◌, List, Some, length, map, if◌then◌else◌, IfOk, OnOk, string_eq};
ghost use Rattle.std.specs.HashMap.{get_by_text, IsUnique};
ghost use Rattle.std.specs.List.{list_any};
ghost use Rattle.std.specs.List.Sorted.{IsPermutation, IsSortedBy};
ghost use Rattle.std.specs.Ordering.{is_lt};
ghost use Rattle.std.specs.Str.{bytes_eq};
ghost use Rattle.sq_postings.specs.Indexed.{rows_with};
ghost use Rattle.sq_postings.specs.Kept.{are_claims};
ghost use Rattle.sq_postings.specs.Occurrences.{rows_from};
ghost use Rattle.sq_postings.specs.Rising.{claim_before};
ghost use Rattle.sq_build.specs.Claims.{ends_with, with_row, rows_under, claims_of, has_claim, claim_of};

use sq_base::{List, Text};
use sq_model::Item;
use sq_postings::Claim;
use std::alloc::{AllocError, Global};
use std::cmp::Ordering;
use std::collections::HashMap;

/// Whether this row is the last one.
fn ends_with(rows: &[u32], row: u32) -> bool
    ensures { result ≡ ends_with rows.now row }
{
    let count = rows.len();
    count > 0 && rows[count - 1] == row
}

/// Adds a row behind the others, unless it is the last one.
fn push_row(rows: &mut List<u32>, row: u32) -> Result<(), AllocError>
    ensures { OnOk result (rows.new ≡ with_row rows.old row) }
{
    if ends_with(rows.as_slice(), row) {
        return Ok(());
    }
    rows.push(row)?;
    Ok(())
}

/// Adds a row to those of a claim, unless it is the last of them.
fn add_row(
    alloc: Global,
    rows: &mut HashMap<String, List<u32>>,
    claim: &str,
    row: u32,
) -> Result<(), AllocError>
    ensures { OnOk result ((t : List ℕ) → rows_under (get_by_text rows.new t)
        ≡ (if bytes_eq claim.now t then with_row (rows_under (get_by_text rows.old t)) row else rows_under (get_by_text rows.old t))) }
{
    if let Some(found) = rows.get_mut(claim) {
        push_row(found, row)?;
        return Ok(());
    }
    let mut first = List::new(alloc);
    first.push(row)?;
    rows.insert(String::from_str(alloc, claim)?, first)?;
    Ok(())
}

/// Adds the row of an item to those of each of its claims.
fn add_claims(
    alloc: Global,
    rows: &mut HashMap<String, List<u32>>,
    claims: &[Text],
    row: u32,
) -> Result<(), AllocError>
    requires { (t : List ℕ) → ends_with (rows_under (get_by_text rows.old t)) row ≡ false }
    ensures { OnOk result ((t : List ℕ) → rows_under (get_by_text rows.new t)
        ≡ rows_under (get_by_text rows.old t) ++ (if list_any (bytes_eq t) claims.now then row ∷ [] else [])) }
{
    for claim in claims {
        add_row(alloc, rows, claim.as_str(), row)?;
    }
    Ok(())
}

fn claims_of(item: &Item, denied: bool) -> &[Text]
    ensures { result.now ≡ claims_of denied item.now }
{
    if denied {
        item.deny.as_slice()
    } else {
        item.allow.as_slice()
    }
}

fn rows_by_claim(
    alloc: Global,
    items: &[Item],
    denied: bool,
) -> Result<HashMap<String, List<u32>>, AllocError>
    requires { length items.now < 2 ^ 32 }
    ensures { IfOk result (λ rows. (t : List ℕ) → rows_under (get_by_text rows t) ≡ rows_from 0 (has_claim denied t) items.now) }
{
    let mut rows = HashMap::new(alloc);
    for (row, item) in items.iter().enumerate() {
        add_claims(alloc, &mut rows, claims_of(item, denied), row as u32)?;
    }
    Ok(rows)
}

/// The claims with their rows, in no order.
fn claims_in(alloc: Global, rows: HashMap<String, List<u32>>) -> Result<Vec<Claim>, AllocError>
    ensures claims { IfOk result (λ claims. claims.items ≡ map claim_of rows.entries) }
    ensures unique { IsUnique string_eq rows }
{
    let mut claims = Vec::new(alloc);
    for (claim, list) in rows {
        claims.push(Claim {
            claim: Text::from_string(claim),
            rows: list,
        })?;
    }
    Ok(claims)
}

fn compare(a: &Claim, b: &Claim) -> Ordering
    ensures { is_lt result ≡ claim_before a.now b.now }
{
    a.claim.as_str().cmp(b.claim.as_str())
}

fn sort(claims: &mut Vec<Claim>)
    ensures permutation { IsPermutation claims.old.items claims.new.items }
    ensures sorted { IsSortedBy claim_before claims.new.items }
{
    claims.sort_unstable_by(|a, b| compare(a, b));
}

/// The claims that deny, or those that admit, by their bytes, each with the rows of the items that have
/// it: one of the two lists of claims of an index's parts.
pub fn sorted_claims(alloc: Global, items: &[Item], denied: bool) -> Result<Vec<Claim>, AllocError>
    requires { length items.now < 2 ^ 32 }
    ensures kept { IfOk result (λ claims. are_claims claims.items ≡ true) }
    ensures rows { IfOk result (λ claims. (claim : List ℕ) → rows_with claim claims.items ≡ rows_from 0 (has_claim denied claim) items.now) }
{
    let rows = rows_by_claim(alloc, items, denied)?;
    let mut claims = claims_in(alloc, rows)?;
    sort(&mut claims);
    Ok(claims)
}
