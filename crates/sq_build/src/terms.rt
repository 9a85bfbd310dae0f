//! The terms of a property, in the order of their tokens.
ghost use Rattle.std.specs.Prelude.{◌≡◌, ℕ, true, List, Some, map, IfOk, string_eq};
ghost use Rattle.std.specs.HashMap.{get_by_text, IsUnique};
ghost use Rattle.std.specs.List.{All};
ghost use Rattle.std.specs.List.Sorted.{IsPermutation, IsSortedBy};
ghost use Rattle.std.specs.Ordering.{is_lt};
ghost use Rattle.sq_postings.specs.Rising.{rises, term_before};
ghost use Rattle.sq_build.specs.Terms.{term_of, by_token, IsTermOf, HasToken};

use sq_base::Text;
use sq_postings::Term;
use std::alloc::{AllocError, Global};
use std::cmp::Ordering;
use std::collections::HashMap;

fn compare(a: &Term, b: &Term) -> Ordering
    ensures { is_lt result ≡ by_token a.now b.now }
{
    a.token.as_str().cmp(b.token.as_str())
}

fn sort(terms: &mut Vec<Term>)
    ensures permutation { IsPermutation terms.old.items terms.new.items }
    ensures sorted { IsSortedBy by_token terms.new.items }
{
    terms.sort_unstable_by(|a, b| compare(a, b));
}

/// The terms of a property, in no order.
fn terms_in(
    alloc: Global,
    ids: HashMap<String, u32>,
    property: u32,
) -> Result<Vec<Term>, AllocError>
    ensures terms { IfOk result (λ terms. terms.items ≡ map (term_of property) ids.entries) }
    ensures unique { IsUnique string_eq ids }
{
    let mut terms = Vec::new(alloc);
    for (token, list) in ids {
        terms.push(Term {
            property,
            token: Text::from_string(token),
            list,
        })?;
    }
    Ok(terms)
}

/// The terms of a property, in the order of their tokens.
///
/// The terms of an index are those of its properties one after the other. `ids` has the number of the
/// list of each token.
pub fn sorted_terms(
    alloc: Global,
    ids: HashMap<String, u32>,
    property: u32,
) -> Result<Vec<Term>, AllocError>
    ensures rise { IfOk result (λ terms. rises term_before terms.items ≡ true) }
    ensures lists { IfOk result (λ terms. All (IsTermOf property (get_by_text ids)) terms.items) }
    ensures whole { IfOk result (λ terms. (token : List ℕ) (id : ℕ) → get_by_text ids token ≡ Some id → HasToken terms.items token) }
{
    let mut terms = terms_in(alloc, ids, property)?;
    sort(&mut terms);
    Ok(terms)
}
