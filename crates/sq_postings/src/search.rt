ghost use Rattle.std.specs.Prelude.{◌≡◌, ℕ, ◌<◌, ◌≤◌, true, false, ◌&&◌, ◌||◌, ◌==◌, length};
ghost use Rattle.std.specs.Str.{bytes_eq};
ghost use Rattle.std.specs.List.Sorted.{IsPartitionPoint};
ghost use Rattle.sq_cursor.specs.Rows.{IsRising};
ghost use Rattle.sq_tokens.specs.Pattern.{is_token_asked};
ghost use Rattle.sq_postings.specs.Indexed.{rows_with, length_in};
ghost use Rattle.sq_postings.specs.Kept.{are_claims};
ghost use Rattle.sq_postings.specs.Rising.{rises, term_before, length_before, token_before, text_before};
ghost use Rattle.sq_postings.specs.Searched.{comes_before, comes_up_to, claim_comes_before, length_comes_before, AreFound};

use crate::parts::{Claim, Length, Term};

/// Whether the term comes before a token of a property.
fn is_before(term: &Term, property: u32, token: &str) -> bool
    ensures { result ≡ comes_before property token.now term.now }
{
    term.property < property
        || (term.property == property && term.token.as_str().cmp(token).is_lt())
}

/// Whether a token equals the wanted one, or begins with it where `prefixed`.
fn fits(token: &str, wanted: &str, prefixed: bool) -> bool
    ensures { result ≡ is_token_asked prefixed wanted.now token.now }
{
    if prefixed {
        token.as_bytes().starts_with(wanted.as_bytes())
    } else {
        token == wanted
    }
}

/// Whether the term comes before a token of a property, or fits it.
fn is_up_to(term: &Term, property: u32, token: &str, prefixed: bool) -> bool
    ensures { result ≡ comes_up_to property token.now prefixed term.now }
{
    is_before(term, property, token)
        || (term.property == property && fits(term.token.as_str(), token, prefixed))
}

/// How many terms come before a token of a property.
fn terms_before(terms: &[Term], property: u32, token: &str) -> usize
    requires { rises term_before terms.now ≡ true }
    ensures bound { result ≤ length terms.now }
    ensures point { IsPartitionPoint (λ term. comes_before property token.now term ≡ true) (λ term. comes_before property token.now term ≡ false) terms.now result }
{
    terms.partition_point(
        |term: &Term| -> bool
            ensures { result ≡ comes_before property token.entry.now term.now }
        { is_before(term, property, token) },
    )
}

/// How many terms come before a token of a property, or fit it.
fn terms_up_to(terms: &[Term], property: u32, token: &str, prefixed: bool) -> usize
    requires { rises term_before terms.now ≡ true }
    ensures bound { result ≤ length terms.now }
    ensures point { IsPartitionPoint (λ term. comes_up_to property token.now prefixed term ≡ true) (λ term. comes_up_to property token.now prefixed term ≡ false) terms.now result }
{
    terms.partition_point(
        |term: &Term| -> bool
            ensures { result ≡ comes_up_to property token.entry.now prefixed term.now }
        { is_up_to(term, property, token, prefixed) },
    )
}

/// The numbers from which and before which the terms of a property fit a token.
pub(crate) fn terms_of(terms: &[Term], property: u32, token: &str, prefixed: bool) -> (usize, usize)
    requires { rises term_before terms.now ≡ true }
    ensures { AreFound terms.now property token.now prefixed result.0 result.1 }
{
    let start = terms_before(terms, property, token);
    let end = terms_up_to(terms, property, token, prefixed);
    (start, end)
}

/// Whether a claim comes before another one.
fn is_claim_before(entry: &Claim, claim: &str) -> bool
    ensures { result ≡ claim_comes_before claim.now entry.now }
{
    entry.claim.as_str().cmp(claim).is_lt()
}

/// How many claims come before one.
fn claims_before(claims: &[Claim], claim: &str) -> usize
    requires { are_claims claims.now ≡ true }
    ensures bound { result ≤ length claims.now }
    ensures point { IsPartitionPoint (λ entry. claim_comes_before claim.now entry ≡ true) (λ entry. claim_comes_before claim.now entry ≡ false) claims.now result }
{
    claims.partition_point(
        |entry: &Claim| -> bool
            ensures { result ≡ claim_comes_before claim.entry.now entry.now }
        { is_claim_before(entry, claim) },
    )
}

/// The rows of a claim, and none where the claim isn't there.
pub(crate) fn rows_of<'a>(claims: &'a [Claim], claim: &str) -> &'a [u32]
    requires { are_claims claims.now ≡ true }
    ensures value { result.now ≡ rows_with claim.now claims.now }
    ensures rising { IsRising result.now }
{
    let at = claims_before(claims, claim);
    if at < claims.len() {
        let found = &claims[at];
        if found.claim.as_str() == claim {
            return found.rows.as_slice();
        }
    }
    &[]
}

/// Whether the entry comes before that of a row and an ordinal.
fn is_length_before(entry: &Length, row: u32, ordinal: u32) -> bool
    ensures { result ≡ length_comes_before row ordinal entry.now }
{
    entry.row < row || (entry.row == row && entry.ordinal < ordinal)
}

/// How many entries come before that of a row and an ordinal.
fn lengths_before(lengths: &[Length], row: u32, ordinal: u32) -> usize
    requires { rises length_before lengths.now ≡ true }
    ensures bound { result ≤ length lengths.now }
    ensures point { IsPartitionPoint (λ entry. length_comes_before row ordinal entry ≡ true) (λ entry. length_comes_before row ordinal entry ≡ false) lengths.now result }
{
    lengths.partition_point(
        |entry: &Length| -> bool
            ensures { result ≡ length_comes_before row ordinal entry.now }
        { is_length_before(entry, row, ordinal) },
    )
}

/// The length of the passage of a row and an ordinal, and 0 where it isn't there.
pub(crate) fn tokens_of(lengths: &[Length], row: u32, ordinal: u32) -> u32
    requires { rises length_before lengths.now ≡ true }
    ensures { result ≡ length_in lengths.now row ordinal }
{
    let at = lengths_before(lengths, row, ordinal);
    if at < lengths.len() {
        let found = lengths[at];
        if found.row == row && found.ordinal == ordinal {
            return found.tokens;
        }
    }
    0
}
