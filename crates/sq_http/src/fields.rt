//! The fields of a head, without memory.
ghost use Rattle.std.specs.Prelude.{◌≡◌, ◌<◌, ◌≤◌, ◌∷◌, [], All, MatchOption, codes, length, drop, reverse, if◌then◌else◌, Some, None};
ghost use Rattle.std.specs.List.{list_any};
ghost use Rattle.std.specs.Str.Parse.{digits_value};
ghost use Rattle.httparse.specs.Grammar.{skip_ows, trim_ows};
ghost use Rattle.httparse.specs.Spans.{IsHeaderWithin};
ghost use Rattle.sq_http.specs.Fields.{values_at, member_end};
ghost use Rattle.sq_http.specs.Owed as spec;

use httparse::is_space_or_tab;
use httparse::spans::HeaderSpan;
use sq_base::MOST_DIGITS;

/// A text without the spaces and tabs at its front.
fn trim_start(mut s: &[u8]) -> &[u8]
    ensures { result.now ≡ skip_ows s.now }
{
    while let [first, rest @ ..] = s
        && is_space_or_tab(*first)
    {
        s = rest;
    }
    s
}

/// A text without the spaces and tabs at its end.
fn trim_end(mut s: &[u8]) -> &[u8]
    ensures { result.now ≡ reverse (skip_ows (reverse s.now)) }
{
    while let [rest @ .., last] = s
        && is_space_or_tab(*last)
    {
        s = rest;
    }
    s
}

/// A text without the spaces and tabs at both ends.
fn trim_ows(s: &[u8]) -> &[u8]
    ensures { result.now ≡ trim_ows s.now }
{
    trim_end(trim_start(s))
}

/// Whether a text is a word that is given in lower case, in any case.
pub fn is_word(word: &[u8], text: &[u8]) -> bool
    ensures { result ≡ spec.is_word word.now text.now }
{
    let mut words = word;
    let mut texts = text;
    'bytes: loop {
        match (words, texts) {
            ([a, more @ ..], [b, rest @ ..]) => {
                if b.to_ascii_lowercase() != *a {
                    return false;
                }
                words = more;
                texts = rest;
            }
            ([], []) => return true,
            _ => return false,
        }
    }
}

/// The first value of a field of this name, which is given in lower case, from the header `from` on,
/// and the place behind its header.
pub fn next_value<'x>(
    head: &'x [u8],
    headers: &[HeaderSpan],
    from: usize,
    name: &[u8],
) -> Option<(&'x [u8], usize)>
    requires within { All (IsHeaderWithin (length head.now)) headers.now }
    requires from { from ≤ length headers.now }
    ensures { MatchOption result (values_at name.now head.now (drop from headers.now) ≡ [])
        (λ found. (from < found.1) × (found.1 ≤ length headers.now)
        × (values_at name.now head.now (drop from headers.now) ≡ found.0.now ∷ values_at name.now head.now (drop found.1 headers.now))) }
{
    'headers: for i in from..headers.len() {
        let header = headers[i];
        if is_word(name, header.name.of(head)) {
            return Some((header.value.of(head), i + 1));
        }
    }
    None
}

/// How many bytes stand before the first comma.
fn member_end(bytes: &[u8]) -> usize
    ensures value { result ≡ member_end bytes.now }
    ensures within { result ≤ length bytes.now }
{
    let mut at = 0;
    let mut rest = bytes;
    while let [first, behind @ ..] = rest {
        if *first == b',' {
            return at;
        }
        at += 1;
        rest = behind;
    }
    at
}

/// Whether `close` is a member of a list between commas.
fn closes_by(value: &[u8]) -> bool
    ensures { result ≡ spec.closes_by value.now }
{
    let mut rest = value;
    'members: loop {
        let end = member_end(rest);
        if is_word(b"close", trim_ows(&rest[..end])) {
            return true;
        }
        if end == rest.len() {
            return false;
        }
        rest = &rest[end + 1..];
    }
}

/// Whether a Connection field has the member `close`.
pub fn any_closes(head: &[u8], headers: &[HeaderSpan]) -> bool
    requires { All (IsHeaderWithin (length head.now)) headers.now }
    ensures { result
        ≡ list_any spec.closes_by (values_at (codes "connection") head.now headers.now) }
{
    let mut from = 0;
    'values: loop {
        match next_value(head, headers, from, b"connection") {
            Some((value, next)) => {
                if closes_by(value) {
                    return true;
                }
                from = next;
            }
            None => return false,
        }
    }
}

/// Whether an Expect field asks for the interim text.
pub fn any_expects(head: &[u8], headers: &[HeaderSpan]) -> bool
    requires { All (IsHeaderWithin (length head.now)) headers.now }
    ensures { result
        ≡ list_any (spec.is_word (codes "100-continue")) (values_at (codes "expect") head.now headers.now) }
{
    let mut from = 0;
    'values: loop {
        match next_value(head, headers, from, b"expect") {
            Some((value, next)) => {
                if is_word(b"100-continue", value) {
                    return true;
                }
                from = next;
            }
            None => return false,
        }
    }
}

/// The number that one to ten digits write.
pub fn number_of(value: &[u8]) -> Option<usize>
    ensures { result ≡ (if spec.is_length value.now then Some (digits_value 10 value.now) else None) }
{
    if value.is_empty() || value.len() > MOST_DIGITS {
        return None;
    }
    let mut number = 0;
    for b in value {
        if !b.is_ascii_digit() {
            return None;
        }
        number = number * 10 + usize::from(*b - b'0');
    }
    Some(number)
}
