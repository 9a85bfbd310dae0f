//! The texts of refiners.

ghost use Rattle.std.specs.Prelude.{◌≡◌, ◌<◌, ◌==◌, ◌∷◌, map, IfOk};
ghost use Rattle.std.specs.List.{slice_split};
ghost use Rattle.sq_packet.specs.Refiners as spec;

use crate::limits::MOST_BOUNDS;
use crate::request::RefinerSpec;
use sq_base::{List, Text};
use sq_schema::number;
use std::alloc::{AllocError, Global};

/// The parts of a text between such ASCII characters.
fn cut<'a>(alloc: Global, stop: char, text: &'a str) -> Result<Vec<&'a str>, AllocError>
    requires { stop < 128 }
    ensures { IfOk result (λ parts. map (λ part. part.now) parts.items ≡ slice_split (λ b. b == stop) text.now) }
{
    text.split(stop).collect(alloc)
}

fn is_blank_byte(byte: u8) -> bool
    ensures { result ≡ spec.is_blank byte }
{
    matches!(byte, b'\t' | b'\n' | b'\r' | b' ')
}

fn has_no_parentheses(name: &[u8]) -> bool
    ensures { result ≡ spec.has_no_parentheses name.now }
{
    name.iter().all(|byte| *byte != b'(' && *byte != b')')
}

/// The last byte of a text that begins with another one.
fn last_of(first: u8, bytes: &[u8]) -> u8
    ensures { result ≡ spec.last_of first bytes.now }
{
    let mut last = first;
    let mut left = bytes;
    'bytes: while let [byte, rest @ ..] = left {
        last = *byte;
        left = rest;
    }
    last
}

/// One or more characters other than parentheses, without white space at either end.
fn is_refiner_name(name: &[u8]) -> bool
    ensures { result ≡ spec.is_refiner_name name.now }
{
    let [first, rest @ ..] = name else {
        return false;
    };
    !is_blank_byte(*first) && !is_blank_byte(last_of(*first, rest)) && has_no_parentheses(name)
}

/// Whether each bound is below the next one.
fn are_rising(bounds: &[i64]) -> bool
    ensures { result ≡ spec.are_rising bounds.now }
{
    let mut left = bounds;
    'bounds: while let [bound, rest @ ..] = left {
        let [next, ..] = rest else {
            return true;
        };
        if bound >= next {
            return false;
        }
        left = rest;
    }
    true
}

/// The numbers that texts write, if each writes one.
fn numbers(alloc: Global, parts: &[&str]) -> Result<Option<List<i64>>, AllocError>
    ensures { IfOk result (λ numbers. numbers ≡ spec.numbers_of (map (λ part. part.now) parts.now)) }
{
    let mut numbers = List::new(alloc);
    let mut left = parts;
    'parts: while let [part, rest @ ..] = left {
        let Ok(n) = number(part) else {
            return Ok(None);
        };
        numbers.push(n)?;
        left = rest;
    }
    Ok(Some(numbers))
}

fn with_bounds(
    alloc: Global,
    name: &str,
    bounds: Option<List<i64>>,
) -> Result<Option<RefinerSpec>, AllocError>
    ensures { IfOk result (λ refiner. refiner ≡ spec.with_bounds name.now bounds) }
{
    let Some(bounds) = bounds else {
        return Ok(None);
    };
    if bounds.len() > MOST_BOUNDS || !are_rising(bounds.as_slice()) {
        return Ok(None);
    }
    let name = Text::from_str(alloc, name)?;
    Ok(Some(RefinerSpec { name, bounds }))
}

/// One bound or more.
fn bounded(alloc: Global, name: &str, bounds: &[&str]) -> Result<Option<RefinerSpec>, AllocError>
    ensures { IfOk result (λ refiner. refiner ≡ spec.bounded name.now (map (λ part. part.now) bounds.now)) }
{
    match bounds {
        [] => Ok(None),
        [_, ..] => {
            let numbers = numbers(alloc, bounds)?;
            with_bounds(alloc, name, numbers)
        }
    }
}

#[tactic(auto, unfolding(crate::specs::Refiners::is_manual))]
fn is_manual(word: &str) -> bool
    ensures { result ≡ spec.is_manual word.now }
{
    word == "discretize=manual"
}

/// `discretize=manual` and the bounds.
fn discretized(alloc: Global, name: &str, parts: &[&str]) -> Result<Option<RefinerSpec>, AllocError>
    ensures { IfOk result (λ refiner. refiner ≡ spec.discretized name.now (map (λ part. part.now) parts.now)) }
{
    let [word, bounds @ ..] = parts else {
        return Ok(None);
    };
    if !is_manual(word) {
        return Ok(None);
    }
    bounded(alloc, name, bounds)
}

/// Whether only an empty part is left.
fn is_end(parts: &[&str]) -> bool
    ensures { result ≡ spec.is_end (map (λ part. part.now) parts.now) }
{
    match parts {
        [] => false,
        [part] => match part.as_bytes() {
            [] => true,
            [_, ..] => false,
        },
        [_, _, ..] => false,
    }
}

/// What stands between the parentheses, where nothing stands behind the `)`.
fn closed_list(alloc: Global, name: &str, parts: &[&str]) -> Result<Option<RefinerSpec>, AllocError>
    ensures { IfOk result (λ refiner. refiner ≡ spec.closed_list name.now (map (λ part. part.now) parts.now)) }
{
    let [list, behind @ ..] = parts else {
        return Ok(None);
    };
    if !is_end(behind) {
        return Ok(None);
    }
    let parts = cut(alloc, '/', list)?;
    discretized(alloc, name, parts.as_slice())
}

/// A name alone, or a name and what stands behind its `(`.
fn refiner_by(alloc: Global, name: &str, more: &[&str]) -> Result<Option<RefinerSpec>, AllocError>
    ensures { IfOk result (λ refiner. refiner ≡ spec.refiner_by name.now (map (λ part. part.now) more.now)) }
{
    match more {
        [] => {
            let name = Text::from_str(alloc, name)?;
            let bounds = List::new(alloc);
            Ok(Some(RefinerSpec { name, bounds }))
        }
        [inside] => {
            let parts = cut(alloc, ')', inside)?;
            closed_list(alloc, name, parts.as_slice())
        }
        [_, _, ..] => Ok(None),
    }
}

/// The refiner that a text asks for: a name, or `name(discretize=manual/B1/B2/..)`.
#[tactic(auto, unfolding(crate::specs::Refiners::refiner_of))]
pub fn refiner(alloc: Global, text: &str) -> Result<Option<RefinerSpec>, AllocError>
    ensures { IfOk result (λ refiner. refiner ≡ spec.refiner_of text.now) }
{
    let parts = cut(alloc, '(', text)?;
    let [name, more @ ..] = parts.as_slice() else {
        return Ok(None);
    };
    if !is_refiner_name(name.as_bytes()) {
        return Ok(None);
    }
    refiner_by(alloc, name, more)
}
