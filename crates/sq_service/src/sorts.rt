//! What the sorts of a request go by.
ghost use Rattle.std.specs.Prelude.{◌≡◌, ◌≤◌, length, map, codes, option_map, slice_get, true, IfOk, IfSome};
ghost use Rattle.std.specs.List.{list_all};
ghost use Rattle.sq_schema.specs.Words.{is_same_word};
ghost use Rattle.sq_engine.specs.Verdict as verdict;
ghost use Rattle.sq_ranking.specs.Keys as ranking;
ghost use Rattle.sq_service.specs.Sorts.{key, goes_by, is_key_within, is_within};

use sq_base::List;
use sq_packet::{Direction, SortSpec};
use sq_ranking::Directions;
use sq_schema::{Kind, Schema};
use std::alloc::{AllocError, Global};

/// What a sort goes by.
#[derive(Clone, Copy, Debug, PartialEq, Eq)]
pub(crate) enum Key {
    Score,
    /// The property with this row of the schema.
    Property(u32),
}

#[derive(Clone, Copy, Debug, PartialEq, Eq)]
pub(crate) struct Sort {
    pub(crate) key: Key,
    pub(crate) direction: Direction,
}

#[tactic(auto, unfolding(sq_schema::specs::Words::is_same_word))]
fn is_rank(name: &str) -> bool
    ensures { result ≡ is_same_word name.now (codes "rank") }
{
    name.eq_ignore_ascii_case("rank")
}

fn has_keys(kind: Kind) -> bool
    ensures { result ≡ verdict.has_keys kind }
{
    match kind {
        Kind::Integer | Kind::DateTime => true,
        Kind::Text | Kind::YesNo => false,
    }
}

fn key_at(schema: &Schema, row: u32) -> Option<Key>
    ensures within { IfSome result (λ key. is_key_within schema.now key ≡ true) }
    ensures key { option_map key result ≡ verdict.key_at row (slice_get schema.now row) }
{
    match schema.property(row) {
        Some(property) => {
            if has_keys(property.kind) {
                Some(Key::Property(row))
            } else {
                None
            }
        }
        None => None,
    }
}

/// What a sort of this name goes by, if items are sorted by it.
fn key_named(schema: &Schema, name: &str) -> Option<Key>
    ensures within { IfSome result (λ key. is_key_within schema.now key ≡ true) }
    ensures key { option_map key result ≡ verdict.key_named schema.now name.now }
{
    if is_rank(name) {
        return Some(Key::Score);
    }
    match schema.find(name) {
        Some(row) => key_at(schema, row),
        None => None,
    }
}

/// What each sort goes by, or the number of the first that goes by nothing.
pub(crate) fn sorts_of(
    alloc: Global,
    schema: &Schema,
    asked: &[SortSpec],
) -> Result<Result<List<Sort>, u32>, AllocError>
    requires { length asked.now ≤ 4 }
    ensures sorts { IfOk result (λ sorts. goes_by sorts ≡ verdict.sort_keys schema.now 0 asked.now) }
    ensures few { IfOk result (λ sorts. IfOk sorts (λ all. length all ≤ 4)) }
    ensures within { IfOk result (λ sorts. IfOk sorts (λ all. list_all (is_within schema.now) all ≡ true)) }
{
    let mut sorts = List::new(alloc);
    for (i, sort) in asked.iter().enumerate() {
        let Some(key) = key_named(schema, sort.name.as_str()) else {
            return Ok(Err(i as u32));
        };
        let direction = sort.direction;
        sorts.push(Sort { key, direction })?;
    }
    Ok(Ok(sorts))
}

fn direction_at(sorts: &[Sort], i: usize) -> Option<Direction>
    ensures { result ≡ option_map (λ sort. sort.direction) (slice_get sorts.now i) }
{
    match sorts.get(i) {
        Some(sort) => Some(sort.direction),
        None => None,
    }
}

pub(crate) fn directions_of(sorts: &[Sort]) -> Directions
    requires { length sorts.now ≤ 4 }
    ensures { ranking.directions_of result ≡ map (λ sort. sort.direction) sorts.now }
{
    Directions {
        first: direction_at(sorts, 0),
        second: direction_at(sorts, 1),
        third: direction_at(sorts, 2),
        fourth: direction_at(sorts, 3),
    }
}
