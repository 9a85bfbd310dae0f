//! The trees by which texts of both languages are answered.
ghost use Rattle.std.specs.Prelude.{◌≡◌, IfOk};
ghost use Rattle.sq_schema.specs.Intervals.{clamped};
ghost use Rattle.sq_model.specs.FqlSound.{IsSound as IsSoundTree};
ghost use Rattle.sq_model.specs.KqlSound.{IsSound};
ghost use Rattle.sq_base.specs.Outcome.{Gives};
ghost use Rattle.sq_packet.specs.declared.request.Language.TheVariants as language;
ghost use Rattle.sq_engine.specs.Query as spec;

use sq_base::{Fault, Text};
use sq_fql::{print_fql, read_fql};
use sq_kql::read_kql;
use sq_lower::{lower, lowering_keeps_meaning};
use sq_model::{FTree, Joiner, KTree};
use sq_packet::Language;
use sq_schema::Schema;
use sq_typing::{type_fql, type_kql};
use std::alloc::Global;

/// The typed tree of a KQL text.
fn typed_kql(alloc: Global, schema: &Schema, text: &str, now: i64) -> Result<KTree, Fault>
    requires { now ≡ clamped now }
    ensures typed { Gives (λ tree. tree) result (spec.kql_typed schema.now now text.now) }
    ensures sound { IfOk result (IsSound schema.now) }
{
    let raw = match read_kql(alloc, text) {
        Ok(raw) => raw,
        Err(Fault::Query(fault)) => return Err(Fault::Query(fault)),
        Err(Fault::NoMemory) => return Err(Fault::NoMemory),
    };
    match type_kql(alloc, &raw, schema, now) {
        Ok(tree) => Ok(tree),
        Err(Fault::Query(fault)) => Err(Fault::Query(fault)),
        Err(Fault::NoMemory) => Err(Fault::NoMemory),
    }
}

/// A KQL text is answered by its lowered tree, of which typing refuses none.
#[tactic(auto, unfolding(crate::specs::Query::tree_of, crate::specs::Query::query_of))]
fn tree_of_kql(
    alloc: Global,
    schema: &Schema,
    side: Joiner,
    text: &str,
    now: i64,
) -> Result<FTree, Fault>
    requires { now ≡ clamped now }
    ensures tree { Gives (λ tree. tree) result (spec.tree_of schema.now now side language.Kql text.now) }
    ensures means { spec.GivesTree schema.now side (spec.query_of schema.now now language.Kql text.now) result }
    ensures sound { IfOk result (IsSoundTree schema.now) }
{
    let tree = match typed_kql(alloc, schema, text, now) {
        Ok(tree) => tree,
        Err(Fault::Query(fault)) => return Err(Fault::Query(fault)),
        Err(Fault::NoMemory) => return Err(Fault::NoMemory),
    };
    let Ok(raw) = lower(alloc, &tree, schema, side) else {
        return Err(Fault::NoMemory);
    };
    schema.len();
    lowering_keeps_meaning();
    match type_fql(alloc, &raw, schema) {
        Ok(tree) => Ok(tree),
        Err(_) => Err(Fault::NoMemory),
    }
}

#[tactic(auto, unfolding(crate::specs::Query::tree_of, crate::specs::Query::query_of))]
fn tree_of_fql(
    alloc: Global,
    schema: &Schema,
    side: Joiner,
    text: &str,
    now: i64,
) -> Result<FTree, Fault>
    ensures tree { Gives (λ tree. tree) result (spec.tree_of schema.now now side language.Fql text.now) }
    ensures means { spec.GivesTree schema.now side (spec.query_of schema.now now language.Fql text.now) result }
    ensures sound { IfOk result (IsSoundTree schema.now) }
{
    let _ = side;
    let raw = match read_fql(alloc, text) {
        Ok(raw) => raw,
        Err(Fault::Query(fault)) => return Err(Fault::Query(fault)),
        Err(Fault::NoMemory) => return Err(Fault::NoMemory),
    };
    match type_fql(alloc, &raw, schema) {
        Ok(tree) => Ok(tree),
        Err(Fault::Query(fault)) => Err(Fault::Query(fault)),
        Err(Fault::NoMemory) => Err(Fault::NoMemory),
    }
}

/// The FQL tree by which a text is answered, for a schema, at a moment in UTC seconds since 1970-01-01T00:00:00Z, with
/// operands side by side in a KQL text joined by `side`: exactly `tree_of`, which means what the text means.
pub fn tree_of(
    alloc: Global,
    schema: &Schema,
    side: Joiner,
    language: Language,
    text: &str,
    now: i64,
) -> Result<FTree, Fault>
    requires { now ≡ clamped now }
    ensures tree { Gives (λ tree. tree) result (spec.tree_of schema.now now side language text.now) }
    ensures means { spec.GivesTree schema.now side (spec.query_of schema.now now language text.now) result }
    ensures sound { IfOk result (IsSoundTree schema.now) }
{
    match language {
        Language::Kql => tree_of_kql(alloc, schema, side, text, now),
        Language::Fql => tree_of_fql(alloc, schema, side, text, now),
    }
}

/// The canonical FQL text that says what a KQL text says, for a schema, at a moment in UTC seconds since
/// 1970-01-01T00:00:00Z, with operands side by side joined by `side`.
#[tactic(auto, unfolding(crate::specs::Query::lowered_of))]
pub fn lowered_text(
    alloc: Global,
    schema: &Schema,
    side: Joiner,
    text: &str,
    now: i64,
) -> Result<Text, Fault>
    requires { now ≡ clamped now }
    ensures { Gives (λ text. text) result (spec.lowered_of schema.now now side text.now) }
{
    let tree = match typed_kql(alloc, schema, text, now) {
        Ok(tree) => tree,
        Err(Fault::Query(fault)) => return Err(Fault::Query(fault)),
        Err(Fault::NoMemory) => return Err(Fault::NoMemory),
    };
    let Ok(raw) = lower(alloc, &tree, schema, side) else {
        return Err(Fault::NoMemory);
    };
    match print_fql(alloc, &raw) {
        Ok(text) => Ok(text),
        Err(_) => Err(Fault::NoMemory),
    }
}
