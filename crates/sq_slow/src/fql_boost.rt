//! The boosts of FQL.
ghost use Rattle.std.specs.Prelude.{◌≡◌, if◌then◌else◌, pos, map, IfOk};
ghost use Rattle.std.specs.List.{list_any};
ghost use Rattle.sq_model.specs.Lists.{total};
ghost use Rattle.sq_slow.specs.TextValues.{text_values};
ghost use Rattle.sq_model.specs.Fql.{holds, gain, boost};

use crate::fql_holds::{holds, some_hold};
use crate::sums::add;
use crate::text_value::TextValue;
use sq_model::{FTree, Item};
use sq_schema::Schema;
use std::alloc::{AllocError, Global};

/// What the rank expressions add to a match.
fn rank_boost(
    alloc: Global,
    schema: &Schema,
    item: &Item,
    texts: &[TextValue],
    ranks: &[FTree],
    cb: i64,
) -> Result<i64, AllocError>
    requires { texts.now ≡ text_values item.now.values }
    ensures { IfOk result (λ sum. sum ≡ (if list_any (holds schema.now item.now.values) ranks.now then cb else pos 0)) }
{
    let ranks_hold = some_hold(alloc, schema, item, texts, ranks)?;
    if ranks_hold { Ok(cb) } else { Ok(0) }
}

#[cycle(fql_boost)]
#[tactic(auto, using(sq_model::proofs::FqlEquations::fql_gain_rules))]
fn gain(
    alloc: Global,
    schema: &Schema,
    item: &Item,
    texts: &[TextValue],
    tree: &FTree,
) -> Result<i64, AllocError>
    requires { texts.now ≡ text_values item.now.values }
    ensures { IfOk result (λ sum. sum ≡ gain schema.now item.now.values tree.now) }
{
    match tree {
        FTree::And(parts) => {
            let sum = boosts(alloc, schema, item, texts, parts.as_slice())?;
            Ok(sum)
        }
        FTree::Or(parts) => {
            let sum = boosts(alloc, schema, item, texts, parts.as_slice())?;
            Ok(sum)
        }
        FTree::AndNot { first, .. } => {
            let sum = gain(alloc, schema, item, texts, first.get())?;
            Ok(sum)
        }
        FTree::Xrank { matched, ranks, cb } => {
            let own = gain(alloc, schema, item, texts, matched.get())?;
            let more = rank_boost(alloc, schema, item, texts, ranks.as_slice(), *cb)?;
            let sum = add(own, more)?;
            Ok(sum)
        }
        FTree::All
        | FTree::Spans { .. }
        | FTree::Count { .. }
        | FTree::Edge { .. }
        | FTree::Within { .. }
        | FTree::Not(_)
        | FTree::Filter(_) => Ok(0),
    }
}

/// The boost of the expression for an item with these texts.
#[cycle(fql_boost)]
pub fn boost(
    alloc: Global,
    schema: &Schema,
    item: &Item,
    texts: &[TextValue],
    tree: &FTree,
) -> Result<i64, AllocError>
    requires { texts.now ≡ text_values item.now.values }
    ensures { IfOk result (λ sum. sum ≡ boost schema.now item.now.values tree.now) }
{
    let tree_holds = holds(alloc, schema, item, texts, tree)?;
    if tree_holds {
        let sum = gain(alloc, schema, item, texts, tree)?;
        Ok(sum)
    } else {
        Ok(0)
    }
}

#[cycle(fql_boost)]
fn boosts(
    alloc: Global,
    schema: &Schema,
    item: &Item,
    texts: &[TextValue],
    parts: &[FTree],
) -> Result<i64, AllocError>
    requires { texts.now ≡ text_values item.now.values }
    ensures { IfOk result (λ sum. sum ≡ total (map (boost schema.now item.now.values) parts.now)) }
{
    let mut sum = 0;
    for part in parts {
        let more = boost(alloc, schema, item, texts, part)?;
        sum = add(sum, more)?;
    }
    Ok(sum)
}
