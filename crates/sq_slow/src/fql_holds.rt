//! The meaning of FQL, item by item and place by place.
ghost use Rattle.std.specs.Prelude.{◌≡◌, not, ◌&&◌, IfOk};
ghost use Rattle.std.specs.List.{list_any, list_all};
ghost use Rattle.sq_model.specs.Passages.{numbers, some_within};
ghost use Rattle.sq_slow.specs.TextValues.{text_values};
ghost use Rattle.sq_model.specs.Fql.{holds};

use crate::fql_passages::{count_holds, edge_holds, spans_hold};
use crate::restrictions::some_within;
use crate::seen::numbers;
use crate::text_value::TextValue;
use sq_model::{FTree, Item};
use sq_schema::Schema;
use std::alloc::{AllocError, Global};

fn within_holds(
    alloc: Global,
    item: &Item,
    property: u32,
    first: i64,
    last: i64,
) -> Result<bool, AllocError>
    ensures { IfOk result (λ b. b ≡ some_within first last (numbers item.now.values property)) }
{
    let all = numbers(alloc, item, property)?;
    Ok(some_within(first, last, all.as_slice()))
}

fn and_not(a: bool, b: bool) -> bool
    ensures { result ≡ (a && not b) }
{
    a && !b
}

/// Whether the expression holds of an item with these texts.
#[cycle(fql_holds)]
#[tactic(auto, using(sq_model::proofs::FqlEquations::fql_rules))]
pub fn holds(
    alloc: Global,
    schema: &Schema,
    item: &Item,
    texts: &[TextValue],
    tree: &FTree,
) -> Result<bool, AllocError>
    requires { texts.now ≡ text_values item.now.values }
    ensures { IfOk result (λ b. b ≡ holds schema.now item.now.values tree.now) }
{
    match tree {
        FTree::All => Ok(true),
        FTree::Spans { look, tree } => spans_hold(alloc, schema, item, texts, *look, tree),
        FTree::Count {
            look,
            leaf,
            from,
            to,
        } => count_holds(alloc, schema, item, texts, *look, &leaf.pattern, *from, *to),
        FTree::Edge {
            look,
            leaf,
            starts,
            ends,
        } => edge_holds(
            alloc,
            schema,
            item,
            texts,
            *look,
            &leaf.pattern,
            *starts,
            *ends,
        ),
        FTree::Within {
            property,
            first,
            last,
        } => within_holds(alloc, item, *property, *first, *last),
        FTree::And(parts) => all_hold(alloc, schema, item, texts, parts.as_slice()),
        FTree::Or(parts) => some_hold(alloc, schema, item, texts, parts.as_slice()),
        FTree::AndNot { first, others } => {
            let first_holds = holds(alloc, schema, item, texts, first.get())?;
            let others_hold = some_hold(alloc, schema, item, texts, others.as_slice())?;
            Ok(and_not(first_holds, others_hold))
        }
        FTree::Not(inner) => {
            let inner_holds = holds(alloc, schema, item, texts, inner.get())?;
            Ok(!inner_holds)
        }
        FTree::Filter(inner) => {
            let inner_holds = holds(alloc, schema, item, texts, inner.get())?;
            Ok(inner_holds)
        }
        FTree::Xrank { matched, .. } => {
            let matched_holds = holds(alloc, schema, item, texts, matched.get())?;
            Ok(matched_holds)
        }
    }
}

#[cycle(fql_holds)]
fn all_hold(
    alloc: Global,
    schema: &Schema,
    item: &Item,
    texts: &[TextValue],
    parts: &[FTree],
) -> Result<bool, AllocError>
    requires { texts.now ≡ text_values item.now.values }
    ensures { IfOk result (λ b. b ≡ list_all (holds schema.now item.now.values) parts.now) }
{
    for part in parts {
        if !holds(alloc, schema, item, texts, part)? {
            return Ok(false);
        }
    }
    Ok(true)
}

/// Whether some part holds.
#[cycle(fql_holds)]
pub fn some_hold(
    alloc: Global,
    schema: &Schema,
    item: &Item,
    texts: &[TextValue],
    parts: &[FTree],
) -> Result<bool, AllocError>
    requires { texts.now ≡ text_values item.now.values }
    ensures { IfOk result (λ b. b ≡ list_any (holds schema.now item.now.values) parts.now) }
{
    for part in parts {
        if holds(alloc, schema, item, texts, part)? {
            return Ok(true);
        }
    }
    Ok(false)
}
