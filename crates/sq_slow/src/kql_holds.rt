//! The meaning of KQL, item by item and place by place.
ghost use Rattle.std.specs.Prelude.{◌≡◌, map, not, IfOk};
ghost use Rattle.std.specs.List.{list_any, list_all};
ghost use Rattle.sq_model.specs.Lists.{is_empty};
ghost use Rattle.sq_slow.specs.TextValues.{text_values, passages_in};
ghost use Rattle.sq_model.specs.Kql.{triples, somewhere, holds, judge};

use crate::kql_spans::triples;
use crate::restrictions::{text_test, value_test};
use crate::runs::run_holds;
use crate::seen::searchable;
use crate::text_value::TextValue;
use sq_base::List;
use sq_model::{Item, Joiner, Judged, KOperand, KTree, role_of};
use sq_schema::Schema;
use std::alloc::{AllocError, Global};

/// Whether the expression matches in one of the property's passages.
fn matches_in(
    alloc: Global,
    texts: &[TextValue],
    property: u32,
    tree: &KTree,
) -> Result<bool, AllocError>
    ensures { IfOk result (λ b. b ≡ list_any (λ passage. not (is_empty (triples passage tree.now))) (passages_in texts.now property)) }
{
    for text in texts {
        if text.property == property {
            let found = triples(alloc, &text.tokens, tree)?;
            if !found.as_slice().is_empty() {
                return Ok(true);
            }
        }
    }
    Ok(false)
}

fn somewhere(
    alloc: Global,
    schema: &Schema,
    item: &Item,
    texts: &[TextValue],
    tree: &KTree,
) -> Result<bool, AllocError>
    requires { texts.now ≡ text_values item.now.values }
    ensures { IfOk result (λ b. b ≡ somewhere schema.now item.now.values (λ passage. triples passage tree.now)) }
{
    let rows = searchable(alloc, schema)?;
    for row in rows.as_slice() {
        if matches_in(alloc, texts, *row, tree)? {
            return Ok(true);
        }
    }
    Ok(false)
}

/// Whether the expression holds of an item with these texts.
#[cycle(kql_holds)]
#[tactic(auto, using(sq_model::proofs::KqlEquations::kql_rules))]
pub fn holds(
    alloc: Global,
    schema: &Schema,
    item: &Item,
    texts: &[TextValue],
    tree: &KTree,
    joiner: Joiner,
) -> Result<bool, AllocError>
    requires { texts.now ≡ text_values item.now.values }
    ensures { IfOk result (λ b. b ≡ holds schema.now item.now.values joiner tree.now) }
{
    match tree {
        KTree::All => Ok(true),
        KTree::Free(_) | KTree::Words(_) | KTree::Near { .. } => somewhere(
            alloc, schema, item, texts, tree,
        ),
        KTree::Group(inside) => {
            let inside_holds = holds(alloc, schema, item, texts, inside.get(), joiner)?;
            Ok(inside_holds)
        }
        KTree::TextTest {
            property,
            relation,
            leaf,
        } => text_test(alloc, item, texts, *property, *relation, &leaf.pattern),
        KTree::ValueTest {
            property,
            relation,
            first,
            last,
        } => value_test(alloc, item, *property, *relation, *first, *last),
        KTree::Run(operands) => {
            let run = judge_each(alloc, schema, item, texts, operands.as_slice(), joiner)?;
            let run = run.as_slice();
            Ok(run_holds(run, joiner))
        }
        KTree::And(parts) => all_hold(alloc, schema, item, texts, parts.as_slice(), joiner),
        KTree::Or(parts) => some_hold(alloc, schema, item, texts, parts.as_slice(), joiner),
        KTree::Xrank { matched, .. } => {
            let matched_holds = holds(alloc, schema, item, texts, matched.get(), joiner)?;
            Ok(matched_holds)
        }
    }
}

#[cycle(kql_holds)]
fn judge_each(
    alloc: Global,
    schema: &Schema,
    item: &Item,
    texts: &[TextValue],
    operands: &[KOperand],
    joiner: Joiner,
) -> Result<List<Judged>, AllocError>
    requires { texts.now ≡ text_values item.now.values }
    ensures { IfOk result (λ run. run ≡ map (judge schema.now item.now.values joiner) operands.now) }
{
    let mut run = List::new(alloc);
    for operand in operands {
        let operand_holds = holds(alloc, schema, item, texts, &operand.tree, joiner)?;
        run.push(Judged {
            sign: operand.sign,
            role: role_of(operand.sign, &operand.tree),
            holds: operand_holds,
        })?;
    }
    Ok(run)
}

#[cycle(kql_holds)]
fn all_hold(
    alloc: Global,
    schema: &Schema,
    item: &Item,
    texts: &[TextValue],
    parts: &[KTree],
    joiner: Joiner,
) -> Result<bool, AllocError>
    requires { texts.now ≡ text_values item.now.values }
    ensures { IfOk result (λ b. b ≡ list_all (holds schema.now item.now.values joiner) parts.now) }
{
    for part in parts {
        if !holds(alloc, schema, item, texts, part, joiner)? {
            return Ok(false);
        }
    }
    Ok(true)
}

#[cycle(kql_holds)]
fn some_hold(
    alloc: Global,
    schema: &Schema,
    item: &Item,
    texts: &[TextValue],
    parts: &[KTree],
    joiner: Joiner,
) -> Result<bool, AllocError>
    requires { texts.now ≡ text_values item.now.values }
    ensures { IfOk result (λ b. b ≡ list_any (holds schema.now item.now.values joiner) parts.now) }
{
    for part in parts {
        if holds(alloc, schema, item, texts, part, joiner)? {
            return Ok(true);
        }
    }
    Ok(false)
}
