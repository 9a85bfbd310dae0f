//! The boosts of KQL.
ghost use Rattle.std.specs.Prelude.{◌≡◌, if◌then◌else◌, pos, map, IfOk};
ghost use Rattle.sq_model.specs.Lists.{total};
ghost use Rattle.sq_slow.specs.TextValues.{text_values};
ghost use Rattle.sq_model.specs.Kql.{holds, gain, boost, operand_boost, adds_boost};

use crate::kql_holds::holds;
use crate::sums::add;
use crate::text_value::TextValue;
use sq_model::{Item, Joiner, KOperand, KTree, Sign};
use sq_schema::Schema;
use std::alloc::{AllocError, Global};

fn adds_boost(sign: Sign) -> bool
    ensures { result ≡ adds_boost sign }
{
    match sign {
        Sign::Minus => false,
        Sign::Plain | Sign::Plus => true,
    }
}

/// What `ranked` adds to a match.
fn rank_boost(
    alloc: Global,
    schema: &Schema,
    item: &Item,
    texts: &[TextValue],
    ranked: &KTree,
    cb: i64,
    joiner: Joiner,
) -> Result<i64, AllocError>
    requires { texts.now ≡ text_values item.now.values }
    ensures { IfOk result (λ sum. sum ≡ (if holds schema.now item.now.values joiner ranked.now then cb else pos 0)) }
{
    let ranked_holds = holds(alloc, schema, item, texts, ranked, joiner)?;
    if ranked_holds { Ok(cb) } else { Ok(0) }
}

#[cycle(kql_boost)]
#[tactic(auto, using(sq_model::proofs::KqlEquations::kql_gain_rules))]
fn gain(
    alloc: Global,
    schema: &Schema,
    item: &Item,
    texts: &[TextValue],
    tree: &KTree,
    joiner: Joiner,
) -> Result<i64, AllocError>
    requires { texts.now ≡ text_values item.now.values }
    ensures { IfOk result (λ sum. sum ≡ gain schema.now item.now.values joiner tree.now) }
{
    match tree {
        KTree::Group(inside) => {
            let sum = gain(alloc, schema, item, texts, inside.get(), joiner)?;
            Ok(sum)
        }
        KTree::Run(operands) => {
            let sum = operand_boosts(alloc, schema, item, texts, operands.as_slice(), joiner)?;
            Ok(sum)
        }
        KTree::And(parts) => {
            let sum = boosts(alloc, schema, item, texts, parts.as_slice(), joiner)?;
            Ok(sum)
        }
        KTree::Or(parts) => {
            let sum = boosts(alloc, schema, item, texts, parts.as_slice(), joiner)?;
            Ok(sum)
        }
        KTree::Xrank {
            matched,
            ranked,
            cb,
        } => {
            let own = gain(alloc, schema, item, texts, matched.get(), joiner)?;
            let more = rank_boost(alloc, schema, item, texts, ranked.get(), *cb, joiner)?;
            let sum = add(own, more)?;
            Ok(sum)
        }
        KTree::Free(_)
        | KTree::All
        | KTree::Words(_)
        | KTree::TextTest { .. }
        | KTree::ValueTest { .. }
        | KTree::Near { .. } => Ok(0),
    }
}

/// The boost of the expression for an item with these texts.
#[cycle(kql_boost)]
pub fn boost(
    alloc: Global,
    schema: &Schema,
    item: &Item,
    texts: &[TextValue],
    tree: &KTree,
    joiner: Joiner,
) -> Result<i64, AllocError>
    requires { texts.now ≡ text_values item.now.values }
    ensures { IfOk result (λ sum. sum ≡ boost schema.now item.now.values joiner tree.now) }
{
    let tree_holds = holds(alloc, schema, item, texts, tree, joiner)?;
    if tree_holds {
        let sum = gain(alloc, schema, item, texts, tree, joiner)?;
        Ok(sum)
    } else {
        Ok(0)
    }
}

#[cycle(kql_boost)]
fn boosts(
    alloc: Global,
    schema: &Schema,
    item: &Item,
    texts: &[TextValue],
    parts: &[KTree],
    joiner: Joiner,
) -> Result<i64, AllocError>
    requires { texts.now ≡ text_values item.now.values }
    ensures { IfOk result (λ sum. sum ≡ total (map (boost schema.now item.now.values joiner) parts.now)) }
{
    let mut sum = 0;
    for part in parts {
        let more = boost(alloc, schema, item, texts, part, joiner)?;
        sum = add(sum, more)?;
    }
    Ok(sum)
}

#[cycle(kql_boost)]
fn operand_boost(
    alloc: Global,
    schema: &Schema,
    item: &Item,
    texts: &[TextValue],
    operand: &KOperand,
    joiner: Joiner,
) -> Result<i64, AllocError>
    requires { texts.now ≡ text_values item.now.values }
    ensures { IfOk result (λ sum. sum ≡ operand_boost schema.now item.now.values joiner operand.now) }
{
    if adds_boost(operand.sign) {
        let sum = boost(alloc, schema, item, texts, &operand.tree, joiner)?;
        Ok(sum)
    } else {
        Ok(0)
    }
}

#[cycle(kql_boost)]
fn operand_boosts(
    alloc: Global,
    schema: &Schema,
    item: &Item,
    texts: &[TextValue],
    operands: &[KOperand],
    joiner: Joiner,
) -> Result<i64, AllocError>
    requires { texts.now ≡ text_values item.now.values }
    ensures { IfOk result (λ sum. sum ≡ total (map (operand_boost schema.now item.now.values joiner) operands.now)) }
{
    let mut sum = 0;
    for operand in operands {
        let more = operand_boost(alloc, schema, item, texts, operand, joiner)?;
        sum = add(sum, more)?;
    }
    Ok(sum)
}
