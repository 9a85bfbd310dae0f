//! Lowering. A tree may nest to the greatest depth that its language allows, so `tree_of` only chooses, and what
//! an arm holds stands in a function of its own: the slots of all arms would else lie in each frame on the way down.

ghost use Rattle.std.specs.Prelude.{◌≡◌, All, map, IfOk, IsOk};
ghost use Rattle.sq_model.specs.declared.kql.KTree.TheVariants as tree;
ghost use Rattle.sq_model.specs.KqlSound.{IsSound, PartsSound};
ghost use Rattle.sq_fql.specs.WellFormed.{IsWellFormed};
ghost use Rattle.sq_typing.specs.Fql.{fql_typed};
ghost use Rattle.sq_lower.specs.Lowered.{lowered, operand_form};
ghost use Rattle.sq_lower.specs.Runs.{is_gathered, forms_of};

use crate::build::{alone_or, apply, near, phrase, words, xrank};
use crate::restrictions::{text_test, value_test};
use crate::runs::{add, empty_run, form_of, gathers};
use sq_base::List;
use sq_fql::{FRaw, Op};
use sq_model::{Joiner, KOperand, KTree, role_of};
use sq_schema::{
    Schema, moments_are_written, moments_read_back, names_find_rows, numbers_read_back,
};
use std::alloc::{AllocError, Global};

#[cycle(lowered)]
#[tactic(auto, using(crate::proofs::TreeEquations::lowered_rules))]
fn tree_of(alloc: Global, tree: &KTree, schema: &Schema, joiner: Joiner) -> Result<FRaw, AllocError>
    requires { PartsSound schema.now tree.now }
    ensures { IfOk result (λ raw. raw ≡ lowered schema.now joiner tree.now) }
{
    match tree {
        KTree::Free(leaf) => phrase(alloc, leaf),
        KTree::All => Ok(FRaw::All(0)),
        KTree::Words(leaves) => words(alloc, leaves.as_slice()),
        KTree::Group(inside) => tree_of(alloc, inside.get(), schema, joiner),
        KTree::TextTest {
            property,
            relation,
            leaf,
        } => text_test(alloc, schema, *property, *relation, leaf),
        KTree::ValueTest {
            property,
            relation,
            first,
            last,
        } => value_test(alloc, schema, *property, *relation, *first, *last),
        KTree::Near {
            left,
            right,
            n,
            ordered,
        } => near_form(alloc, left.get(), right.get(), *n, *ordered, schema, joiner),
        KTree::Run(operands) => run_of(alloc, operands.as_slice(), schema, joiner),
        KTree::And(parts) => all_form(alloc, parts.as_slice(), schema, joiner),
        KTree::Or(parts) => some_form(alloc, parts.as_slice(), schema, joiner),
        KTree::Xrank {
            matched,
            ranked,
            cb,
        } => xrank_form(alloc, matched.get(), ranked.get(), *cb, schema, joiner),
    }
}

#[cycle(lowered)]
#[inline(never)]
fn near_form(
    alloc: Global,
    left: &KTree,
    right: &KTree,
    n: u32,
    ordered: bool,
    schema: &Schema,
    joiner: Joiner,
) -> Result<FRaw, AllocError>
    requires { PartsSound schema.now (tree.Near left.now right.now n ordered) }
    ensures { IfOk result (λ raw. raw ≡ lowered schema.now joiner (tree.Near left.now right.now n ordered)) }
{
    let left_form = tree_of(alloc, left, schema, joiner)?;
    let right_form = tree_of(alloc, right, schema, joiner)?;
    near(alloc, n, ordered, left_form, right_form)
}

#[cycle(lowered)]
#[inline(never)]
fn xrank_form(
    alloc: Global,
    matched: &KTree,
    ranked: &KTree,
    cb: i64,
    schema: &Schema,
    joiner: Joiner,
) -> Result<FRaw, AllocError>
    requires { PartsSound schema.now (tree.Xrank matched.now ranked.now cb) }
    ensures { IfOk result (λ raw. raw ≡ lowered schema.now joiner (tree.Xrank matched.now ranked.now cb)) }
{
    let matched_form = tree_of(alloc, matched, schema, joiner)?;
    let ranked_form = tree_of(alloc, ranked, schema, joiner)?;
    xrank(alloc, cb, matched_form, ranked_form)
}

#[cycle(lowered)]
#[tactic(auto, using(crate::proofs::TreeEquations::lowered_rules))]
#[inline(never)]
fn all_form(
    alloc: Global,
    parts: &[KTree],
    schema: &Schema,
    joiner: Joiner,
) -> Result<FRaw, AllocError>
    requires { All (PartsSound schema.now) parts.now }
    ensures { IfOk result (λ raw. raw ≡ lowered schema.now joiner (tree.And parts.now)) }
{
    let forms = trees_of(alloc, parts, schema, joiner)?;
    Ok(apply(Op::And, forms))
}

#[cycle(lowered)]
#[tactic(auto, using(crate::proofs::TreeEquations::lowered_rules))]
#[inline(never)]
fn some_form(
    alloc: Global,
    parts: &[KTree],
    schema: &Schema,
    joiner: Joiner,
) -> Result<FRaw, AllocError>
    requires { All (PartsSound schema.now) parts.now }
    ensures { IfOk result (λ raw. raw ≡ lowered schema.now joiner (tree.Or parts.now)) }
{
    let forms = trees_of(alloc, parts, schema, joiner)?;
    Ok(apply(Op::Or, forms))
}

#[cycle(lowered)]
#[inline(never)]
fn trees_of(
    alloc: Global,
    parts: &[KTree],
    schema: &Schema,
    joiner: Joiner,
) -> Result<List<FRaw>, AllocError>
    requires { All (PartsSound schema.now) parts.now }
    ensures { IfOk result (λ forms. forms ≡ map (lowered schema.now joiner) parts.now) }
{
    let mut forms = List::new(alloc);
    for part in parts {
        let form = tree_of(alloc, part, schema, joiner)?;
        forms.push(form)?;
    }
    Ok(forms)
}

/// The forms of the operands that are gathered to one.
#[cycle(lowered)]
#[inline(never)]
fn gathered_of(
    alloc: Global,
    operands: &[KOperand],
    schema: &Schema,
    joiner: Joiner,
) -> Result<List<FRaw>, AllocError>
    requires { All (λ operand. PartsSound schema.now operand.tree) operands.now }
    ensures { IfOk result (λ forms. forms ≡ forms_of (is_gathered joiner) (map (operand_form schema.now joiner) operands.now)) }
{
    let mut forms = List::new(alloc);
    for operand in operands {
        if gathers(joiner, role_of(operand.sign, &operand.tree)) {
            let form = tree_of(alloc, &operand.tree, schema, joiner)?;
            forms.push(form)?;
        }
    }
    Ok(forms)
}

/// The gathered operands stand in the place of the first of them.
#[cycle(lowered)]
#[inline(never)]
fn run_of(
    alloc: Global,
    operands: &[KOperand],
    schema: &Schema,
    joiner: Joiner,
) -> Result<FRaw, AllocError>
    requires { All (λ operand. PartsSound schema.now operand.tree) operands.now }
    ensures { IfOk result (λ raw. raw ≡ lowered schema.now joiner (tree.Run operands.now)) }
{
    let forms = gathered_of(alloc, operands, schema, joiner)?;
    let mut gathered = Some(alone_or(Op::Or, forms));
    let mut run = empty_run(alloc);
    for operand in operands {
        let role = role_of(operand.sign, &operand.tree);
        if gathers(joiner, role) {
            if let Some(form) = gathered.take() {
                add(alloc, &mut run, operand.sign, role, form)?;
            }
        } else {
            let form = tree_of(alloc, &operand.tree, schema, joiner)?;
            add(alloc, &mut run, operand.sign, role, form)?;
        }
    }
    let form = form_of(alloc, run)?;
    Ok(form)
}

/// The FQL tree that says what a KQL tree says, where the joiner is that of the loose operands of its runs. The only
/// error is want of memory.
pub fn lower(
    alloc: Global,
    tree: &KTree,
    schema: &Schema,
    joiner: Joiner,
) -> Result<FRaw, AllocError>
    requires sound { IsSound schema.now tree.now }
    ensures value { IfOk result (λ raw. raw ≡ lowered schema.now joiner tree.now) }
    ensures formed { IfOk result IsWellFormed }
    ensures typed { IfOk result (λ raw. IsOk (fql_typed schema.now raw)) }
{
    names_find_rows();
    numbers_read_back();
    moments_read_back();
    moments_are_written();
    let _rows = schema.len();
    let raw = tree_of(alloc, tree, schema, joiner)?;
    Ok(raw)
}
