//! Operands side by side, of which restrictions of one property stand for one another.

ghost use Rattle.std.specs.Prelude.{◌≡◌, true, [], ◌∷◌, ◌++◌, map, nat_eq, IfOk, OnOk, MatchOption};
ghost use Rattle.std.specs.Option.{unwrap_or};
ghost use Rattle.indexmap.specs.IndexMap.{get, insert_entry};
ghost use Rattle.sq_fql.specs.declared.raw.FRaw.{FRaw as Raw};
ghost use Rattle.sq_model.specs.Kql.{restricted};
ghost use Rattle.sq_lower.specs.Lowered as spec;
ghost use Rattle.sq_lower.specs.Runs as runs;

use crate::build::{alone_or, apply, negated};
use indexmap::IndexMap;
use sq_base::List;
use sq_fql::{FRaw, Op};
use sq_model::{Joiner, Role, Sign};
use std::alloc::{AllocError, Global};

/// The forms of the operands that were seen.
#[derive(Drop)]
pub(crate) struct Run {
    required: List<FRaw>,
    /// The forms of the restrictions of each property, the properties in the order in which they were first seen.
    restrictions: IndexMap<u32, List<FRaw>>,
    subtracted: List<FRaw>,
}

pub(crate) fn empty_run(alloc: Global) -> Run
    ensures required { result.required ≡ [] }
    ensures restrictions { result.restrictions.entries ≡ [] }
    ensures subtracted { result.subtracted ≡ [] }
{
    Run {
        required: List::new(alloc),
        restrictions: IndexMap::new(alloc),
        subtracted: List::new(alloc),
    }
}

/// Whether operands of the role are gathered to one.
pub(crate) fn gathers(joiner: Joiner, role: Role) -> bool
    ensures { result ≡ runs.gathers joiner role }
{
    match joiner {
        Joiner::All => false,
        Joiner::Any => role == Role::Loose,
    }
}

/// Adds a form to those of its property.
fn restrict(
    alloc: Global,
    restrictions: &mut IndexMap<u32, List<FRaw>>,
    property: u32,
    form: FRaw,
) -> Result<(), AllocError>
    ensures { OnOk result (restrictions.new.entries ≡ insert_entry nat_eq restrictions.old.entries property (unwrap_or (get nat_eq restrictions.old property) [] ++ form ∷ [])) }
{
    if let Some(forms) = restrictions.get_mut(&property) {
        forms.push(form)?;
        return Ok(());
    }
    let mut forms = List::new(alloc);
    forms.push(form)?;
    match restrictions.insert(property, forms) {
        Ok(_) => Ok(()),
        Err(_) => Err(AllocError),
    }
}

/// Adds the form of an operand.
pub(crate) fn add(
    alloc: Global,
    run: &mut Run,
    sign: Sign,
    role: Role,
    form: FRaw,
) -> Result<(), AllocError>
    requires { runs.is_minus sign ≡ true → role ≡ Role.Other }
    ensures required { let o : runs.Form Raw = record { sign = sign; role = role; form = form } in OnOk result (run.new.required ≡ run.old.required ++ runs.forms_of runs.is_required (o ∷ [])) }
    ensures restrictions { OnOk result (MatchOption (restricted role) (run.new.restrictions.entries ≡ run.old.restrictions.entries) (λ p. run.new.restrictions.entries ≡ insert_entry nat_eq run.old.restrictions.entries p (unwrap_or (get nat_eq run.old.restrictions p) [] ++ form ∷ []))) }
    ensures subtracted { let o : runs.Form Raw = record { sign = sign; role = role; form = form } in OnOk result (run.new.subtracted ≡ run.old.subtracted ++ runs.forms_of runs.is_subtracted (o ∷ [])) }
{
    match role {
        Role::Restricts(property) => {
            restrict(alloc, &mut run.restrictions, property, form)?;
            Ok(())
        }
        Role::Loose | Role::Other => {
            if matches!(sign, Sign::Minus) {
                run.subtracted.push(form)?;
            } else {
                run.required.push(form)?;
            }
            Ok(())
        }
    }
}

/// What must hold: each required operand, and for each restricted property one of its restrictions.
fn members(
    required: List<FRaw>,
    restrictions: IndexMap<u32, List<FRaw>>,
) -> Result<List<FRaw>, AllocError>
    ensures { IfOk result (λ forms. forms ≡ required ++ map (λ group. runs.alone_or (spec.apply Op.Or) group.1) restrictions.entries) }
{
    let mut wanted = required;
    for (_, forms) in restrictions {
        wanted.push(alone_or(Op::Or, forms))?;
    }
    Ok(wanted)
}

/// The first form, and none of the others.
fn without(form: FRaw, others: List<FRaw>) -> Result<FRaw, AllocError>
    ensures { IfOk result (λ raw. raw ≡ spec.apply Op.AndNot (form ∷ others)) }
{
    let mut operands = others.into_vec();
    operands.insert(0, form)?;
    Ok(apply(Op::AndNot, List::from_vec(operands)))
}

/// The first forms, and none of the others.
fn less(alloc: Global, wanted: List<FRaw>, minus: List<FRaw>) -> Result<FRaw, AllocError>
    ensures { IfOk result (λ raw. raw ≡ runs.less spec.raw_connectives wanted minus) }
{
    if wanted.len() == 0 {
        let form = negated(alloc, alone_or(Op::Or, minus))?;
        return Ok(form);
    }
    let form = alone_or(Op::And, wanted);
    if minus.len() == 0 {
        return Ok(form);
    }
    let form = without(form, minus)?;
    Ok(form)
}

/// The form of a run whose operands were all seen.
pub(crate) fn form_of(alloc: Global, run: Run) -> Result<FRaw, AllocError>
    ensures { IfOk result (λ raw. raw ≡ runs.less spec.raw_connectives (run.required ++ map (λ group. runs.alone_or (spec.apply Op.Or) group.1) run.restrictions.entries) run.subtracted) }
{
    let wanted = members(run.required, run.restrictions)?;
    let form = less(alloc, wanted, run.subtracted)?;
    Ok(form)
}
