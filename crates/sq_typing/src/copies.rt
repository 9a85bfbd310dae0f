//! How many forms a proximity expression of KQL takes by the weights of its parts.
ghost use Rattle.std.specs.Prelude.{◌≡◌, ◌*◌, nat_le, true, [], ◌∷◌, map, sum, length, IfOk};
ghost use Rattle.std.specs.List.{list_all};
ghost use Rattle.sq_model.specs.Lists.{joined};
ghost use Rattle.sq_model.specs.Triples.{choices};
ghost use Rattle.sq_model.specs.Copies.{distinct, greatest, product};
ghost use Rattle.sq_model.specs.KqlCopies.{weights, copies};
ghost use Rattle.sq_model.specs.declared.kql.KTree.{KTree};
ghost use Rattle.sq_model.specs.Limits.{most_copies};
ghost use Rattle.sq_typing.specs.Forms.{is_filled, IsCount, HasForms};

use crate::forms::{Forms, near_forms, put_all, weight_of, weights_of};
use sq_model::KTree;
use std::alloc::{AllocError, Global};

/// The forms of a near by those of its operands.
fn forms_of_two(alloc: Global, left: &Forms, right: &Forms) -> Result<Forms, AllocError>
    requires left { HasForms left.now }
    requires right { HasForms right.now }
    ensures { IfOk result (λ forms. (a b : KTree) → is_filled a ≡ true → is_filled b ≡ true → IsCount (weights a) (copies a) left.now → IsCount (weights b) (copies b) right.now →
        IsCount (distinct (map sum (choices (weights a ∷ weights b ∷ [])))) (product (map length (weights a ∷ weights b ∷ [])) * greatest (copies a ∷ copies b ∷ [])) forms) }
{
    match left {
        Forms::Many => Ok(Forms::Many),
        Forms::Few {
            weights: firsts,
            copies: first_copies,
        } => match right {
            Forms::Many => Ok(Forms::Many),
            Forms::Few {
                weights: seconds,
                copies: second_copies,
            } => {
                let most = (*first_copies).max(*second_copies);
                let forms = near_forms(alloc, firsts.as_slice(), seconds.as_slice(), most)?;
                Ok(forms)
            }
        },
    }
}

#[cycle(forms)]
#[tactic(auto, using(crate::proofs::CopiesLemmas::count_rules))]
fn forms_of(alloc: Global, tree: &KTree) -> Result<Forms, AllocError>
    requires { is_filled tree.now ≡ true }
    ensures { IfOk result (IsCount (weights tree.now) (copies tree.now)) }
{
    match tree {
        KTree::Free(leaf) => {
            let weights = weight_of(alloc, leaf)?;
            Ok(Forms::Few { weights, copies: 1 })
        }
        KTree::Words(leaves) => {
            let weights = weights_of(alloc, leaves.as_slice())?;
            Ok(Forms::Few { weights, copies: 1 })
        }
        KTree::Group(inside) => {
            let forms = forms_of(alloc, inside.get())?;
            Ok(forms)
        }
        KTree::Or(parts) => {
            let forms = forms_of_some(alloc, parts.as_slice())?;
            Ok(forms)
        }
        KTree::Near { left, right, .. } => {
            let left_forms = forms_of(alloc, left.get())?;
            let right_forms = forms_of(alloc, right.get())?;
            let forms = forms_of_two(alloc, &left_forms, &right_forms)?;
            Ok(forms)
        }
        KTree::All
        | KTree::TextTest { .. }
        | KTree::ValueTest { .. }
        | KTree::Run(_)
        | KTree::And(_)
        | KTree::Xrank { .. } => {
            Ok(Forms::Few {
                weights: Vec::new(alloc),
                copies: 0,
            })
        }
    }
}

/// The forms of one of the parts.
#[cycle(forms)]
fn forms_of_some(alloc: Global, parts: &[KTree]) -> Result<Forms, AllocError>
    requires { list_all is_filled parts.now ≡ true }
    ensures { IfOk result (IsCount (distinct (joined (map weights parts.now))) (greatest (map copies parts.now))) }
{
    let mut weights = Vec::new(alloc);
    let mut greatest = 0;
    for part in parts {
        match forms_of(alloc, part)? {
            Forms::Many => {
                return Ok(Forms::Many);
            }
            Forms::Few {
                weights: more,
                copies,
            } => {
                put_all(&mut weights, more.as_slice())?;
                greatest = copies.max(greatest);
            }
        }
    }
    Ok(Forms::Few {
        weights,
        copies: greatest,
    })
}

/// Whether an expression takes no more forms than may be.
pub(crate) fn are_few(alloc: Global, tree: &KTree) -> Result<bool, AllocError>
    requires { is_filled tree.now ≡ true }
    ensures { IfOk result (λ few. few ≡ nat_le (copies tree.now) most_copies) }
{
    match forms_of(alloc, tree)? {
        Forms::Many => Ok(false),
        Forms::Few { .. } => Ok(true),
    }
}
