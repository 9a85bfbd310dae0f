//! Outcomes of several parts together.

ghost use Rattle.std.specs.Prelude.{◌≡◌, [], ◌∷◌, ◌++◌, IfOk};
ghost use Rattle.sq_typing.specs.Together as spec;

use crate::codes::TOO_MANY_FORMS;
use sq_base::{List, QueryFault};
use std::alloc::AllocError;

pub(crate) fn refused(code: u16, at: u32) -> QueryFault
    ensures { result ≡ record { code = code; at = at } }
{
    QueryFault { code, at }
}

fn stands_first(left: QueryFault, right: QueryFault) -> bool
    ensures { result ≡ spec.stands_first left right }
{
    left.at < right.at || (left.at == right.at && left.code <= right.code)
}

fn goes_first(left: QueryFault, right: QueryFault) -> bool
    ensures { result ≡ spec.goes_first left right }
{
    if left.code == TOO_MANY_FORMS {
        right.code == TOO_MANY_FORMS && stands_first(left, right)
    } else {
        right.code == TOO_MANY_FORMS || stands_first(left, right)
    }
}

#[tactic(auto, unfolding(crate::specs::Together::first_fault))]
fn first_fault(left: QueryFault, right: QueryFault) -> QueryFault
    ensures { result ≡ spec.first_fault left right }
{
    if goes_first(left, right) { left } else { right }
}

/// Both values, or the fault that goes first.
pub(crate) fn both<A: Drop, B: Drop>(
    left: Result<A, QueryFault>,
    right: Result<B, QueryFault>,
) -> Result<(A, B), QueryFault>
    ensures { result ≡ spec.together (λ x y. (x, y)) left right }
{
    match left {
        Ok(x) => match right {
            Ok(y) => Ok((x, y)),
            Err(fault) => Err(fault),
        },
        Err(fault) => match right {
            Ok(_) => Err(fault),
            Err(other) => Err(first_fault(fault, other)),
        },
    }
}

/// The values with one more, or the fault that goes first.
pub(crate) fn pushed<T: Drop>(
    values: Result<List<T>, QueryFault>,
    next: Result<T, QueryFault>,
) -> Result<Result<List<T>, QueryFault>, AllocError>
    ensures { IfOk result (λ all. all ≡ spec.together (λ xs x. xs ++ x ∷ []) values next) }
{
    match values {
        Ok(mut items) => match next {
            Ok(item) => {
                items.push(item)?;
                Ok(Ok(items))
            }
            Err(fault) => Ok(Err(fault)),
        },
        Err(fault) => match next {
            Ok(_) => Ok(Err(fault)),
            Err(other) => Ok(Err(first_fault(fault, other))),
        },
    }
}
