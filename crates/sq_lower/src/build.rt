//! Parts of FQL trees. Each stands at place 0. What lowering calls on its way through a tree is kept out of its frames.

ghost use Rattle.std.specs.Prelude.{◌≡◌, [], ◌∷◌, map, IfOk};
ghost use Rattle.sq_lower.specs.Lowered as spec;
ghost use Rattle.sq_lower.specs.Runs as runs;

use sq_base::{List, Text};
use sq_fql::{FPiece, FQL_DISTANCE, FRaw, Mode, Op};
use sq_model::Leaf;
use sqlite_items::Boxed;
use std::alloc::{AllocError, Global};

pub(crate) fn apply(op: Op, operands: List<FRaw>) -> FRaw
    ensures { result ≡ spec.apply op operands }
{
    FRaw::Apply {
        at: 0,
        op,
        operands,
    }
}

pub(crate) fn literal(text: Text) -> FRaw
    ensures { result ≡ spec.literal text }
{
    FRaw::Literal(FPiece { at: 0, text })
}

pub(crate) fn scope(alloc: Global, name: &str, inner: FRaw) -> Result<FRaw, AllocError>
    ensures { IfOk result (λ raw. raw ≡ spec.scope name.now inner) }
{
    let name = Text::from_str(alloc, name)?;
    let inner = Boxed::new(alloc, inner)?;
    Ok(FRaw::Scope { at: 0, name, inner })
}

pub(crate) fn one(alloc: Global, form: FRaw) -> Result<List<FRaw>, AllocError>
    ensures { IfOk result (λ forms. forms ≡ form ∷ []) }
{
    let mut forms = List::new(alloc);
    forms.push(form)?;
    Ok(forms)
}

pub(crate) fn two(alloc: Global, first: FRaw, second: FRaw) -> Result<List<FRaw>, AllocError>
    ensures { IfOk result (λ forms. forms ≡ first ∷ second ∷ []) }
{
    let mut forms = List::new(alloc);
    forms.push(first)?;
    forms.push(second)?;
    Ok(forms)
}

pub(crate) fn negated(alloc: Global, form: FRaw) -> Result<FRaw, AllocError>
    ensures { IfOk result (λ raw. raw ≡ spec.negated form) }
{
    let operands = one(alloc, form)?;
    Ok(apply(Op::Not, operands))
}

/// The literal of a leaf, with its stars.
fn leaf_literal(alloc: Global, leaf: &Leaf) -> Result<FRaw, AllocError>
    ensures { IfOk result (λ raw. raw ≡ spec.literal leaf.now.text) }
{
    let text = Text::from_str(alloc, leaf.text.as_str())?;
    Ok(literal(text))
}

/// `string("..")`.
#[inline(never)]
pub(crate) fn phrase(alloc: Global, leaf: &Leaf) -> Result<FRaw, AllocError>
    ensures { IfOk result (λ raw. raw ≡ spec.phrase leaf.now) }
{
    let text = leaf_literal(alloc, leaf)?;
    let operands = one(alloc, text)?;
    let op = Op::Str {
        mode: Mode::Phrase,
        n: FQL_DISTANCE,
    };
    Ok(apply(op, operands))
}

fn literals(alloc: Global, leaves: &[Leaf]) -> Result<List<FRaw>, AllocError>
    ensures { IfOk result (λ forms. forms ≡ map (λ leaf. spec.literal leaf.text) leaves.now) }
{
    let mut forms = List::new(alloc);
    for leaf in leaves {
        let form = leaf_literal(alloc, leaf)?;
        forms.push(form)?;
    }
    Ok(forms)
}

/// `words("..","..")`.
#[inline(never)]
pub(crate) fn words(alloc: Global, leaves: &[Leaf]) -> Result<FRaw, AllocError>
    ensures { IfOk result (λ raw. raw ≡ spec.words leaves.now) }
{
    let operands = literals(alloc, leaves)?;
    Ok(apply(Op::Words, operands))
}

#[inline(never)]
pub(crate) fn near(
    alloc: Global,
    n: u32,
    ordered: bool,
    left: FRaw,
    right: FRaw,
) -> Result<FRaw, AllocError>
    ensures { IfOk result (λ raw. raw ≡ spec.near n ordered (left ∷ right ∷ [])) }
{
    let operands = two(alloc, left, right)?;
    let op = if ordered { Op::Onear(n) } else { Op::Near(n) };
    Ok(apply(op, operands))
}

#[inline(never)]
pub(crate) fn xrank(alloc: Global, cb: i64, matched: FRaw, ranked: FRaw) -> Result<FRaw, AllocError>
    ensures { IfOk result (λ raw. raw ≡ spec.apply (Op.Xrank cb) (matched ∷ ranked ∷ [])) }
{
    let operands = two(alloc, matched, ranked)?;
    Ok(apply(Op::Xrank { cb }, operands))
}

/// The numbers between two, each of which is one of them or not.
pub(crate) fn range(
    alloc: Global,
    above: bool,
    below: bool,
    lower: Text,
    upper: Text,
) -> Result<FRaw, AllocError>
    ensures { IfOk result (λ raw. raw ≡ spec.range above below lower upper) }
{
    let operands = two(alloc, literal(lower), literal(upper))?;
    Ok(apply(Op::Range { above, below }, operands))
}

/// The form itself where there is one alone.
pub(crate) fn alone_or(op: Op, forms: List<FRaw>) -> FRaw
    ensures { result ≡ runs.alone_or (spec.apply op) forms }
{
    let mut items = forms.into_vec();
    if items.len() == 1 {
        items.remove(0)
    } else {
        apply(op, List::from_vec(items))
    }
}
