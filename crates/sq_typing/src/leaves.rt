//! Literals with their patterns.

ghost use Rattle.std.specs.Prelude.{◌≡◌, ◌<◌, None, All, length, IfOk};
ghost use Rattle.sq_base.specs.Limits.{kql_byte_bound};
ghost use Rattle.sq_tokens.specs.Pattern.{first_bad_star};
ghost use Rattle.sq_typing.specs.Formed.{IsLiteral};
ghost use Rattle.sq_typing.specs.KqlValues.{literal, leaf_of};
ghost use Rattle.sq_typing.specs.Kql.{leaves_of};

use sq_base::{List, Text};
use sq_kql::Piece;
use sq_model::Leaf;
use sq_tokens::{PatternFault, pattern_of};
use std::alloc::{AllocError, Global};

/// The literal of a text without bad stars, if it has a token.
#[tactic(auto, unfolding(crate::specs::KqlValues::literal))]
pub(crate) fn literal(alloc: Global, text: &str) -> Result<Option<Leaf>, AllocError>
    requires starless { first_bad_star text.now ≡ None }
    requires short { length text.now < kql_byte_bound }
    ensures { IfOk result (λ leaf. leaf ≡ literal text.now) }
{
    match pattern_of(alloc, text) {
        Ok(pattern) => {
            let text = Text::from_str(alloc, text)?;
            Ok(Some(Leaf { text, pattern }))
        }
        Err(PatternFault::NoToken) => Ok(None),
        Err(PatternFault::BadStar(_)) => unreachable!(),
        Err(PatternFault::NoMemory) => Err(AllocError),
    }
}

/// The literal of a piece that has a token.
pub(crate) fn leaf(alloc: Global, piece: &Piece) -> Result<Leaf, AllocError>
    requires { IsLiteral piece.now }
    ensures { IfOk result (λ leaf. leaf ≡ leaf_of piece.now.text) }
{
    match literal(alloc, piece.text.as_str())? {
        Some(leaf) => Ok(leaf),
        None => unreachable!(),
    }
}

/// The literals of pieces.
pub(crate) fn leaves(alloc: Global, pieces: &[Piece]) -> Result<List<Leaf>, AllocError>
    requires { All IsLiteral pieces.now }
    ensures { IfOk result (λ leaves. leaves ≡ leaves_of pieces.now) }
{
    let mut leaves = List::new(alloc);
    for piece in pieces {
        leaves.push(leaf(alloc, piece)?)?;
    }
    Ok(leaves)
}
