//! The tree of a text.

ghost use Rattle.std.specs.Prelude.{◌≡◌, ◌≤◌, length, fold, slice_range, IfOk, IfSome};
ghost use Rattle.std.specs.Option.{option_map};
ghost use Rattle.std.specs.List.{AllByRecursion};
ghost use Rattle.sq_base.specs.Outcome.{Gives};
ghost use Rattle.sq_lex.specs.Pieces.{IsPiece};
ghost use Rattle.sq_lex.specs.Whole.{HasPieces, IsWhole, AreWhole};
ghost use Rattle.sq_kql.specs.Law.{IsTreeOf};
ghost use Rattle.sq_kql.specs.Node as node;
ghost use Rattle.sq_kql.specs.Tree as spec;
ghost use Rattle.sq_kql.specs.WellFormed.{IsWellFormed};

use crate::level::{
    Level, Listing, Outer, Placed, Reading, fresh, let_go, whole, with_and, with_operand, with_or,
    with_proximity, with_sign, with_xrank,
};
use crate::order::order;
use crate::raw::{KRaw, Piece, RawSign};
use sq_base::{Fault, List, Text};
use sq_lex::{Cut, KKind, KLexeme, Relation, kql_lexemes, lexemes_are_sound};
use sqlite_items::Boxed;
use std::alloc::{AllocError, Global};
use std::mem::replace;

fn cut_piece(alloc: Global, text: &str, cut: Cut) -> Result<Piece, AllocError>
    requires { IsPiece text.now cut }
    ensures { IfOk result (λ p. p ≡ node.piece text.now cut) }
{
    let at = if cut.quoted {
        cut.from.saturating_sub(1)
    } else {
        cut.from
    };
    let text = Text::from_str(alloc, &text[cut.from as usize..cut.to as usize])?;
    Ok(Piece { at, text })
}

fn upper_piece(alloc: Global, text: &str, upper: Option<Cut>) -> Result<Option<Piece>, AllocError>
    requires { IfSome upper (IsPiece text.now) }
    ensures { IfOk result (λ p. p ≡ option_map (node.piece text.now) upper) }
{
    match upper {
        None => Ok(None),
        Some(cut) => Ok(Some(cut_piece(alloc, text, cut)?)),
    }
}

fn restriction_node(
    alloc: Global,
    text: &str,
    at: u32,
    name_to: u32,
    relation: Relation,
    value: Cut,
    upper: Option<Cut>,
) -> Result<Placed, AllocError>
    requires { HasPieces text.now at (KKind.Restrict name_to relation value upper) }
    ensures { IfOk result (λ p. p ≡ spec.restriction_node text.now at name_to relation value upper) }
{
    let name = Text::from_str(alloc, &text[at as usize..name_to as usize])?;
    let value = cut_piece(alloc, text, value)?;
    let upper = upper_piece(alloc, text, upper)?;
    Ok(Placed {
        at,
        tree: KRaw::Restrict {
            at,
            name,
            relation,
            value,
            upper,
        },
    })
}

/// A level behind one more lexeme.
fn shift_level(
    alloc: Global,
    text: &str,
    kind: KKind,
    at: u32,
    level: &mut Level,
) -> Result<(), AllocError>
    requires { HasPieces text.now at kind }
    ensures { IfOk result (λ _. level.new ≡ spec.shift_level text.now kind at level.old) }
{
    match kind {
        KKind::All => with_operand(
            alloc,
            level,
            Placed {
                at,
                tree: KRaw::All(at),
            },
        ),
        KKind::Restrict {
            name_to,
            relation,
            value,
            upper,
        } => {
            let node = restriction_node(alloc, text, at, name_to, relation, value, upper)?;
            with_operand(alloc, level, node)
        }
        KKind::Plus => with_sign(level, RawSign::Plus, at),
        KKind::Minus | KKind::Not => with_sign(level, RawSign::Minus, at),
        KKind::And => with_and(alloc, level),
        KKind::Or => with_or(alloc, level),
        KKind::Near(n) => {
            with_proximity(level, n, false);
            Ok(())
        }
        KKind::Onear(n) => {
            with_proximity(level, n, true);
            Ok(())
        }
        KKind::Xrank(cb) => with_xrank(alloc, level, cb),
        KKind::Free(_) | KKind::Words(_) | KKind::WordsEnd | KKind::LeftParen | KKind::RightParen =>
            Ok(()),
    }
}

/// Free text is a piece of a list that is open, or else an operand.
fn with_free(alloc: Global, at: u32, piece: Piece, reading: &mut Reading) -> Result<(), AllocError>
    ensures { IfOk result (λ _. reading.new ≡ spec.with_free reading.old.listing at piece reading.old) }
{
    match reading.listing.take() {
        None => {
            let tree = KRaw::Free(piece);
            with_operand(alloc, &mut reading.level, Placed { at, tree })
        }
        Some(mut listing) => {
            listing.pieces.push(piece)?;
            let_go(reading.listing.replace(listing));
            Ok(())
        }
    }
}

/// A list that is open is whole.
fn with_list(alloc: Global, reading: &mut Reading) -> Result<(), AllocError>
    ensures { IfOk result (λ _. reading.new ≡ spec.with_list reading.old.listing reading.old) }
{
    match reading.listing.take() {
        None => Ok(()),
        Some(Listing { at, pieces }) => {
            let tree = KRaw::Words { at, pieces };
            with_operand(alloc, &mut reading.level, Placed { at, tree })
        }
    }
}

fn with_open(alloc: Global, at: u32, reading: &mut Reading) -> Result<(), AllocError>
    ensures { IfOk result (λ _. reading.new ≡ spec.with_open at reading.old) }
{
    let level = replace(&mut reading.level, fresh(alloc, None));
    reading.outer.push(Outer { level, at })?;
    Ok(())
}

fn group_node(alloc: Global, at: u32, inner: &mut Level) -> Result<Placed, AllocError>
    ensures { IfOk result (λ p. p ≡ spec.group_node at inner.old) }
{
    let Placed { at: _, tree } = whole(alloc, inner)?;
    Ok(Placed {
        at,
        tree: KRaw::Group {
            at,
            inner: Boxed::new(alloc, tree)?,
        },
    })
}

#[tactic(auto, using(crate::proofs::ListLemmas::split_last_is))]
fn with_close(alloc: Global, reading: &mut Reading) -> Result<(), AllocError>
    ensures { IfOk result (λ _. reading.new ≡ spec.with_close (spec.split_last reading.old.outer) reading.old) }
{
    let mut outer = replace(&mut reading.outer, List::new(alloc)).into_vec();
    let innermost = outer.pop();
    let_go(replace(&mut reading.outer, List::from_vec(outer)));
    match innermost {
        None => Ok(()),
        Some(Outer { level, at }) => {
            let mut inner = replace(&mut reading.level, level);
            let group = group_node(alloc, at, &mut inner);
            let_go(inner);
            with_operand(alloc, &mut reading.level, group?)
        }
    }
}

/// What is read behind one more lexeme.
fn shift(
    alloc: Global,
    text: &str,
    reading: &mut Reading,
    lexeme: KLexeme,
) -> Result<(), AllocError>
    requires { IsWhole text.now lexeme }
    ensures { IfOk result (λ _. reading.new ≡ spec.shift text.now reading.old lexeme) }
{
    let at = lexeme.from;
    let kind = lexeme.kind;
    match kind {
        KKind::Free(cut) => with_free(alloc, at, cut_piece(alloc, text, cut)?, reading),
        KKind::Words(_) => {
            let pieces = List::new(alloc);
            let_go(reading.listing.replace(Listing { at, pieces }));
            Ok(())
        }
        KKind::WordsEnd => with_list(alloc, reading),
        KKind::LeftParen => with_open(alloc, at, reading),
        KKind::RightParen => with_close(alloc, reading),
        KKind::All
        | KKind::Restrict { .. }
        | KKind::Plus
        | KKind::Minus
        | KKind::Not
        | KKind::And
        | KKind::Or
        | KKind::Near(_)
        | KKind::Onear(_)
        | KKind::Xrank(_) => shift_level(alloc, text, kind, at, &mut reading.level),
    }
}

/// The tree of lexemes behind what is read.
fn tree_behind(
    alloc: Global,
    text: &str,
    mut lexemes: &[KLexeme],
    reading: &mut Reading,
) -> Result<KRaw, AllocError>
    requires { AreWhole text.now lexemes.now }
    ensures { IfOk result (λ t. t ≡ (spec.whole (fold (spec.shift text.now) reading.old lexemes.entry.now).level).tree) }
{
    while let [lexeme, rest @ ..] = lexemes {
        shift(alloc, text, reading, *lexeme)?;
        lexemes = rest;
    }
    let Placed { at: _, tree } = whole(alloc, &mut reading.level)?;
    Ok(tree)
}

/// The tree of lexemes that stand in order.
#[tactic(auto, unfolding(crate::specs::Tree::tree_of))]
fn tree_of(alloc: Global, text: &str, lexemes: &[KLexeme]) -> Result<KRaw, AllocError>
    requires { AreWhole text.now lexemes.now }
    ensures { IfOk result (λ t. t ≡ spec.tree_of text.now lexemes.now) }
{
    let mut reading = Reading {
        level: fresh(alloc, None),
        outer: List::new(alloc),
        listing: None,
    };
    let tree = tree_behind(alloc, text, lexemes, &mut reading);
    let_go(reading);
    tree
}

/// The tree of a text, or its first fault: of its lexemes, and then of their order.
#[tactic(auto, using(crate::proofs::OrderLemmas::tree_is), unfolding(crate::specs::Tree::read_of))]
pub fn read_kql(alloc: Global, text: &str) -> Result<KRaw, Fault>
    ensures value { Gives (λ tree. tree) result (spec.read_of text.now) }
    ensures tree { IfOk result (IsTreeOf text.now) }
    ensures formed { IfOk result IsWellFormed }
{
    let lexemes = kql_lexemes(alloc, text)?;
    order(text.len() as u32, lexemes.as_slice())?;
    let tree = tree_of(alloc, text, lexemes.as_slice())?;
    lexemes_are_sound();
    Ok(tree)
}
