//! The canonical text of a tree.

ghost use Rattle.std.specs.Prelude.{◌≡◌, ◌++◌, false, flat_map, map, chars, codes, string_bytes, IfOk, OnOk};
ghost use Rattle.std.specs.Char.{is_ascii_digit};
ghost use Rattle.std.specs.List.{All, list_all};
ghost use Rattle.std.specs.Fmt.{decimal, signed_decimal};
ghost use Rattle.std.specs.Str.{IsUtf8};
ghost use Rattle.sq_fql.specs.Canon as spec;
ghost use Rattle.sq_fql.specs.CanonLaw.{AreTexts, ReadsBack};

use crate::raw::{FRaw, Mode, Op};
use sq_base::Text;
use std::alloc::{AllocError, Global};

fn all_digits(text: &[u8]) -> bool
    ensures { result ≡ list_all is_ascii_digit text.now }
{
    text.iter().all(|b| b.is_ascii_digit())
}

fn are_digits(text: &[u8]) -> bool
    ensures { result ≡ spec.are_digits text.now }
{
    if text.is_empty() {
        false
    } else {
        all_digits(text)
    }
}

fn is_number(text: &[u8]) -> bool
    ensures { result ≡ spec.is_number text.now }
{
    match text {
        [b'-', digits @ ..] => are_digits(digits),
        _ => are_digits(text),
    }
}

fn is_bare(text: &[u8]) -> bool
    ensures { result ≡ spec.is_bare text.now }
{
    is_number(text) || text == b"min".as_slice() || text == b"max".as_slice()
}

fn push_character(text: &mut String, c: char) -> Result<(), AllocError>
    ensures { OnOk result (string_bytes text.new ≡ string_bytes text.old ++ spec.escaped c) }
{
    if c == '"' || c == '\\' {
        text.push('\\')?;
    }
    text.push(c)?;
    Ok(())
}

fn push_characters(text: &mut String, value: &str) -> Result<(), AllocError>
    ensures { OnOk result (string_bytes text.new ≡ string_bytes text.old ++ flat_map spec.escaped (chars value.now)) }
{
    for c in value.chars() {
        push_character(text, c)?;
    }
    Ok(())
}

fn push_quoted(text: &mut String, value: &str) -> Result<(), AllocError>
    ensures { OnOk result (string_bytes text.new ≡ string_bytes text.old ++ spec.quoted value.now) }
{
    text.push('"')?;
    push_characters(text, value)?;
    text.push('"')?;
    Ok(())
}

fn push_literal(text: &mut String, value: &Text) -> Result<(), AllocError>
    ensures value { OnOk result (string_bytes text.new ≡ string_bytes text.old ++ spec.literal_text value.now) }
    ensures utf8 { OnOk result (IsUtf8 value.now) }
{
    if is_bare(value.as_slice()) {
        text.push_str(value.as_str())?;
        return Ok(());
    }
    push_quoted(text, value.as_str())
}

fn operator_word(op: Op) -> &'static str
    ensures { result.now ≡ spec.operator_word op }
{
    match op {
        Op::And => "and",
        Op::Or => "or",
        Op::Any => "any",
        Op::AndNot => "andnot",
        Op::Not => "not",
        Op::Near(_) => "near",
        Op::Onear(_) => "onear",
        Op::Words => "words",
        Op::Count { .. } => "count",
        Op::Range { .. } => "range",
        Op::StartsWith => "starts-with",
        Op::EndsWith => "ends-with",
        Op::Equals => "equals",
        Op::Filter => "filter",
        Op::Str { .. } => "string",
        Op::Int => "int",
        Op::DateTime => "datetime",
        Op::Phrase => "phrase",
        Op::Xrank { .. } => "xrank",
    }
}

/// Adds a parameter behind a comma.
fn push_number(text: &mut String, name: &str, n: u32) -> Result<(), AllocError>
    ensures { OnOk result (string_bytes text.new ≡ string_bytes text.old ++ spec.assigned name.now (decimal n)) }
{
    write!(text, ",{name}={n}")?;
    Ok(())
}

fn push_boost(text: &mut String, cb: i64) -> Result<(), AllocError>
    ensures { OnOk result (string_bytes text.new ≡ string_bytes text.old ++ spec.assigned (codes "cb") (signed_decimal cb)) }
{
    write!(text, ",cb={cb}")?;
    Ok(())
}

/// Adds a parameter behind a comma, whose value is a word.
fn push_word(text: &mut String, name: &str, word: &str) -> Result<(), AllocError>
    ensures { OnOk result (string_bytes text.new ≡ string_bytes text.old ++ spec.assigned name.now (spec.word_value word.now)) }
{
    write!(text, ",{name}=\"{word}\"")?;
    Ok(())
}

/// Adds a mode and its distance.
fn push_near(text: &mut String, word: &str, n: u32) -> Result<(), AllocError>
    ensures { OnOk result (string_bytes text.new ≡ string_bytes text.old ++ (spec.assigned (codes "mode") (spec.word_value word.now) ++ spec.distance_text n)) }
{
    push_word(text, "mode", word)?;
    push_number(text, "N", n)
}

fn push_mode(text: &mut String, mode: Mode, n: u32) -> Result<(), AllocError>
    ensures { OnOk result (string_bytes text.new ≡ string_bytes text.old ++ spec.mode_text mode n) }
{
    match mode {
        Mode::Phrase => Ok(()),
        Mode::And => push_word(text, "mode", "AND"),
        Mode::Or => push_word(text, "mode", "OR"),
        Mode::Any => push_word(text, "mode", "ANY"),
        Mode::Near => push_near(text, "NEAR", n),
        Mode::Onear => push_near(text, "ONEAR", n),
    }
}

fn push_count(text: &mut String, from: u32, to: Option<u32>) -> Result<(), AllocError>
    ensures { OnOk result (string_bytes text.new ≡ string_bytes text.old ++ (spec.assigned (codes "from") (decimal from) ++ spec.end_text to)) }
{
    push_number(text, "from", from)?;
    match to {
        None => Ok(()),
        Some(to) => push_number(text, "to", to),
    }
}

fn lower_word(above: bool) -> &'static str
    ensures { result.now ≡ spec.lower_word above }
{
    if above { "GT" } else { "GE" }
}

fn upper_word(below: bool) -> &'static str
    ensures { result.now ≡ spec.upper_word below }
{
    if below { "LT" } else { "LE" }
}

fn push_parameters(text: &mut String, op: Op) -> Result<(), AllocError>
    ensures { OnOk result (string_bytes text.new ≡ string_bytes text.old ++ spec.parameters_text op) }
{
    match op {
        Op::Near(n) | Op::Onear(n) => push_number(text, "N", n),
        Op::Count { from, to } => push_count(text, from, to),
        Op::Range { above, below } => {
            push_word(text, "from", lower_word(above))?;
            push_word(text, "to", upper_word(below))
        }
        Op::Str { mode, n } => push_mode(text, mode, n),
        Op::Xrank { cb } => push_boost(text, cb),
        _ => Ok(()),
    }
}

fn push_name(text: &mut String, name: &Text) -> Result<(), AllocError>
    ensures { OnOk result (string_bytes text.new ≡ string_bytes text.old ++ name.now ++ codes ":") }
{
    text.push_str(name.as_str())?;
    text.push_str(":")?;
    Ok(())
}

fn push_opening(text: &mut String, op: Op) -> Result<(), AllocError>
    ensures { OnOk result (string_bytes text.new ≡ string_bytes text.old ++ spec.operator_word op ++ codes "(") }
{
    text.push_str(operator_word(op))?;
    text.push_str("(")?;
    Ok(())
}

fn push_closing(text: &mut String, op: Op) -> Result<(), AllocError>
    ensures { OnOk result (string_bytes text.new ≡ string_bytes text.old ++ spec.parameters_text op ++ codes ")") }
{
    push_parameters(text, op)?;
    text.push_str(")")?;
    Ok(())
}

/// Adds a comma behind another operand.
fn push_separator(text: &mut String, behind: bool) -> Result<(), AllocError>
    ensures { OnOk result (string_bytes text.new ≡ string_bytes text.old ++ spec.separator behind) }
{
    if behind {
        text.push_str(",")?;
    }
    Ok(())
}

#[cycle(printing)]
#[tactic(auto, using(crate::proofs::CanonEquations::canon_rules))]
fn push_tree(text: &mut String, tree: &FRaw) -> Result<(), AllocError>
    ensures value { OnOk result (string_bytes text.new ≡ string_bytes text.old ++ spec.canon tree.now) }
    ensures texts { OnOk result (AreTexts tree.now) }
{
    match tree {
        FRaw::All(_) => {
            text.push_str("*")?;
            Ok(())
        }
        FRaw::Literal(piece) => push_literal(text, &piece.text),
        FRaw::Scope { name, inner, .. } => {
            push_name(text, name)?;
            push_tree(text, inner.get())?;
            Ok(())
        }
        FRaw::Apply { op, operands, .. } => {
            push_opening(text, *op)?;
            push_operands(text, operands.as_slice())?;
            push_closing(text, *op)?;
            Ok(())
        }
    }
}

#[cycle(printing)]
fn push_operands(text: &mut String, trees: &[FRaw]) -> Result<(), AllocError>
    ensures value { OnOk result (string_bytes text.new ≡ string_bytes text.old ++ spec.listed false (map spec.canon trees.now)) }
    ensures texts { OnOk result (All AreTexts trees.now) }
{
    let mut behind = false;
    for tree in trees {
        push_separator(text, behind)?;
        push_tree(text, tree)?;
        behind = true;
    }
    Ok(())
}

/// The canonical text of a tree: no white space, operands before parameters, and one way to write each literal, operator and parameter.
/// The only error is want of memory. It calls itself as deep as the tree is.
pub fn print_fql(alloc: Global, tree: &FRaw) -> Result<Text, AllocError>
    ensures value { IfOk result (λ text. text ≡ spec.canon tree.now) }
    ensures reads_back { IfOk result (λ text. ReadsBack text tree.now) }
{
    let mut text = String::new(alloc);
    push_tree(&mut text, tree)?;
    Text::from_str(alloc, &text)
}
