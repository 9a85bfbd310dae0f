//! The tree of a text.

ghost use Rattle.std.specs.Prelude.{List, ℕ, ◌≡◌, ◌≢◌, ◌≤◌, ◌<◌, ◌-◌, ◌^◌, length, slice_index, suc, IfOk, Ok};
ghost use Rattle.std.specs.Char.{is_ascii_alphabetic};
ghost use Rattle.sq_lex.specs.FqlWhole.{AreWhole, IsWhole};
ghost use Rattle.sq_base.specs.Outcome.{Gives};
ghost use Rattle.sq_fql.specs.Operators as table;
ghost use Rattle.sq_fql.specs.Parameters.{nothing_given};
ghost use Rattle.sq_fql.specs.Read as spec;
ghost use Rattle.sq_fql.specs.WellFormed.{IsWellFormed};

use crate::codes::{
    EMPTY_QUERY, EXTRA_ARGUMENT, MISSING_ARGUMENT, OTHER_BOOST, TOO_DEEP, UNEXPECTED,
    UNKNOWN_OPERATOR,
};
use crate::content::{content, leaf, literal, word_bytes, word_text};
use crate::fault::refused;
use crate::look::{Role, behind, first_at, role_of, separator, wanted};
use crate::operator::{Operator, operands_of, operator_of};
use crate::parameter::{Given, Parameter, nothing_given, operation, parameter_named, with_value};
use crate::raw::{FRaw, Op};
use sq_base::{Fault, List, QueryFault};
use sq_lex::{FLexeme, MOST_LEVELS, fql_lexemes, fql_lexemes_are_sound};
use sqlite_items::Boxed;
use std::alloc::{AllocError, Global};

/// What was found in the list of an operator.
#[derive(Debug, Drop)]
pub struct Found {
    pub operands: List<FRaw>,
    pub given: Given,
}

fn nothing(alloc: Global) -> Found
    ensures { result ≡ spec.nothing }
{
    Found {
        operands: List::new(alloc),
        given: nothing_given(),
    }
}

/// What was given, with the parameter whose name is `name` and whose value the lexemes begin with.
#[tactic(auto, unfolding(crate::specs::Read::with_parameter))]
fn with_parameter(
    alloc: Global,
    text: &str,
    operator: Operator,
    given: Given,
    name: FLexeme,
    lexemes: &[FLexeme],
) -> Result<Given, Fault>
    requires short { length text.now < 2 ^ 32 }
    requires name { IsWhole text.now name }
    requires whole { AreWhole text.now lexemes.now }
    ensures { Gives (λ given. given) result (spec.with_parameter text.now operator given name lexemes.now) }
{
    let parameter = parameter_named(operator, word_bytes(text, name));
    if let Some(Parameter::OtherBoost) = parameter {
        return Err(Fault::Query(refused(OTHER_BOOST, name.from)));
    }
    let value = wanted(text, lexemes)?;
    let value = content(alloc, text, value)?;
    let now = with_value(given, name.from, parameter, value.as_slice())?;
    Ok(now)
}

/// An operand where only literals may stand.
fn literal_only(alloc: Global, text: &str, role: Role, lexeme: FLexeme) -> Result<FRaw, Fault>
    requires { IsWhole text.now lexeme }
    ensures { Gives (λ tree. tree) result (spec.literal_only text.now role lexeme) }
{
    match role {
        Role::Operator | Role::Scope => Err(Fault::Query(refused(UNEXPECTED, lexeme.from))),
        Role::Parameter | Role::Literal => literal(alloc, text, lexeme),
    }
}

/// Whether no operand may follow so many.
fn is_full(operator: Operator, operands: &List<FRaw>) -> bool
    ensures { result ≡ spec.is_full operator operands.now }
{
    match operands_of(operator).most {
        None => false,
        Some(most) => most as usize <= operands.len(),
    }
}

/// The code of one operand too many.
fn extra_code(text: &str, literals: bool, role: Role, lexeme: FLexeme) -> u16
    requires { IsWhole text.now lexeme }
    ensures { result ≡ spec.extra_code text.now literals role lexeme }
{
    if literals {
        return EXTRA_ARGUMENT;
    }
    match role {
        Role::Operator => match operator_of(word_bytes(text, lexeme)) {
            None => UNKNOWN_OPERATOR,
            Some(_) => EXTRA_ARGUMENT,
        },
        Role::Scope | Role::Parameter | Role::Literal => EXTRA_ARGUMENT,
    }
}

/// The operator with what its list holds, which ends at a place.
#[tactic(auto, unfolding(crate::specs::Read::completed))]
fn completed(operator: Operator, found: &Found, at: u32) -> Result<Op, QueryFault>
    ensures { result ≡ spec.completed operator found.now at }
{
    if found.operands.len() < operands_of(operator).least as usize {
        return Err(refused(MISSING_ARGUMENT, at));
    }
    operation(operator, found.given, at)
}

fn with_operand(found: Found, tree: FRaw) -> Result<Found, AllocError>
    ensures { IfOk result (λ now. now ≡ spec.with_operand found tree) }
{
    let Found {
        mut operands,
        given,
    } = found;
    operands.push(tree)?;
    Ok(Found { operands, given })
}

/// The operand that the lexemes begin with, of which the first is `first`.
#[cycle(reading)]
#[tactic(auto, unfolding(crate::specs::Read::operand))]
fn operand<'a>(
    alloc: Global,
    text: &str,
    levels: u32,
    operator: Operator,
    role: Role,
    first: FLexeme,
    lexemes: &'a [FLexeme],
) -> Result<(FRaw, &'a [FLexeme]), Fault>
    requires short { length text.now < 2 ^ 32 }
    requires first { IsWhole text.now first }
    requires some { 0 < length lexemes.now }
    requires whole { AreWhole text.now lexemes.now }
    ensures value { Gives (λ read. (read.0, read.1.now)) result (spec.operand (spec.expression levels text.now) text.now operator role first lexemes.now) }
    ensures whole { IfOk result (λ read. AreWhole text.now read.1.now) }
    ensures shorter { IfOk result (λ read. length read.1.now < length lexemes.now) }
{
    if operands_of(operator).literals {
        let tree = literal_only(alloc, text, role, first)?;
        return Ok((tree, behind(lexemes)));
    }
    expression(alloc, text, levels, lexemes)
}

#[cycle(reading)]
#[tactic(auto, unfolding(crate::specs::Read::with_next_operand))]
fn with_next_operand<'a>(
    alloc: Global,
    text: &str,
    levels: u32,
    operator: Operator,
    found: Found,
    role: Role,
    first: FLexeme,
    lexemes: &'a [FLexeme],
) -> Result<(Found, &'a [FLexeme]), Fault>
    requires short { length text.now < 2 ^ 32 }
    requires first { IsWhole text.now first }
    requires some { 0 < length lexemes.now }
    requires whole { AreWhole text.now lexemes.now }
    ensures value { Gives (λ read. (read.0, read.1.now)) result (spec.with_next_operand (spec.expression levels text.now) text.now operator found role first lexemes.now) }
    ensures whole { IfOk result (λ read. AreWhole text.now read.1.now) }
    ensures shorter { IfOk result (λ read. length read.1.now < length lexemes.now) }
{
    if is_full(operator, &found.operands) {
        let code = extra_code(text, operands_of(operator).literals, role, first);
        return Err(Fault::Query(refused(code, first.from)));
    }
    let (tree, rest) = operand(alloc, text, levels, operator, role, first, lexemes)?;
    let now = with_operand(found, tree)?;
    Ok((now, rest))
}

/// A parameter or an operand.
#[cycle(reading)]
#[tactic(auto, unfolding(crate::specs::Read::entry))]
fn entry<'a>(
    alloc: Global,
    text: &str,
    levels: u32,
    operator: Operator,
    found: Found,
    lexemes: &'a [FLexeme],
) -> Result<(Found, &'a [FLexeme]), Fault>
    requires short { length text.now < 2 ^ 32 }
    requires whole { AreWhole text.now lexemes.now }
    ensures value { Gives (λ read. (read.0, read.1.now)) result (spec.entry (spec.expression levels text.now) text.now operator found lexemes.now) }
    ensures whole { IfOk result (λ read. AreWhole text.now read.1.now) }
    ensures shorter { IfOk result (λ read. length read.1.now < length lexemes.now) }
{
    let first = wanted(text, lexemes)?;
    let rest = behind(lexemes);
    match role_of(first, rest) {
        Role::Parameter => {
            let value = behind(rest);
            let Found { operands, given } = found;
            let given = with_parameter(alloc, text, operator, given, first, value)?;
            Ok((Found { operands, given }, behind(value)))
        }
        role => with_next_operand(alloc, text, levels, operator, found, role, first, lexemes),
    }
}

/// The entries of a list, the place of its `)`, and the lexemes behind it.
#[cycle(reading)]
fn entries<'a>(
    alloc: Global,
    text: &str,
    levels: u32,
    operator: Operator,
    lexemes: &'a [FLexeme],
) -> Result<(Found, u32, &'a [FLexeme]), Fault>
    requires short { length text.now < 2 ^ 32 }
    requires whole { AreWhole text.now lexemes.now }
    ensures value { Gives (λ read. (read.0, read.1, read.2.now)) result
        (spec.entries (spec.expression levels text.now) (suc (length lexemes.now)) text.now operator spec.nothing lexemes.now) }
    ensures whole { IfOk result (λ read. AreWhole text.now read.2.now) }
    ensures shorter { IfOk result (λ read. length read.2.now < length lexemes.now) }
{
    let mut found = nothing(alloc);
    let mut left = lexemes;
    'list: loop {
        let (now, rest) = entry(alloc, text, levels, operator, found, left)?;
        let end = separator(text, rest)?;
        left = behind(rest);
        match end {
            Some(at) => return Ok((now, at, left)),
            None => found = now,
        }
    }
}

/// An operator, whose `(` the lexemes begin with.
#[cycle(reading)]
fn applied<'a>(
    alloc: Global,
    text: &str,
    levels: u32,
    word: FLexeme,
    lexemes: &'a [FLexeme],
) -> Result<(FRaw, &'a [FLexeme]), Fault>
    requires short { length text.now < 2 ^ 32 }
    requires word { IsWhole text.now word }
    requires whole { AreWhole text.now lexemes.now }
    ensures value { Gives (λ read. (read.0, read.1.now)) result
        (spec.applied (spec.deeper levels text.now) text.now (table.operator_of (spec.word_text text.now word)) word lexemes.now) }
    ensures whole { IfOk result (λ read. AreWhole text.now read.1.now) }
    ensures shorter { IfOk result (λ read. length read.1.now ≤ length lexemes.now) }
{
    let Some(operator) = operator_of(word_bytes(text, word)) else {
        return Err(Fault::Query(refused(UNKNOWN_OPERATOR, word.from)));
    };
    if levels == 0 {
        return Err(Fault::Query(refused(TOO_DEEP, first_at(lexemes))));
    }
    let (found, at, rest) = entries(alloc, text, levels - 1, operator, behind(lexemes))?;
    let op = completed(operator, &found, at)?;
    let Found { operands, given: _ } = found;
    Ok((
        FRaw::Apply {
            at: word.from,
            op,
            operands,
        },
        rest,
    ))
}

/// A scope, whose `:` the lexemes begin with.
#[cycle(reading)]
fn scoped<'a>(
    alloc: Global,
    text: &str,
    levels: u32,
    name: FLexeme,
    lexemes: &'a [FLexeme],
) -> Result<(FRaw, &'a [FLexeme]), Fault>
    requires short { length text.now < 2 ^ 32 }
    requires name { IsWhole text.now name }
    requires whole { AreWhole text.now lexemes.now }
    ensures value { Gives (λ read. (read.0, read.1.now)) result (spec.scoped (spec.deeper levels text.now) text.now name lexemes.now) }
    ensures whole { IfOk result (λ read. AreWhole text.now read.1.now) }
    ensures shorter { IfOk result (λ read. length read.1.now ≤ length lexemes.now) }
{
    if levels == 0 {
        return Err(Fault::Query(refused(TOO_DEEP, first_at(lexemes))));
    }
    let (tree, rest) = expression(alloc, text, levels - 1, behind(lexemes))?;
    let at = name.from;
    let name = word_text(alloc, text, name)?;
    let inner = Boxed::new(alloc, tree)?;
    Ok((FRaw::Scope { at, name, inner }, rest))
}

/// A literal or the word `*`, and the lexemes behind it.
fn leaf_before<'a>(
    alloc: Global,
    text: &str,
    lexeme: FLexeme,
    rest: &'a [FLexeme],
) -> Result<(FRaw, &'a [FLexeme]), Fault>
    requires lexeme { IsWhole text.now lexeme }
    requires whole { AreWhole text.now rest.now }
    ensures value { Gives (λ read. (read.0, read.1.now)) result (spec.leaf_before text.now lexeme rest.now) }
    ensures whole { IfOk result (λ read. AreWhole text.now read.1.now) }
    ensures shorter { IfOk result (λ read. length read.1.now ≤ length rest.now) }
{
    let tree = leaf(alloc, text, lexeme)?;
    Ok((tree, rest))
}

fn begins_with_letter(text: &str, lexeme: FLexeme) -> bool
    requires { IsWhole text.now lexeme }
    ensures { result ≡ is_ascii_alphabetic (slice_index text.now lexeme.from) }
{
    text.as_bytes()[lexeme.from as usize].is_ascii_alphabetic()
}

/// The expression that lexemes begin with, where so many levels may be opened.
#[cycle(reading)]
#[tactic(auto, unfolding(crate::specs::Read::expression_over))]
fn expression<'a>(
    alloc: Global,
    text: &str,
    levels: u32,
    lexemes: &'a [FLexeme],
) -> Result<(FRaw, &'a [FLexeme]), Fault>
    requires short { length text.now < 2 ^ 32 }
    requires whole { AreWhole text.now lexemes.now }
    ensures value { Gives (λ read. (read.0, read.1.now)) result (spec.expression levels text.now lexemes.now) }
    ensures whole { IfOk result (λ read. AreWhole text.now read.1.now) }
    ensures shorter { IfOk result (λ read. length read.1.now < length lexemes.now) }
{
    let first = wanted(text, lexemes)?;
    let rest = behind(lexemes);
    match role_of(first, rest) {
        Role::Operator => applied(alloc, text, levels, first, rest),
        Role::Scope => {
            if begins_with_letter(text, first) {
                scoped(alloc, text, levels, first, rest)
            } else {
                leaf_before(alloc, text, first, rest)
            }
        }
        Role::Parameter | Role::Literal => leaf_before(alloc, text, first, rest),
    }
}

/// The tree of a text's lexemes, behind which nothing may follow.
#[tactic(auto, unfolding(crate::specs::Read::whole_of))]
fn whole_of(alloc: Global, text: &str, lexemes: &[FLexeme]) -> Result<FRaw, Fault>
    requires short { length text.now < 2 ^ 32 }
    requires whole { AreWhole text.now lexemes.now }
    ensures { Gives (λ tree. tree) result (spec.whole_of text.now lexemes.now) }
{
    if lexemes.is_empty() {
        return Err(Fault::Query(refused(EMPTY_QUERY, 0)));
    }
    let (tree, rest) = expression(alloc, text, MOST_LEVELS, lexemes)?;
    match rest {
        [] => Ok(tree),
        [lexeme, ..] => Err(Fault::Query(refused(UNEXPECTED, lexeme.from))),
    }
}

/// The tree of a text of the FAST Query Language, or its first fault: 201 or 203 of its lexemes, else the first of 202 and
/// 204 to 212 from left to right, the lower code where one lexeme finds two. A place is a number of bytes from the text's start.
#[tactic(auto, unfolding(crate::specs::Read::read_of))]
pub fn read_fql(alloc: Global, text: &str) -> Result<FRaw, Fault>
    ensures value { Gives (λ tree. tree) result (spec.read_of text.now) }
    ensures well_formed { IfOk result IsWellFormed }
{
    let lexemes = fql_lexemes(alloc, text)?;
    let tree = whole_of(alloc, text, lexemes.as_slice())?;
    fql_lexemes_are_sound();
    Ok(tree)
}
