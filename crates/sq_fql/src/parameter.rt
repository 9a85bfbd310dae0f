//! Parameters of operators.

ghost use Rattle.std.specs.Prelude.{◌≡◌};
ghost use Rattle.sq_fql.specs.Operators as table;
ghost use Rattle.sq_fql.specs.Parameters as spec;

use crate::codes::{BAD_PARAMETER, MISSING_ARGUMENT};
use crate::fault::refused;
use crate::limits::{FQL_DISTANCE, GREATEST_COUNT};
use crate::number::{natural, whole};
use crate::operator::{Operator, same_word};
use crate::raw::{Mode, Op};
use sq_base::{GREATEST_BOOST, GREATEST_DISTANCE, QueryFault};

/// A parameter by its operator and its name.
#[derive(Clone, Copy, Debug, PartialEq, Eq)]
pub enum Parameter {
    /// The distance of near, onear and a string.
    Distance,
    /// The numbers of count.
    From,
    To,
    /// How the bounds of range are compared.
    Lower,
    Upper,
    /// The mode of a string.
    ModeName,
    Cb,
    /// `n` beside a boost.
    Sample,
    /// A boost of another kind.
    OtherBoost,
}

/// What a parameter sets.
#[derive(Clone, Copy, Debug, PartialEq, Eq)]
pub enum Setting {
    N(u32),
    From(u32),
    To(u32),
    Above(bool),
    Below(bool),
    Mode(Mode),
    Cb(i64),
}

/// A number, and the place of its name.
#[derive(Clone, Copy, Debug, PartialEq, Eq)]
pub struct Number {
    pub value: u32,
    pub at: u32,
}

/// The parameters that were given.
#[derive(Clone, Copy, Debug, PartialEq, Eq)]
pub struct Given {
    pub n: Option<Number>,
    pub from: Option<u32>,
    pub to: Option<u32>,
    pub above: Option<bool>,
    pub below: Option<bool>,
    pub mode: Option<Mode>,
    pub cb: Option<i64>,
}

pub fn nothing_given() -> Given
    ensures { result ≡ spec.nothing_given }
{
    Given {
        n: None,
        from: None,
        to: None,
        above: None,
        below: None,
        mode: None,
        cb: None,
    }
}

fn distance_named(name: &[u8]) -> Option<Parameter>
    ensures { result ≡ table.named name.now (table.parameters Operator.Near) }
{
    if same_word(name, b"n") {
        Some(Parameter::Distance)
    } else {
        None
    }
}

fn count_named(name: &[u8]) -> Option<Parameter>
    ensures { result ≡ table.named name.now (table.parameters Operator.Count) }
{
    if same_word(name, b"from") {
        Some(Parameter::From)
    } else if same_word(name, b"to") {
        Some(Parameter::To)
    } else {
        None
    }
}

fn range_named(name: &[u8]) -> Option<Parameter>
    ensures { result ≡ table.named name.now (table.parameters Operator.Range) }
{
    if same_word(name, b"from") {
        Some(Parameter::Lower)
    } else if same_word(name, b"to") {
        Some(Parameter::Upper)
    } else {
        None
    }
}

fn string_named(name: &[u8]) -> Option<Parameter>
    ensures { result ≡ table.named name.now (table.parameters Operator.Str) }
{
    if same_word(name, b"mode") {
        Some(Parameter::ModeName)
    } else if same_word(name, b"n") {
        Some(Parameter::Distance)
    } else {
        None
    }
}

fn boost_named(name: &[u8]) -> Option<Parameter>
    ensures { result ≡ table.named name.now (table.parameters Operator.Xrank) }
{
    if same_word(name, b"cb") {
        Some(Parameter::Cb)
    } else if same_word(name, b"n") {
        Some(Parameter::Sample)
    } else if same_word(name, b"rb") {
        Some(Parameter::OtherBoost)
    } else if same_word(name, b"pb") {
        Some(Parameter::OtherBoost)
    } else if same_word(name, b"avgb") {
        Some(Parameter::OtherBoost)
    } else if same_word(name, b"stdb") {
        Some(Parameter::OtherBoost)
    } else if same_word(name, b"nb") {
        Some(Parameter::OtherBoost)
    } else {
        None
    }
}

/// The parameter of an operator that has a name.
pub fn parameter_named(operator: Operator, name: &[u8]) -> Option<Parameter>
    ensures { result ≡ table.named name.now (table.parameters operator) }
{
    match operator {
        Operator::Near | Operator::Onear => distance_named(name),
        Operator::Count => count_named(name),
        Operator::Range => range_named(name),
        Operator::Str => string_named(name),
        Operator::Xrank => boost_named(name),
        _ => None,
    }
}

fn lower_of(value: &[u8]) -> Option<bool>
    ensures { result ≡ table.named value.now spec.lower_bounds }
{
    if same_word(value, b"gt") {
        Some(true)
    } else if same_word(value, b"ge") {
        Some(false)
    } else {
        None
    }
}

fn upper_of(value: &[u8]) -> Option<bool>
    ensures { result ≡ table.named value.now spec.upper_bounds }
{
    if same_word(value, b"lt") {
        Some(true)
    } else if same_word(value, b"le") {
        Some(false)
    } else {
        None
    }
}

fn mode_of(value: &[u8]) -> Option<Mode>
    ensures { result ≡ table.named value.now spec.modes }
{
    if same_word(value, b"phrase") {
        Some(Mode::Phrase)
    } else if same_word(value, b"and") {
        Some(Mode::And)
    } else if same_word(value, b"or") {
        Some(Mode::Or)
    } else if same_word(value, b"any") {
        Some(Mode::Any)
    } else if same_word(value, b"near") {
        Some(Mode::Near)
    } else if same_word(value, b"onear") {
        Some(Mode::Onear)
    } else {
        None
    }
}

/// What a value sets as a parameter.
fn setting_of(parameter: Parameter, value: &[u8]) -> Option<Setting>
    ensures { result ≡ spec.setting_of parameter value.now }
{
    match parameter {
        Parameter::Distance => Some(Setting::N(natural(value, GREATEST_DISTANCE)?)),
        Parameter::From => Some(Setting::From(natural(value, GREATEST_COUNT)?)),
        Parameter::To => Some(Setting::To(natural(value, GREATEST_COUNT)?)),
        Parameter::Lower => Some(Setting::Above(lower_of(value)?)),
        Parameter::Upper => Some(Setting::Below(upper_of(value)?)),
        Parameter::ModeName => Some(Setting::Mode(mode_of(value)?)),
        Parameter::Cb => Some(Setting::Cb(whole(value, GREATEST_BOOST)?)),
        Parameter::Sample => Some(Setting::N(natural(value, GREATEST_BOOST)?)),
        Parameter::OtherBoost => None,
    }
}

/// A value where there was none.
fn first<T: Copy>(before: Option<T>, value: T) -> Option<T>
    ensures { result ≡ spec.first before value }
{
    match before {
        Some(_) => None,
        None => Some(value),
    }
}

/// What was given, with one more whose name stands at a place, unless it was given before.
fn with_setting(given: Given, at: u32, setting: Setting) -> Option<Given>
    ensures { result ≡ spec.with_setting setting at given }
{
    let mut now = given;
    match setting {
        Setting::N(value) => now.n = Some(first(given.n, Number { value, at })?),
        Setting::From(value) => now.from = Some(first(given.from, value)?),
        Setting::To(value) => now.to = Some(first(given.to, value)?),
        Setting::Above(value) => now.above = Some(first(given.above, value)?),
        Setting::Below(value) => now.below = Some(first(given.below, value)?),
        Setting::Mode(value) => now.mode = Some(first(given.mode, value)?),
        Setting::Cb(value) => now.cb = Some(first(given.cb, value)?),
    }
    Some(now)
}

/// What was given, with the value of a parameter whose name stands at a place.
pub fn with_value(
    given: Given,
    at: u32,
    parameter: Option<Parameter>,
    value: &[u8],
) -> Result<Given, QueryFault>
    ensures { result ≡ spec.with_value parameter value.now at given }
{
    let Some(parameter) = parameter else {
        return Err(refused(BAD_PARAMETER, at));
    };
    let Some(setting) = setting_of(parameter, value) else {
        return Err(refused(BAD_PARAMETER, at));
    };
    match with_setting(given, at, setting) {
        Some(now) => Ok(now),
        None => Err(refused(BAD_PARAMETER, at)),
    }
}

/// The distance that was given, or its default.
fn distance(given: Given) -> u32
    ensures { result ≡ spec.distance given.n }
{
    match given.n {
        Some(number) => number.value,
        None => FQL_DISTANCE,
    }
}

/// A string with its mode. Only near and onear have a distance.
fn string_operation(mode: Mode, given: Given) -> Result<Op, QueryFault>
    ensures { result ≡ spec.string_operation mode given.n }
{
    match mode {
        Mode::Near | Mode::Onear => Ok(Op::Str {
            mode,
            n: distance(given),
        }),
        Mode::Phrase | Mode::And | Mode::Or | Mode::Any => match given.n {
            Some(number) => Err(refused(BAD_PARAMETER, number.at)),
            None => Ok(Op::Str {
                mode,
                n: FQL_DISTANCE,
            }),
        },
    }
}

/// The operator with its parameters, at the place where its list ends.
pub fn operation(operator: Operator, given: Given, at: u32) -> Result<Op, QueryFault>
    ensures { result ≡ spec.operation operator given at }
{
    match operator {
        Operator::And => Ok(Op::And),
        Operator::Or => Ok(Op::Or),
        Operator::Any => Ok(Op::Any),
        Operator::AndNot => Ok(Op::AndNot),
        Operator::Not => Ok(Op::Not),
        Operator::Filter => Ok(Op::Filter),
        Operator::Count => Ok(Op::Count {
            from: given.from.unwrap_or(1),
            to: given.to,
        }),
        Operator::Range => Ok(Op::Range {
            above: given.above.unwrap_or(false),
            below: given.below.unwrap_or(false),
        }),
        Operator::Xrank => match given.cb {
            Some(cb) => Ok(Op::Xrank { cb }),
            None => Err(refused(MISSING_ARGUMENT, at)),
        },
        Operator::Near => Ok(Op::Near(distance(given))),
        Operator::Onear => Ok(Op::Onear(distance(given))),
        Operator::Words => Ok(Op::Words),
        Operator::Phrase => Ok(Op::Phrase),
        Operator::StartsWith => Ok(Op::StartsWith),
        Operator::EndsWith => Ok(Op::EndsWith),
        Operator::Equals => Ok(Op::Equals),
        Operator::Str => string_operation(given.mode.unwrap_or(Mode::Phrase), given),
        Operator::Int => Ok(Op::Int),
        Operator::DateTime => Ok(Op::DateTime),
    }
}
