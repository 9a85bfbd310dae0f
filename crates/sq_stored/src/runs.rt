//! The shown values of an item, property by property.
ghost use Rattle.std.specs.Prelude.{◌≡◌, ◌++◌, length, OnOk};
ghost use Rattle.std.specs.List.{All, AllPass, flat_map, range_with_len};
ghost use Rattle.sq_stored.specs.Shown.{is_shown, shown_values};
ghost use Rattle.sq_stored.specs.Runs.{IsRunIn, IsGrown, run_under, run_of, runs_from};

use crate::texts::Texts;
use sq_model::{Value, shown_text};
use std::alloc::{AllocError, Global};

/// The texts from number `start` to before number `end`, which are an item's values of one property.
#[derive(Clone, Copy)]
pub struct Run {
    pub property: u32,
    pub start: u32,
    pub end: u32,
}

/// The run of a property; where there is none, one without texts.
pub fn find_run(runs: &[Run], property: u32) -> Run
    ensures { result ≡ run_under runs.now property }
{
    for run in runs {
        if run.property == property {
            return *run;
        }
    }
    Run {
        property: 0,
        start: 0,
        end: 0,
    }
}

/// Adds the shown values of a property.
fn push_values(
    alloc: Global,
    texts: &mut Texts,
    values: &[Value],
    property: u32,
) -> Result<(), AllocError>
    requires { AllPass is_shown values.now }
    ensures ok { OnOk result (texts.new ≡ texts.old ++ shown_values values.now property) }
    ensures grown { IsGrown texts.old texts.new }
{
    for value in values {
        if value.property == property {
            let text = shown_text(alloc, &value.content)?;
            texts.push(text.as_str())?;
        }
    }
    Ok(())
}

/// Adds the shown values of a property, and their run where there are some.
fn push_run(
    alloc: Global,
    texts: &mut Texts,
    runs: &mut Vec<Run>,
    values: &[Value],
    property: u32,
) -> Result<(), AllocError>
    requires shown { AllPass is_shown values.now }
    requires within { All (IsRunIn (length texts.old)) runs.old.items }
    ensures texts { OnOk result (texts.new ≡ texts.old ++ shown_values values.now property) }
    ensures runs { OnOk result (runs.new.items ≡ runs.old.items ++ run_of property (length texts.old) (length (shown_values values.now property))) }
    ensures grown_texts { IsGrown texts.old texts.new }
    ensures grown_runs { IsGrown runs.old.items runs.new.items }
    ensures within { All (IsRunIn (length texts.new)) runs.new.items }
{
    let start = texts.count()?;
    push_values(alloc, texts, values, property)?;
    let end = texts.count()?;
    if start < end {
        runs.push(Run {
            property,
            start,
            end,
        })?;
    }
    Ok(())
}

/// Adds the shown values of the first so many properties, and their runs.
pub fn push_runs(
    alloc: Global,
    texts: &mut Texts,
    runs: &mut Vec<Run>,
    values: &[Value],
    properties: u32,
) -> Result<(), AllocError>
    requires shown { AllPass is_shown values.now }
    requires within { All (IsRunIn (length texts.old)) runs.old.items }
    ensures texts { OnOk result (texts.new ≡ texts.old ++ flat_map (shown_values values.now) (range_with_len 0 properties)) }
    ensures runs { OnOk result (runs.new.items ≡ runs.old.items ++ runs_from values.now (length texts.old) (range_with_len 0 properties)) }
    ensures grown_texts { IsGrown texts.old texts.new }
    ensures grown_runs { IsGrown runs.old.items runs.new.items }
    ensures within { All (IsRunIn (length texts.new)) runs.new.items }
{
    for property in 0..properties {
        push_run(alloc, texts, runs, values, property)?;
    }
    Ok(())
}
