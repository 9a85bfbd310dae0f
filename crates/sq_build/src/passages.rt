//! The passages of one property: the postings of their tokens, and their lengths.
ghost use Rattle.std.specs.Prelude.{◌≡◌, ℕ, ◌+◌, ◌<◌, ◌^◌, true, [], ◌∷◌, ◌++◌, List, Some, length, IfOk, IfSome, OnOk};
ghost use Rattle.std.specs.HashMap.{get_by_text};
ghost use Rattle.std.specs.List.{AllPass};
ghost use Rattle.std.specs.Option.{option_map};
ghost use Rattle.sq_model.specs.Passages.{Passage, passages};
ghost use Rattle.sq_model.specs.Valid.{has_short_texts};
ghost use Rattle.sq_postings.specs.Occurrences.{posting, passage_postings, postings_of};
ghost use Rattle.sq_build.specs.Gathered.{found, IsGathered, MayFollowAll, OthersStay};
ghost use Rattle.sq_build.specs.Lengths.{passage_lengths, lengths_from};
ghost use Rattle.sq_build.specs.Words.{words_in, passages_in, is_short_value};

use crate::gather::add_passage;
use sq_base::List;
use sq_coded::OpenLists;
use sq_model::{Content, Item, Value};
use sq_postings::Length;
use sq_tokens::{Tokens, tokens_of};
use std::alloc::{AllocError, Global};
use std::collections::HashMap;

/// Adds the length of a passage.
fn push_length(
    lengths: &mut List<Length>,
    row: u32,
    ordinal: u32,
    tokens: &Tokens,
) -> Result<(), AllocError>
    ensures { OnOk result (lengths.new ≡ lengths.old ++ record { row = row; ordinal = ordinal; tokens = length tokens.now } ∷ []) }
{
    let Ok(tokens) = u32::try_from(tokens.len()) else {
        return Err(AllocError);
    };
    lengths.push(Length {
        row,
        ordinal,
        tokens,
    })?;
    Ok(())
}

fn after(ordinal: u32) -> Result<u32, AllocError>
    ensures { IfOk result (λ next. next ≡ ordinal + 1) }
{
    match ordinal.checked_add(1) {
        Some(next) => Ok(next),
        None => Err(AllocError),
    }
}

/// The text of a value of this property, if it is a text.
fn words_of(value: &Value, property: u32) -> Option<&str>
    ensures value { option_map (λ text. text.now) result ≡ words_in property value.now }
    ensures short { is_short_value value.now ≡ true → IfSome result (λ text. length text.now < 2 ^ 32) }
{
    if value.property != property {
        return None;
    }
    match &value.content {
        Content::Words(text) => Some(text.as_str()),
        Content::Number(_) => None,
        Content::Moment(_) => None,
        Content::Flag(_) => None,
    }
}

/// Adds the passage of a value, if it is a text of the property. Gives the ordinal of the next one.
fn add_value(
    alloc: Global,
    ids: &mut HashMap<String, u32>,
    lists: &mut OpenLists,
    lengths: &mut List<Length>,
    row: u32,
    ordinal: u32,
    value: &Value,
    property: u32,
) -> Result<u32, AllocError>
    requires short { is_short_value value.now ≡ true }
    requires gathered { IsGathered (get_by_text ids.old) (length lists.old) }
    requires order { MayFollowAll (get_by_text ids.old) lists.old (posting row ordinal 0) }
    ensures gathered { OnOk result (IsGathered (get_by_text ids.new) (length lists.new)) }
    ensures others { OnOk result (OthersStay (get_by_text ids.old) lists.old (get_by_text ids.new) lists.new) }
    ensures order { IfOk result (λ next. MayFollowAll (get_by_text ids.new) lists.new (posting row next 0)) }
    ensures added { IfOk result (λ next. (t : List ℕ) (rest : List Passage) → found (get_by_text ids.new) lists.new t ++ passage_postings row next t rest
        ≡ found (get_by_text ids.old) lists.old t ++ passage_postings row ordinal t (passages_in property value.now ++ rest)) }
    ensures lengths { IfOk result (λ next. (rest : List Passage) → lengths.new ++ passage_lengths row next rest
        ≡ lengths.old ++ passage_lengths row ordinal (passages_in property value.now ++ rest)) }
{
    let Some(text) = words_of(value, property) else {
        return Ok(ordinal);
    };
    let tokens = tokens_of(alloc, text)?;
    add_passage(alloc, ids, lists, row, ordinal, &tokens)?;
    push_length(lengths, row, ordinal, &tokens)?;
    let next = after(ordinal)?;
    Ok(next)
}

/// Adds the passages of a property of an item.
fn add_values(
    alloc: Global,
    ids: &mut HashMap<String, u32>,
    lists: &mut OpenLists,
    lengths: &mut List<Length>,
    row: u32,
    values: &[Value],
    property: u32,
) -> Result<(), AllocError>
    requires short { AllPass is_short_value values.now }
    requires gathered { IsGathered (get_by_text ids.old) (length lists.old) }
    requires order { MayFollowAll (get_by_text ids.old) lists.old (posting row 0 0) }
    ensures gathered { OnOk result (IsGathered (get_by_text ids.new) (length lists.new)) }
    ensures others { OnOk result (OthersStay (get_by_text ids.old) lists.old (get_by_text ids.new) lists.new) }
    ensures order { OnOk result (MayFollowAll (get_by_text ids.new) lists.new (posting (row + 1) 0 0)) }
    ensures added { OnOk result ((t : List ℕ) → found (get_by_text ids.new) lists.new t
        ≡ found (get_by_text ids.old) lists.old t ++ passage_postings row 0 t (passages values.now property)) }
    ensures lengths { OnOk result (lengths.new ≡ lengths.old ++ passage_lengths row 0 (passages values.now property)) }
{
    let mut ordinal = 0;
    for value in values {
        let next = add_value(alloc, ids, lists, lengths, row, ordinal, value, property)?;
        ordinal = next;
    }
    Ok(())
}

/// Adds the passages of a property of all items.
pub fn add_items(
    alloc: Global,
    ids: &mut HashMap<String, u32>,
    lists: &mut OpenLists,
    lengths: &mut List<Length>,
    items: &[Item],
    property: u32,
) -> Result<(), AllocError>
    requires few { length items.now < 2 ^ 32 }
    requires short { AllPass has_short_texts items.now }
    requires gathered { IsGathered (get_by_text ids.old) (length lists.old) }
    requires empty { (t : List ℕ) → found (get_by_text ids.old) lists.old t ≡ [] }
    ensures gathered { OnOk result (IsGathered (get_by_text ids.new) (length lists.new)) }
    ensures others { OnOk result (OthersStay (get_by_text ids.old) lists.old (get_by_text ids.new) lists.new) }
    ensures added { OnOk result ((t : List ℕ) → found (get_by_text ids.new) lists.new t ≡ postings_of items.now property t) }
    ensures lengths { OnOk result (lengths.new ≡ lengths.old ++ lengths_from 0 property items.now) }
{
    for (row, item) in items.iter().enumerate() {
        let values = item.values.as_slice();
        add_values(alloc, ids, lists, lengths, row as u32, values, property)?;
    }
    Ok(())
}
