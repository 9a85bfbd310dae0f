ghost use Rattle.std.specs.Prelude.{◌≡◌, ◌&&◌, not, map, IfOk};
ghost use Rattle.std.specs.Char.{is_control};
ghost use Rattle.std.specs.List.{list_all};
ghost use Rattle.std.specs.Str.{chars};
ghost use Rattle.sq_model.specs.Valid as valid;
ghost use Rattle.sq_schema.specs.Dates.{interval_of};
ghost use Rattle.sq_schema.specs.Values.{number_of};
ghost use Rattle.sq_corpus.specs.Escapes.{text_of};
ghost use Rattle.sq_corpus.specs.Lines as spec;
ghost use Rattle.sq_corpus.specs.Reads.{Gives};

use crate::escapes::text_of;
use crate::fault::Refusal;
use sq_base::{List, Text, is_xml_text};
use sq_model::Content;
use sq_schema::{Kind, day_interval, number};
use std::alloc::{AllocError, Global};

const MOST_NAME_BYTES: usize = 128;

const GREATEST_ITEM_NUMBER: i64 = 4_294_967_294;

const GREATEST_RANK: i64 = 1_000_000_000;

const MOST_CLAIMS: usize = 64;

const DATE_BYTES: usize = 10;

fn has_no_control(text: &str) -> bool
    ensures { result ≡ list_all (λ c. not (is_control c)) (chars text.now) }
{
    text.chars().all(|c| !c.is_control())
}

/// Whether the field may be a caller's name or a claim.
#[tactic(auto, using(crate::proofs::LineLemmas::utf8_test))]
pub(crate) fn is_name(field: &str) -> bool
    ensures { result ≡ valid.is_name field.now }
{
    1 <= field.len()
        && field.len() <= MOST_NAME_BYTES
        && is_xml_text(field)
        && has_no_control(field)
}

/// Whether each field may be a claim.
pub(crate) fn are_names(fields: &[&str]) -> bool
    ensures { result ≡ list_all valid.is_name (map (λ field. field.now) fields.now) }
{
    for field in fields {
        if !is_name(field) {
            return false;
        }
    }
    true
}

/// Copies of the fields.
pub(crate) fn copies_of(alloc: Global, fields: &[&str]) -> Result<List<Text>, AllocError>
    ensures { IfOk result (λ texts. texts ≡ map (λ field. field.now) fields.now) }
{
    let mut texts = Vec::with_capacity(alloc, fields.len())?;
    for field in fields {
        texts.push(Text::from_str(alloc, field)?)?;
    }
    Ok(List::from_vec(texts))
}

/// The number of an item, from 1 to 4,294,967,294.
#[tactic(auto, unfolding(crate::specs::Lines::number_from_to))]
pub(crate) fn item_number(field: &str) -> Option<u32>
    ensures { result ≡ spec.item_number field.now }
{
    match number(field) {
        Ok(n) => {
            if 1 <= n && n <= GREATEST_ITEM_NUMBER {
                Some(n as u32)
            } else {
                None
            }
        }
        Err(_) => None,
    }
}

/// A static rank, from -1,000,000,000 to 1,000,000,000.
#[tactic(auto, unfolding(crate::specs::Lines::number_from_to))]
pub(crate) fn rank_of(field: &str) -> Option<i64>
    ensures { result ≡ spec.rank_of field.now }
{
    match number(field) {
        Ok(n) => {
            if -GREATEST_RANK <= n && n <= GREATEST_RANK {
                Some(n)
            } else {
                None
            }
        }
        Err(_) => None,
    }
}

#[tactic(auto, unfolding(crate::specs::Lines::moment_of))]
fn moment_of(field: &str) -> Result<Content, Refusal>
    ensures { Gives (spec.moment_of field.now (interval_of field.now)) result }
{
    match day_interval(field) {
        Some(interval) => {
            if field.len() > DATE_BYTES {
                Ok(Content::Moment(interval.first))
            } else {
                Err(Refusal::Code(607))
            }
        }
        None => Err(Refusal::Code(607)),
    }
}

#[tactic(auto, unfolding(crate::specs::Lines::flag_of))]
fn flag_of(field: &str) -> Result<Content, Refusal>
    ensures { Gives (spec.flag_of field.now) result }
{
    if field == "true" {
        Ok(Content::Flag(true))
    } else if field == "false" {
        Ok(Content::Flag(false))
    } else {
        Err(Refusal::Code(607))
    }
}

fn integer_of(field: &str) -> Result<Content, Refusal>
    ensures { Gives (spec.integer_of (number_of field.now)) result }
{
    match number(field) {
        Ok(n) => Ok(Content::Number(n)),
        Err(_) => Err(Refusal::Code(603)),
    }
}

fn words_of(alloc: Global, field: &str) -> Result<Content, Refusal>
    ensures { Gives (spec.words_of (text_of field.now)) result }
{
    match text_of(alloc, field)? {
        Some(text) => Ok(Content::Words(text)),
        None => Err(Refusal::Code(607)),
    }
}

/// The content that a field spells for a property of this kind.
#[tactic(auto, unfolding(crate::specs::Lines::content_of))]
pub(crate) fn content_of(alloc: Global, kind: Kind, field: &str) -> Result<Content, Refusal>
    ensures { Gives (spec.content_of kind field.now) result }
{
    match kind {
        Kind::Text => words_of(alloc, field),
        Kind::Integer => integer_of(field),
        Kind::DateTime => moment_of(field),
        Kind::YesNo => flag_of(field),
    }
}

/// The fault of an access list of these claims.
#[tactic(auto, unfolding(crate::specs::Lines::list_fault))]
pub(crate) fn list_fault(claims: &[&str]) -> Option<u16>
    ensures { result ≡ spec.list_fault (map (λ claim. claim.now) claims.now) }
{
    if !are_names(claims) {
        Some(607)
    } else if claims.len() > MOST_CLAIMS {
        Some(608)
    } else {
        None
    }
}
