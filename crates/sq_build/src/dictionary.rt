//! The terms of all properties, with their postings and the lengths of passages.
ghost use Rattle.std.specs.Prelude.{◌≡◌, ◌+◌, ◌<◌, ◌^◌, [], ◌∷◌, ◌++◌, length, IfOk, OnOk};
ghost use Rattle.std.specs.List.{AllPass};
ghost use Rattle.sq_model.specs.Valid.{has_short_texts};
ghost use Rattle.sq_build.specs.Dictionary.{AreTerms, lengths_by_property};
ghost use Rattle.sq_build.specs.Lengths.{lengths_from};

use crate::passages::add_items;
use crate::terms::sorted_terms;
use sq_base::List;
use sq_coded::{Lists, OpenLists};
use sq_model::Item;
use sq_postings::{Length, Term};
use std::alloc::{AllocError, Global};
use std::collections::HashMap;

/// What the texts of a corpus give to an index.
#[derive(Drop)]
pub struct Dictionary {
    /// By property and then by the bytes of the token.
    pub terms: List<Term>,
    pub lists: Lists,
    /// For each property the lengths of its passages, by row and then by ordinal.
    pub lengths: List<List<Length>>,
}

/// Adds the terms, postings and lengths of a property behind those of the properties before it.
fn add_property(
    alloc: Global,
    terms: &mut Vec<Term>,
    lists: &mut OpenLists,
    lengths: &mut List<List<Length>>,
    items: &[Item],
    property: u32,
) -> Result<(), AllocError>
    requires few { length items.now < 2 ^ 32 }
    requires short { AllPass has_short_texts items.now }
    requires terms { AreTerms items.now property terms.old.items lists.old }
    ensures terms { OnOk result (AreTerms items.now (property + 1) terms.new.items lists.new) }
    ensures lengths { OnOk result (lengths.new ≡ lengths.old ++ lengths_from 0 property items.now ∷ []) }
{
    let mut ids = HashMap::new(alloc);
    let mut table = List::new(alloc);
    add_items(alloc, &mut ids, lists, &mut table, items, property)?;
    let mut more = sorted_terms(alloc, ids, property)?;
    terms.append(&mut more)?;
    lengths.push(table)?;
    Ok(())
}

/// The terms, if their numbers have 32 bits.
fn few_terms(terms: Vec<Term>) -> Result<List<Term>, AllocError>
    ensures { IfOk result (λ list. (list ≡ terms.items) × (length list < 2 ^ 32)) }
{
    match u32::try_from(terms.len()) {
        Ok(_) => Ok(List::from_vec(terms)),
        Err(_) => Err(AllocError),
    }
}

/// The terms of so many properties with their postings, and the lengths of their passages.
///
/// `properties` is how many the schema has.
pub fn dictionary_of(
    alloc: Global,
    items: &[Item],
    properties: u32,
) -> Result<Dictionary, AllocError>
    requires few { length items.now < 2 ^ 32 }
    requires short { AllPass has_short_texts items.now }
    ensures few { IfOk result (λ all. length all.terms < 2 ^ 32) }
    ensures terms { IfOk result (λ all. AreTerms items.now properties all.terms all.lists) }
    ensures lengths { IfOk result (λ all. all.lengths ≡ lengths_by_property properties items.now) }
{
    let mut terms = Vec::new(alloc);
    let mut lists = OpenLists::new(alloc);
    let mut lengths = List::new(alloc);
    for property in 0..properties {
        add_property(alloc, &mut terms, &mut lists, &mut lengths, items, property)?;
    }
    let terms = few_terms(terms)?;
    let lists = lists.seal()?;
    Ok(Dictionary {
        terms,
        lists,
        lengths,
    })
}
