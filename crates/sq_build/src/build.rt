//! The index of a corpus, made of its parts.
ghost use Rattle.std.specs.Prelude.{IfOk};
ghost use Rattle.sq_model.specs.Valid.{IsValid};
ghost use Rattle.sq_postings.specs.StandsFor.{StandsFor};
ghost use Rattle.sq_build.specs.AreParts.{AreParts};

use crate::claims::sorted_claims;
use crate::dictionary::dictionary_of;
use crate::numbers::numbers_by_property;
use crate::rows::{rows_of, shapes_of};
use sq_base::List;
use sq_model::{Corpus, valid_texts_are_short};
use sq_postings::{Index, Parts};
use std::alloc::{AllocError, Global};

/// What an index keeps of a corpus.
fn parts_of(alloc: Global, corpus: &Corpus) -> Result<Parts, AllocError>
    requires { IsValid corpus.now }
    ensures { IfOk result (λ parts. AreParts parts corpus.now) }
{
    valid_texts_are_short();
    let items = corpus.items.as_slice();
    let properties = corpus.schema.len();
    let shapes = shapes_of(alloc, &corpus.schema)?;
    let rows = rows_of(alloc, items)?;
    let values = numbers_by_property(alloc, items, properties)?;
    let allow = sorted_claims(alloc, items, false)?;
    let deny = sorted_claims(alloc, items, true)?;
    let found = dictionary_of(alloc, items, properties)?;
    Ok(Parts {
        shapes,
        rows,
        terms: found.terms,
        lists: found.lists,
        values,
        lengths: found.lengths,
        allow: List::from_vec(allow),
        deny: List::from_vec(deny),
    })
}

/// The index of a valid corpus, which keeps nothing of the corpus itself.
///
/// `AllocError` where memory runs out, or past what coded lists and 32 bits of a term's number hold.
pub fn build_index(alloc: Global, corpus: &Corpus) -> Result<Index, AllocError>
    requires { IsValid corpus.now }
    ensures { IfOk result (λ index. StandsFor index corpus.now) }
{
    let parts = parts_of(alloc, corpus)?;
    Ok(Index::new(parts))
}
