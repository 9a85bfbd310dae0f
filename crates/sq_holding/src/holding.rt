ghost use Rattle.std.specs.Prelude.{◌≡◌, true, IfOk};
ghost use Rattle.std.specs.List.{list_all};
ghost use Rattle.sq_model.specs.Valid.{IsValid, is_item};
ghost use Rattle.sq_stored.specs.Stored.{stored_items};
ghost use Rattle.sq_holding.specs.Holds.{Holds, IsHeld};

use sq_base::List;
use sq_build::build_index;
use sq_model::{Caller, Corpus, Item};
use sq_postings::Index;
use sq_schema::Schema;
use sq_stored::Stored;
use std::alloc::{AllocError, Global};
use std::collections::VecDeque;
use std::marker::Model;

/// What is stored of items, each of which is let go as soon as its own url and values are kept: so the memory of the
/// items behind is there for the texts that are kept.
fn stored_of(alloc: Global, schema: &Schema, items: List<Item>) -> Result<Stored, AllocError>
    requires { list_all (is_item schema.now) items ≡ true }
    ensures { IfOk result (λ stored. stored ≡ stored_items schema.now items) }
{
    let mut stored = Stored::new(alloc);
    let mut left = VecDeque::from_vec(items.into_vec());
    while let Some(item) = left.pop_front() {
        stored.push(alloc, &item, schema)?;
    }
    stored.shrink();
    Ok(stored)
}

/// The schema and callers of a valid corpus, its index and its stored values, and nothing else of it.
#[derive(Drop)]
pub struct Holding {
    schema: Schema,
    callers: List<Caller>,
    index: Index,
    stored: Stored,
}

impl Model for Holding {
    ghost use Rattle.sq_holding.specs.Held.{Held, held_of};
    ghost use Rattle.sq_holding.specs.Holds.{IsHeld};

    ghost Value = { Held };

    ghost view = { λ holding. held_of holding.schema holding.callers holding.index holding.stored };

    ghost invariant = { λ holding. IsHeld (held_of holding.schema holding.callers holding.index holding.stored) };
}

impl Holding {
    /// What is held of a corpus, whose items are let go.
    ///
    /// `AllocError` where memory runs out, or past what an index or stored values can keep.
    pub fn of(alloc: Global, corpus: Corpus) -> Result<Holding, AllocError>
        requires { IsValid corpus }
        ensures { IfOk result (λ holding. Holds holding corpus) }
    {
        let index = build_index(alloc, &corpus)?;
        let Corpus {
            schema,
            callers,
            items,
        } = corpus;
        let stored = stored_of(alloc, &schema, items)?;
        Ok(Holding {
            schema,
            callers,
            index,
            stored,
        })
    }

    /// The same of a corpus that stays: its schema and its callers alone are copied.
    pub fn of_copy(alloc: Global, corpus: &Corpus) -> Result<Holding, AllocError>
        requires { IsValid corpus.now }
        ensures { IfOk result (λ holding. Holds holding corpus.now) }
    {
        let index = build_index(alloc, corpus)?;
        let stored = Stored::build(alloc, corpus)?;
        let schema = corpus.schema.clone()?;
        let callers = corpus.callers.clone()?;
        Ok(Holding {
            schema,
            callers,
            index,
            stored,
        })
    }

    /// The schema of the corpus.
    pub fn schema(&self) -> &Schema
        ensures { result.now ≡ self.now.schema }
    {
        &self.schema
    }

    /// Who may ask, in the order of the corpus.
    pub fn callers(&self) -> &List<Caller>
        ensures { result.now ≡ self.now.callers }
    {
        &self.callers
    }

    /// The index of the items. Its rows are the positions of the items, from 0.
    pub fn index(&self) -> &Index
        ensures { result.now ≡ self.now.index }
    {
        &self.index
    }

    /// The urls and the shown values of the items, by the same rows.
    pub fn stored(&self) -> &Stored
        ensures { result.now ≡ self.now.stored }
    {
        &self.stored
    }

    /// There is a corpus that is held. It does nothing.
    pub fn tells(&self)
        ensures { IsHeld self.now }
    {
        let _schema = &self.schema;
    }
}
