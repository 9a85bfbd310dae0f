ghost use Rattle.std.specs.Prelude.{◌≡◌, ℕ, ◌+◌, true, [], ◌∷◌, ◌++◌, List, length, slice_get, slice_index_or, slice_range, option_to_list, IfOk, OnOk, OnErr};
ghost use Rattle.std.specs.List.{All, AllPass, list_all};
ghost use Rattle.std.specs.Option.{option_map};
ghost use Rattle.sq_model.specs.Valid.{IsValid, is_value};
ghost use Rattle.sq_stored.specs.Stored.{stored_item, stored_items, url_at, values_at};
ghost use Rattle.sq_stored.specs.Shown.{is_shown};
ghost use Rattle.sq_stored.specs.Runs.{IsRunIn};
ghost use Rattle.sq_stored.specs.Kept.{item_at, items_at, IsKept, IsRowIn};

use crate::runs::{Run, find_run, push_runs};
use crate::texts::Texts;
use sq_base::Steps;
use sq_model::{Corpus, Item, Value, values_are_shown};
use sq_schema::Schema;
use std::alloc::{AllocError, Global};
use std::marker::Model;
use std::sync::ledger::Ledger;

/// An item: the number of its url's text, its runs from number `start` to before number `end`, and how
/// many properties the schema has.
#[derive(Clone, Copy)]
pub struct Row {
    url: u32,
    start: u32,
    end: u32,
    properties: u32,
}

/// The urls of items and the texts of their values, as responses show them. Contracts see a list with
/// the url of each item and its values by property. A row is an item's place in that list, from 0.
#[derive(Drop)]
pub struct Stored {
    texts: Texts,
    runs: Vec<Run>,
    rows: Vec<Row>,
}

impl Model for Stored {
    ghost use Rattle.std.specs.Prelude.{List};
    ghost use Rattle.sq_stored.specs.Stored.{StoredItem};

    ghost Value = { List StoredItem };

    ghost use Rattle.sq_stored.specs.Kept.{item_at, items_at, IsKept};

    ghost view = { λ stored. items_at stored.texts stored.runs.items stored.rows.items };

    ghost invariant = { λ stored. IsKept stored.texts stored.runs.items stored.rows.items };
}

/// Adds an item. After `AllocError` the items are as before.
fn push_row(
    alloc: Global,
    texts: &mut Texts,
    runs: &mut Vec<Run>,
    rows: &mut Vec<Row>,
    item: &Item,
    properties: u32,
) -> Result<(), AllocError>
    requires shown { AllPass is_shown item.now.values }
    requires kept { IsKept texts.old runs.old.items rows.old.items }
    ensures ok { OnOk result (items_at texts.new runs.new.items rows.new.items
        ≡ items_at texts.old runs.old.items rows.old.items ++ stored_item properties item.now ∷ []) }
    ensures err { OnErr result (items_at texts.new runs.new.items rows.new.items ≡ items_at texts.old runs.old.items rows.old.items) }
    ensures kept { IsKept texts.new runs.new.items rows.new.items }
{
    let url = texts.count()?;
    let start = place(runs.len())?;
    texts.push(item.url.as_str())?;
    push_runs(alloc, texts, runs, item.values.as_slice(), properties)?;
    let end = place(runs.len())?;
    rows.push(Row {
        url,
        start,
        end,
        properties,
    })?;
    Ok(())
}

/// A place in a table, refused past 32 bits.
fn place(at: usize) -> Result<u32, AllocError>
    ensures { IfOk result (λ place. place ≡ at) }
{
    match u32::try_from(at) {
        Ok(place) => Ok(place),
        Err(_) => Err(AllocError),
    }
}

fn row_at(rows: &[Row], row: u32) -> Option<Row>
    ensures { result ≡ slice_get rows.now row }
{
    rows.get(row as usize).copied()
}

/// The run of a property of an item; where there is none, one without texts.
fn run_in(runs: &[Run], row: Row, property: u32) -> Run
    requires { IsRowIn (length runs.now) row }
    ensures value { (texts : List (List ℕ)) → slice_range texts result.start result.end ≡ slice_index_or (item_at texts runs.now row).values property [] }
    ensures within { (count : ℕ) → All (IsRunIn count) runs.now → IsRunIn count result }
{
    if property < row.properties {
        find_run(&runs[row.start as usize..row.end as usize], property)
    } else {
        find_run(&[], property)
    }
}

/// The same of a row, which may not be there.
fn run_at(runs: &[Run], rows: &[Row], row: u32, property: u32) -> Run
    requires { All (IsRowIn (length runs.now)) rows.now }
    ensures value { (texts : List (List ℕ)) → slice_range texts result.start result.end ≡ values_at (items_at texts runs.now rows.now) row property }
    ensures within { (count : ℕ) → All (IsRunIn count) runs.now → IsRunIn count result }
{
    match row_at(rows, row) {
        Some(row) => run_in(runs, row, property),
        None => find_run(&[], property),
    }
}

impl Stored {
    /// No items.
    pub fn new(alloc: Global) -> Stored
        ensures { result ≡ [] }
    {
        Stored {
            texts: Texts::new(alloc),
            runs: Vec::new(alloc),
            rows: Vec::new(alloc),
        }
    }

    /// The items of a corpus.
    pub fn build(alloc: Global, corpus: &Corpus) -> Result<Stored, AllocError>
        requires { IsValid corpus.now }
        ensures { IfOk result (λ stored. stored ≡ stored_items corpus.now.schema corpus.now.items) }
    {
        let mut stored = Stored::new(alloc);
        for item in corpus.items.as_slice() {
            stored.push(alloc, item, &corpus.schema)?;
        }
        stored.shrink();
        Ok(stored)
    }

    /// Adds an item, whose values are of the schema. So a corpus may be let go item by item. After
    /// `AllocError`, which also comes where a place has 32 bits no more, the items are as before.
    pub fn push(&mut self, alloc: Global, item: &Item, schema: &Schema) -> Result<(), AllocError>
        requires { list_all (is_value schema.now) item.now.values ≡ true }
        ensures ok { OnOk result (self.new ≡ self.old ++ stored_item (length schema.now) item.now ∷ []) }
        ensures err { OnErr result (self.new ≡ self.old) }
    {
        shows(schema, item.values.as_slice());
        push_row(
            alloc,
            &mut self.texts,
            &mut self.runs,
            &mut self.rows,
            item,
            schema.len(),
        )
    }

    /// Gives back what room was kept for more items.
    pub fn shrink(&mut self)
        ensures { self.new ≡ self.old }
    {
        self.texts.shrink();
        self.runs.shrink_to_fit();
        self.rows.shrink_to_fit();
    }

    /// How many items there are.
    pub fn len(&self) -> usize
        ensures { result ≡ length self.now }
    {
        self.rows.len()
    }

    /// The url of an item, `None` exactly where there is no such row. It takes no memory.
    pub fn url(&self, row: u32) -> Option<&str>
        ensures { option_map (λ text. text.now) result ≡ url_at self.now row }
    {
        let row = self.rows.get(row as usize)?;
        self.texts.get(row.url as usize)
    }

    /// How many values of a property an item has, 0 where there is no such row or property. It takes no
    /// memory.
    pub fn count(&self, row: u32, property: u32) -> u32
        ensures { result ≡ length (values_at self.now row property) }
    {
        let run = run_at(&self.runs, &self.rows, row, property);
        run.end - run.start
    }

    /// The text of a value, counted from 0 among those of its property, `None` exactly where there is no
    /// such value. One step is counted where there is one. It takes no memory.
    pub fn value<L: Ledger>(
        &self,
        row: u32,
        property: u32,
        i: u32,
        steps: &mut Steps<L>,
    ) -> Option<&str>
        ensures value { option_map (λ text. text.now) result ≡ slice_get (values_at self.now row property) i }
        ensures counted { steps.new ≡ steps.old + length (option_to_list result) }
    {
        let run = run_at(&self.runs, &self.rows, row, property);
        if i >= run.end - run.start {
            return None;
        }
        steps.tick();
        self.texts.get(run.start as usize + i as usize)
    }
}

/// Each value of the schema has a shown text.
fn shows(_schema: &Schema, _values: &[Value])
    requires { list_all (is_value _schema.now) _values.now ≡ true }
    ensures { AllPass is_shown _values.now }
{
    values_are_shown();
}
