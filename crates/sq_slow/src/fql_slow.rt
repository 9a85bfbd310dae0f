ghost use Rattle.std.specs.Prelude.{◌≡◌, ◌<◌, true, length, slice_get, Some, IfOk};
ghost use Rattle.std.specs.List.{list_all};
ghost use Rattle.sq_model.specs.declared.corpus.Item.{Item};
ghost use Rattle.sq_model.specs.Valid.{has_short_texts};
ghost use Rattle.sq_model.specs.Fql.{holds, boost};

use crate::fql_boost::boost;
use crate::fql_holds::holds;
use crate::seen::text_values;
use sq_model::{Corpus, FTree};
use std::alloc::{AllocError, Global};

/// Whether the expression holds of the item in a row, by the meaning and not by an index.
pub fn fql_holds_slow(
    alloc: Global,
    corpus: &Corpus,
    tree: &FTree,
    row: u32,
) -> Result<bool, AllocError>
    requires row { row < length corpus.now.items }
    requires short { list_all has_short_texts corpus.now.items ≡ true }
    ensures { IfOk result (λ b. (item : Item) → slice_get corpus.now.items row ≡ Some item → b ≡ holds corpus.now.schema item.values tree.now) }
{
    let item = &corpus.items.as_slice()[row as usize];
    let texts = text_values(alloc, item)?;
    let answer = holds(alloc, &corpus.schema, item, texts.as_slice(), tree)?;
    Ok(answer)
}

/// The boost that the expression gives the item in a row. A boost that passes 64 bits is given up as for
/// want of memory.
pub fn fql_boost_slow(
    alloc: Global,
    corpus: &Corpus,
    tree: &FTree,
    row: u32,
) -> Result<i64, AllocError>
    requires row { row < length corpus.now.items }
    requires short { list_all has_short_texts corpus.now.items ≡ true }
    ensures { IfOk result (λ sum. (item : Item) → slice_get corpus.now.items row ≡ Some item → sum ≡ boost corpus.now.schema item.values tree.now) }
{
    let item = &corpus.items.as_slice()[row as usize];
    let texts = text_values(alloc, item)?;
    let sum = boost(alloc, &corpus.schema, item, texts.as_slice(), tree)?;
    Ok(sum)
}
