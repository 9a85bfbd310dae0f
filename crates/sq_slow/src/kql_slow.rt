ghost use Rattle.std.specs.Prelude.{◌≡◌, ◌<◌, true, length, slice_get, Some, IfOk};
ghost use Rattle.std.specs.List.{list_all};
ghost use Rattle.sq_model.specs.declared.corpus.Item.{Item};
ghost use Rattle.sq_model.specs.Valid.{has_short_texts};
ghost use Rattle.sq_model.specs.Kql.{holds, boost};

use crate::kql_boost::boost;
use crate::kql_holds::holds;
use crate::seen::text_values;
use sq_model::{Corpus, Joiner, KTree};
use std::alloc::{AllocError, Global};

/// Whether the expression holds of the item in a row, by the meaning and not by an index. The joiner is that of the
/// loose operands of its runs.
pub fn kql_holds_slow(
    alloc: Global,
    corpus: &Corpus,
    tree: &KTree,
    row: u32,
    joiner: Joiner,
) -> Result<bool, AllocError>
    requires row { row < length corpus.now.items }
    requires short { list_all has_short_texts corpus.now.items ≡ true }
    ensures { IfOk result (λ b. (item : Item) → slice_get corpus.now.items row ≡ Some item → b ≡ holds corpus.now.schema item.values joiner tree.now) }
{
    let item = &corpus.items.as_slice()[row as usize];
    let texts = text_values(alloc, item)?;
    let answer = holds(alloc, &corpus.schema, item, texts.as_slice(), tree, joiner)?;
    Ok(answer)
}

/// The boost that the expression gives the item in a row under the joiner. A boost that passes 64 bits is given up as for
/// want of memory.
pub fn kql_boost_slow(
    alloc: Global,
    corpus: &Corpus,
    tree: &KTree,
    row: u32,
    joiner: Joiner,
) -> Result<i64, AllocError>
    requires row { row < length corpus.now.items }
    requires short { list_all has_short_texts corpus.now.items ≡ true }
    ensures { IfOk result (λ sum. (item : Item) → slice_get corpus.now.items row ≡ Some item → sum ≡ boost corpus.now.schema item.values joiner tree.now) }
{
    let item = &corpus.items.as_slice()[row as usize];
    let texts = text_values(alloc, item)?;
    let sum = boost(alloc, &corpus.schema, item, texts.as_slice(), tree, joiner)?;
    Ok(sum)
}
