//! Laws of the streams of expressions. The functions do nothing.
ghost use Rattle.sq_streams.specs.TreeLaws.{JoinsAreStreams, NearsAreStreams, RowsHaveMatches, UnionsAreStreams};
ghost use Rattle.sq_streams.specs.TreePrices.{PriceOfWeights};

/// The merge of the parts' streams of one weight is the stream of their union.
pub(crate) fn unions_are_streams()
    ensures { UnionsAreStreams }
{
    sq_least::least_inside();
    sq_least::dense_chain();
    sq_least::dense_union();
    sq_near::merged_are_least();
}

/// The join of the parts' streams counts their weights into its width.
pub(crate) fn joins_are_streams()
    ensures { JoinsAreStreams }
{
    sq_least::least_inside();
    sq_least::near_splits_by_weight();
    sq_least::width_counts_weights();
    sq_least::dense_chain();
    sq_least::dense_near();
    sq_near::joined_are_least();
}

/// The merge of the joins for all choices of weights that have the sum is the stream of a near.
pub(crate) fn nears_are_streams()
    ensures { NearsAreStreams }
{
    sq_least::least_inside();
    sq_least::dense_chain();
    sq_least::dense_union();
    sq_least::dense_sums();
    sq_least::weights_of_matches();
    sq_near::merged_are_least();
}

/// A row has a match exactly where the stream of one of the weights has a span there.
pub(crate) fn rows_have_matches()
    ensures { RowsHaveMatches }
{
    sq_least::weights_of_matches();
}

/// The streams of different weights read each posting at most once for each copy.
pub(crate) fn price_of_weights()
    ensures { PriceOfWeights }
{}
