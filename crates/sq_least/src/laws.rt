ghost use Rattle.sq_least.specs.Dense.{DenseChain, DenseNear, DenseSums, DenseUnion, LeastOfDense, WeightsOfMatches};
ghost use Rattle.sq_least.specs.Laws.{LeastInside, LeastOfUnion, NearOfLeast, NearSplitsByWeight, WidthCountsWeights};
ghost use Rattle.sq_least.specs.Plan.{LeastByWeight};

/// The matches of a near, by the weights of its parts.
pub fn near_splits_by_weight()
    ensures { NearSplitsByWeight }
{}

/// Each match has a least one inside.
pub fn least_inside()
    ensures { LeastInside }
{}

/// A near of least matches, each part's of one weight, has the same least matches.
pub fn near_of_least()
    ensures { NearOfLeast }
{}

/// A union of least matches has the same least matches.
pub fn least_of_union()
    ensures { LeastOfUnion }
{}

/// Spans know no weight: a join counts the weights of its parts into its width.
pub fn width_counts_weights()
    ensures { WidthCountsWeights }
{}

/// Enough of what is enough is enough.
pub fn dense_chain()
    ensures { DenseChain }
{}

/// Enough matches of one weight have the same least ones.
pub fn least_of_dense()
    ensures { LeastOfDense }
{}

/// Enough of each part is enough of their union.
pub fn dense_union()
    ensures { DenseUnion }
{}

/// Enough of each part is enough of a near.
pub fn dense_near()
    ensures { DenseNear }
{}

/// A near by the weights of its parts that have the sum.
pub fn dense_sums()
    ensures { DenseSums }
{}

/// The weights that the syntax allows are those of the matches.
pub fn weights_of_matches()
    ensures { WeightsOfMatches }
{}

/// To any depth, the least matches of one weight are those of the plan over least matches.
pub fn least_by_weight()
    ensures { LeastByWeight }
{}
