//! Laws of what is left of streams, for callers above. The functions do nothing.
ghost use Rattle.sq_near.specs.Laws.{JoinedAreLeast, MergedAreLeast};

/// In each passage a join has just the least pairs of a near over the parts' spans.
pub fn joined_are_least()
    ensures { JoinedAreLeast }
{}

/// In each passage a merge has just the least pairs of the union of the parts' spans.
pub fn merged_are_least()
    ensures { MergedAreLeast }
{}
