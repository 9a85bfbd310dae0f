//! Laws of the definitions, for callers above. The functions do nothing.
ghost use Rattle.sq_coded.specs.Laws.{FollowsLast};

/// A posting may follow a list exactly where its last comes before it.
pub fn follows_last()
    ensures { FollowsLast }
{}
