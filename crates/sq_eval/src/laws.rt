//! Laws for callers above. The functions do nothing.
ghost use Rattle.sq_eval.specs.Laws.{BoostsAreBounded};

/// A sound expression adds to a rank at most 10^12, and takes at most as much away.
pub fn boosts_are_bounded()
    ensures { BoostsAreBounded }
{}
