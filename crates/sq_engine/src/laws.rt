//! Laws of verdicts and of prices.
ghost use Rattle.sq_engine.specs.AlikeLaws.{AlikeCostAlike, AlikeGiveOneVerdict};
ghost use Rattle.sq_engine.specs.Leak.{NothingLeaks, UnknownAreUnnamed};

/// Corpora that look the same to a caller give him the same verdict on every request at every moment: nothing of an item
/// that he may not see is told, not even by a count.
pub fn nothing_leaks()
    ensures { NothingLeaks }
{}

/// A caller is unknown exactly where no caller of the corpus has the name.
pub fn unknown_are_unnamed()
    ensures { UnknownAreUnnamed }
{}

/// Corpora that are alike give every caller one verdict on every request at every moment.
pub fn alike_give_one_verdict()
    ensures { AlikeGiveOneVerdict }
{}

/// Corpora that are alike ask one price of every caller for every request at every moment.
pub fn alike_cost_alike()
    ensures { AlikeCostAlike }
{}
