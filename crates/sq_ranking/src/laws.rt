//! Laws of pages.
ghost use Rattle.sq_model.specs.Access.{Seen};
ghost use Rattle.sq_ranking.specs.Laws.{AlikeOrdersGiveOnePage, PagesAreSeen};
ghost use Rattle.sq_ranking.specs.Ranking.{Ranked};
ghost use Rattle.sq_ranking.specs.declared.keys.RankedHit.{RankedHit};

/// Two ways to see hits that order them alike give one page: so a page by rows is the page by item numbers.
pub fn alike_orders_give_one_page()
    ensures items { AlikeOrdersGiveOnePage Seen }
    ensures rows { AlikeOrdersGiveOnePage RankedHit }
{}

/// The page of what hits are seen as is what the page's hits are seen as.
pub fn pages_are_seen()
    ensures items_as_ranked { PagesAreSeen Seen Ranked }
    ensures items_as_rows { PagesAreSeen Seen RankedHit }
    ensures rows_as_items { PagesAreSeen RankedHit Seen }
{}
