//! The order of hits, the page of an answer, and the counts of refiners.
#![tactic(auto)]

mod entries;
mod keys;
mod laws;
mod page;

pub use entries::entries_of;
pub use keys::{Directions, RankedHit, SortKeys};
pub use laws::{alike_orders_give_one_page, pages_are_seen};
pub use page::page_of;
