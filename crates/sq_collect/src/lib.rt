//! The page and the refiners of an answer, collected while its hits come.
//!
//! A page keeps the best hits so far and no others; a refiner counts the numbers that the rows have by
//! the index. Only their making and the entries of a refiner take memory.
#![tactic(auto)]

mod counts;
mod entries;
mod kept;
mod laws;
mod marks;
mod page;
mod refiner;

pub use laws::columns_count_as_numbers;
pub use page::Page;
pub use refiner::Refiner;
