//! The service that goes by the index of its corpus: it reads the lists that a query and a caller's claims name, and no others.
#![tactic(auto)]

mod answer;
mod callers;
mod collected;
mod found;
mod keys;
mod listed;
mod loader;
mod refiners;
mod rows;
mod service;
mod shown;
mod sorts;

pub use loader::Services;
pub use service::Service;
