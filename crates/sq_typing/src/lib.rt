//! Typed trees of queries: what a query asks of a schema.
#![tactic(auto)]

mod codes;
mod copies;
mod forms;
mod fql;
mod fql_build;
mod fql_codes;
mod fql_near;
mod fql_numbers;
mod fql_patterns;
mod fql_place;
mod fql_texts;
mod kql;
mod kql_build;
mod kql_near;
mod kql_values;
mod leaves;
mod span_copies;
mod together;

pub use fql::type_fql;
pub use kql::type_kql;
