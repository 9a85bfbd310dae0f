//! Tests of the readers, of typing and lowering, of the index and of plans over it, of what no command of the program
//! reaches: a file for each layer. The crate has no function of its own.
#![tactic(auto)]

#[cfg(test)]
mod corpus;
#[cfg(test)]
mod fql;
#[cfg(test)]
mod index;
#[cfg(test)]
mod lex;
#[cfg(test)]
mod lower;
#[cfg(test)]
mod plans;
