//! Tests of the lower layers, of what no command of the program reaches: a file for each layer. The crate has no function of
//! its own.
#![tactic(auto)]

#[cfg(test)]
mod coded;
#[cfg(test)]
mod cursor;
#[cfg(test)]
mod http;
#[cfg(test)]
mod memory;
#[cfg(test)]
mod near;
#[cfg(test)]
mod outside;
#[cfg(test)]
mod packets;
#[cfg(test)]
mod pool;
#[cfg(test)]
mod responses;
#[cfg(test)]
mod schema;
#[cfg(test)]
mod tokens;
