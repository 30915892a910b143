//! Scripts: calls on a line, written down as bytes.
//!
//! A script is a byte string of records. Each record is a whole length and a kind of two bytes each and then
//! a body; every number is little-endian. `record` reads one record, `payload` turns a post's numbers into what
//! it brings, `call` says which call a record makes before the drain and after it, `script` reads a whole script,
//! and `fault` names what can be wrong with one.
#![tactic(auto)]

pub mod call;
pub mod fault;
pub mod payload;
pub mod record;
pub mod script;
#[cfg(test)]
mod tests;
