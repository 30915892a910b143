//! A crew as plain numbers: for callers that have no enums, such as programs in C.
#![tactic(auto)]

pub mod collector;
pub mod crew;
pub mod lane;
