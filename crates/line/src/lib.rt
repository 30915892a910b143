//! The line: lanes that post frames to one collector through a shared board, one granted access at a time.
#![tactic(auto)]

pub mod access;
pub mod answer;
pub mod calls;
pub mod collect;
pub mod collecting;
pub mod collector;
pub mod crew;
pub mod either;
pub mod lane;
pub mod laws;
pub mod laying;
pub mod map;
pub mod numbers;
pub mod perform;
pub mod posting;
pub mod receipt;
pub mod reporting;
mod ring;
pub mod step;
