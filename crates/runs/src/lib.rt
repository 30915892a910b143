//! Lists of calls on a line, and their runs.
#![tactic(auto)]

pub mod answers;
pub mod calls;
mod grants;
pub mod left;
mod part;
mod running;
pub mod whole;
pub mod worked;
