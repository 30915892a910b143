//! Scripts run over a line, and what is printed for them: `lines` has the printed lines, `walk` runs a script, `batch` many of
//! them, and `words` and `explain` say what its records ask.
#![tactic(auto)]

pub mod batch;
pub mod explain;
pub mod lines;
pub mod walk;
pub mod words;
