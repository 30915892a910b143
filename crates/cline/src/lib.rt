//! The line for programs in C: the nine calls over lent memory, with a byte board, tickets, and a crew of plain numbers.
//!
//! `include/cline.h` declares what is exported here.
#![tactic(auto)]

mod answer;
mod calls;
mod held;
