//! Boards: lists of 64-bit words of fixed length, known only by their meaning.
//!
//! `Board` says what every board does, `Words` owns its words, a `Table` 1,152 of them, and `ByteBoard` finds them in lent bytes.
#![tactic(auto)]

mod board;
mod bytes;
mod laws;
mod table;

pub use board::{Board, EMPTY, STAMP_LIMIT};
pub use bytes::ByteBoard;
pub use laws::{
    every_call_does_its_work, no_call_touches_another_word, nothing_changes_beyond,
    words_are_little_endian,
};
pub use table::{TABLE_WORDS, Table, Words};

#[cfg(test)]
mod tests;
