//! Boards that own their words.

ghost use Rattle.std.specs.Prelude.{◌≡◌, length, replicate};

use crate::board::{Board, EMPTY, STAMP_LIMIT};

/// How many words a table has.
pub const TABLE_WORDS: usize = 1152;

/// A table of 1,152 words.
pub type Table = Words<TABLE_WORDS>;

/// A board of `N` words of its own.
#[derive(Drop)]
pub struct Words<const N: usize> {
    /// Word `k` of the board at place `k`.
    values: [u64; N],
    ghost full: { length values ≡ N },
}

impl<const N: usize> Words<N> {
    /// A board whose words are all 0.
    pub fn new() -> Self
        ensures { result.values ≡ replicate N 0 }
    {
        Words { values: [0; N] }
    }
}

impl<const N: usize> Board for Words<N> {
    ghost words = { λ board. board.values };

    fn len(&self) -> usize {
        N
    }

    fn load(&self, k: usize) -> u64 {
        self.values.get(k).copied().unwrap_or(EMPTY)
    }

    fn store(&mut self, k: usize, v: u64) {
        // By index, here and in `swap` and `take`: a proof does not know what an array holds after `get_mut`, so the place is tested first.
        if k < N {
            self.values[k] = v;
        }
    }

    fn swap(&mut self, k: usize, from: u64, to: u64) -> bool {
        match self.values.get(k) {
            Some(word) if *word == from => {
                self.values[k] = to;
                true
            }
            _ => false,
        }
    }

    fn take(&mut self, k: usize) -> u64 {
        match self.values.get(k).copied() {
            Some(count) if count < STAMP_LIMIT => {
                self.values[k] = count + 1;
                count
            }
            _ => STAMP_LIMIT,
        }
    }
}
