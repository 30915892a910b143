//! A board over lent bytes.

ghost use Rattle.std.specs.Prelude.{◌≡◌, length};
ghost use Rattle.std.specs.List.{slice_get};
ghost use Rattle.boards.specs.Words.{loaded, stored, swaps, swapped, taken, raised};
ghost use Rattle.boards.specs.Bytes.{words_of, rest_of, home_of};

use crate::board::{Board, EMPTY, STAMP_LIMIT};

/// How many bytes make a word.
const WORD_BYTES: usize = 8;

/// A board over lent bytes: word `k` lies little-endian at byte `8 * k`. A rest under eight bytes is unused and never touched.
#[derive(Drop)]
pub struct ByteBoard<'a> {
    /// Whole words from the front, then the rest. Any bytes make a board, so the field is open: who builds the board in place,
    /// as `ByteBoard { bytes }`, also knows that the bytes come back as the board left them.
    pub bytes: &'a mut [u8],
}

impl<'a> ByteBoard<'a> {
    /// The board over `bytes`, with the words that they hold now.
    pub fn over(bytes: &'a mut [u8]) -> Self
        ensures { result.bytes.now ≡ bytes.old }
    {
        ByteBoard { bytes }
    }

    /// Word `k`, if it is there.
    fn word(&self, k: usize) -> Option<u64>
        ensures { result ≡ slice_get (words_of self.now.bytes.now) k }
    {
        let (words, _) = self.bytes.as_chunks::<WORD_BYTES>();
        Some(u64::from_le_bytes(*words.get(k)?))
    }
}

// Beyond what every board promises: `size` and `rest`, the bytes behind the last whole word are as before; `loan`, the board holds
// the same loan as before; `same`, nothing changes. They stand in each method: an invariant cannot speak of before and after.
// So `swap` and `take`, which read as those of `Words`, are no bodies of the trait's own: those would promise only what every board does.
#[tactic(auto, using(crate::proofs::ByteWords::words_found))]
impl Board for ByteBoard<'_> {
    ghost words = { λ board. words_of board.bytes.now };

    ghost home = { λ board. home_of board.bytes.ghost_name board.bytes.now };

    fn len(&self) -> usize
        ensures answer { result ≡ length (words_of self.now.bytes.now) }
        ensures same { self.exit.now.bytes.now ≡ self.entry.now.bytes.now }
    {
        self.bytes.len() / WORD_BYTES
    }

    fn load(&self, k: usize) -> u64
        ensures answer { result ≡ loaded (words_of self.now.bytes.now) k }
        ensures same { self.exit.now.bytes.now ≡ self.entry.now.bytes.now }
    {
        self.word(k).unwrap_or(EMPTY)
    }

    fn store(&mut self, k: usize, v: u64)
        ensures after { words_of self.new.bytes.now ≡ stored (words_of self.old.bytes.now) k v }
        ensures size { length self.new.bytes.now ≡ length self.old.bytes.now }
        ensures loan { self.new.bytes.ghost_name ≡ self.old.bytes.ghost_name }
        ensures rest { rest_of self.new.bytes.now ≡ rest_of self.old.bytes.now }
        ensures stays { home_of self.new.bytes.ghost_name self.new.bytes.now ≡ home_of self.old.bytes.ghost_name self.old.bytes.now }
    {
        // A proof does not know what a slice holds after `as_chunks_mut`, so the place is tested first.
        if k < self.len() {
            let at = WORD_BYTES * k;
            self.bytes[at..at + WORD_BYTES].copy_from_slice(&v.to_le_bytes());
        }
    }

    fn swap(&mut self, k: usize, from: u64, to: u64) -> bool
        ensures answer { result ≡ swaps (words_of self.old.bytes.now) k from }
        ensures after { words_of self.new.bytes.now ≡ swapped (words_of self.old.bytes.now) k from to }
        ensures size { length self.new.bytes.now ≡ length self.old.bytes.now }
        ensures loan { self.new.bytes.ghost_name ≡ self.old.bytes.ghost_name }
        ensures rest { rest_of self.new.bytes.now ≡ rest_of self.old.bytes.now }
        ensures stays { home_of self.new.bytes.ghost_name self.new.bytes.now ≡ home_of self.old.bytes.ghost_name self.old.bytes.now }
    {
        match self.word(k) {
            Some(word) if word == from => {
                self.store(k, to);
                true
            }
            _ => false,
        }
    }

    fn take(&mut self, k: usize) -> u64
        ensures answer { result ≡ taken (words_of self.old.bytes.now) k }
        ensures after { words_of self.new.bytes.now ≡ raised (words_of self.old.bytes.now) k }
        ensures size { length self.new.bytes.now ≡ length self.old.bytes.now }
        ensures loan { self.new.bytes.ghost_name ≡ self.old.bytes.ghost_name }
        ensures rest { rest_of self.new.bytes.now ≡ rest_of self.old.bytes.now }
        ensures stays { home_of self.new.bytes.ghost_name self.new.bytes.now ≡ home_of self.old.bytes.ghost_name self.old.bytes.now }
    {
        match self.word(k) {
            Some(count) if count < STAMP_LIMIT => {
                self.store(k, count + 1);
                count
            }
            _ => STAMP_LIMIT,
        }
    }
}
