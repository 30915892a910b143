//! The trait `Board` and the two words that have a meaning of their own.

ghost use Rattle.std.specs.Prelude.{◌≡◌, ℕ, List, [], length};
ghost use Rattle.boards.specs.Words.{loaded, stored, swaps, swapped, taken, raised};

/// Marks an empty slot; what a load beyond the length answers.
pub const EMPTY: u64 = 0xffff_ffff_ffff_ffff;

/// Where a counter stops: a take never answers more.
pub const STAMP_LIMIT: u64 = 0x4000_0000_0000_0000;

/// A list of 64-bit words of fixed length.
///
/// Each call reads or changes at most the one word that it names. A call that names a word beyond the length changes nothing.
// The five calls and what they take are fixed: boards are other makers' too. `stays` stands in each: an invariant cannot speak of before and
// after.
pub trait Board {
    /// What the board means: its words, in order.
    ghost words: { Self → List ℕ };

    /// Where these words lie, by a number, and what lies beside them. No call changes that: a board over lent memory keeps its
    /// loan, and bytes that make no word stay.
    ghost home: { Self → ℕ × List ℕ } = { λ _. (0, []) };

    /// How many words there are.
    fn len(&self) -> usize
        ensures { result ≡ length (words self.now) };

    /// Word `k`, or `EMPTY` beyond the length.
    fn load(&self, k: usize) -> u64
        ensures { result ≡ loaded (words self.now) k };

    /// Makes word `k` equal to `v`.
    fn store(&mut self, k: usize, v: u64)
        ensures after { words self.new ≡ stored (words self.old) k v }
        ensures stays { home self.new ≡ home self.old };

    /// Says whether word `k` is `from`, and if it is, makes it `to`. Beyond the length the answer is no.
    fn swap(&mut self, k: usize, from: u64, to: u64) -> bool
        ensures answer { result ≡ swaps (words self.old) k from }
        ensures after { words self.new ≡ swapped (words self.old) k from to }
        ensures stays { home self.new ≡ home self.old };

    /// Answers word `k` and raises it by one if it is below `STAMP_LIMIT`. Otherwise, and beyond the length, answers `STAMP_LIMIT`.
    fn take(&mut self, k: usize) -> u64
        ensures answer { result ≡ taken (words self.old) k }
        ensures after { words self.new ≡ raised (words self.old) k }
        ensures stays { home self.new ≡ home self.old };
}
