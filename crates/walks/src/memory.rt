//! What the calls of a list work on.
use boards::Board;

/// What the words of a board hold before the first call: multiples of this number.
const STEP_BETWEEN_WORDS: u64 = 0x9e37_79b9_7f4a_7c15;

/// A board and the trays beside it.
#[derive(Drop)]
pub struct Memory<'a, B> {
    pub board: B,
    pub trays: &'a mut [u64],
}

impl<B: Board> Memory<'_, B> {
    /// Gives the first words of the board what they hold before the first call.
    pub fn store_first_words(&mut self, count: usize) {
        for k in 0..count {
            let word = STEP_BETWEEN_WORDS.wrapping_mul(k as u64 + 1);
            self.board.store(k, word);
        }
    }

    /// Whether all words and all trays are 0.
    pub fn is_blank(&self) -> bool {
        (0..self.board.len()).all(|k| self.board.load(k) == 0)
            && self.trays.iter().all(|payload| *payload == 0)
    }

    /// A digest of the first words of the board.
    pub fn words_digest(&self, count: usize) -> u64 {
        (0..count).fold(DIGEST_START, |all, k| mixed(all, self.board.load(k)))
    }

    /// A digest of the trays.
    pub fn trays_digest(&self) -> u64 {
        self.trays
            .iter()
            .fold(DIGEST_START, |all, payload| mixed(all, *payload))
    }
}

const DIGEST_START: u64 = 0xcbf2_9ce4_8422_2325;

/// One more word goes into the digest.
fn mixed(all: u64, word: u64) -> u64 {
    let product = (all ^ word).wrapping_mul(0x100_0000_01b3);
    product ^ (product >> 29)
}
