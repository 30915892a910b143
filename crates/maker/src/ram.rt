//! The camera's own memory, which serves as a board.

use boards::{Board, Words};

/// How many words at the front of the memory hold the camera's settings and are no part of the board.
const SETTINGS: usize = 20;

/// How many words the board has.
const BOARD_WORDS: usize = 100;

/// The memory of a camera: a page of settings, and behind it the board.
#[derive(Drop)]
pub struct CameraRam {
    settings: [u64; SETTINGS],
    board: Words<BOARD_WORDS>,
}

impl CameraRam {
    /// A memory with nothing but a gain in its settings.
    pub fn new(gain: u64) -> CameraRam {
        let mut settings = [0; SETTINGS];
        settings[0] = gain;
        CameraRam {
            settings,
            board: Words::new(),
        }
    }

    /// The gain: the first of the settings.
    pub fn gain(&self) -> u64 {
        self.settings[0]
    }
}

impl Board for CameraRam {
    ghost words = { λ ram. ⟦<Words<100> as Board>⟧.words ram.board };

    // No call of the board changes the settings.
    ghost home = { λ ram. (0, ram.settings) };

    fn len(&self) -> usize {
        self.board.len()
    }

    fn load(&self, k: usize) -> u64 {
        self.board.load(k)
    }

    fn store(&mut self, k: usize, v: u64) {
        self.board.store(k, v);
    }

    fn swap(&mut self, k: usize, from: u64, to: u64) -> bool {
        self.board.swap(k, from, to)
    }

    fn take(&mut self, k: usize) -> u64 {
        self.board.take(k)
    }
}
