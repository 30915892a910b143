//! The ring of a lane's cells.
ghost use Rattle.std.specs.Prelude.{◌≡◌, ◌+◌, ◌-◌, ◌%◌, ◌<◌};

/// How many cells a lane has: at least one, so that there is a cell after each, round the ring.
#[derive(Clone, Copy)]
pub(crate) struct Ring {
    pub cells: u8,
    ghost some: { 0 < cells },
}

impl Ring {
    /// The cell after one.
    pub(crate) fn after(self, cell: u8) -> u8
        ensures { result ≡ (cell + 1) % self.cells }
    {
        ((u16::from(cell) + 1) % u16::from(self.cells)) as u8
    }

    /// The cell that a word of the board means.
    pub(crate) fn cell_of(self, word: u64) -> u8
        ensures { result ≡ word % self.cells }
    {
        (word % u64::from(self.cells)) as u8
    }

    /// How many cells lie from `head` on and before `tail`.
    pub(crate) fn between(self, head: u8, tail: u8) -> u8
        ensures { result ≡ (tail + self.cells - head) % self.cells }
    {
        let ring = u16::from(self.cells);
        ((u16::from(tail) + ring).saturating_sub(u16::from(head)) % ring) as u8
    }
}
