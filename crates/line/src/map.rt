//! Where the words and trays of a line lie.
ghost use Rattle.std.specs.Prelude.{◌≡◌, ◌&&◌, nat_le};
ghost use Rattle.line.specs.Map.{words_needed, trays_needed, word_of, tray_of};

use crate::access::{Address, Place, Shape};

impl Shape {
    /// How many words a line of this shape takes up.
    pub(crate) fn words_needed(self) -> usize
        ensures { result ≡ words_needed self }
    {
        let n = usize::from(self.lanes);
        1 + 3 * n + n * usize::from(self.cells)
    }

    /// How many trays a line of this shape takes up.
    pub(crate) fn trays_needed(self) -> usize
        ensures { result ≡ trays_needed self }
    {
        let n = usize::from(self.lanes);
        n + 1 + n * usize::from(self.cells)
    }

    /// Whether so many words and so many trays are enough for a line of this shape.
    pub(crate) fn held_by(self, words: usize, trays: usize) -> bool
        ensures { result ≡ (nat_le (words_needed self) words && nat_le (trays_needed self) trays) }
    {
        self.words_needed() <= words && self.trays_needed() <= trays
    }

    /// The number of the word at an address.
    pub(crate) fn word(self, address: Address) -> usize
        ensures { result ≡ word_of self address }
    {
        let n = usize::from(self.lanes);
        match address {
            Address::Counter => 0,
            Address::Slot(lane) => 1 + usize::from(lane),
            Address::Head(lane) => 1 + n + usize::from(lane),
            Address::Tail(lane) => 1 + 2 * n + usize::from(lane),
            Address::CellStamp(lane, cell) => {
                1 + 3 * n + usize::from(lane) * usize::from(self.cells) + usize::from(cell)
            }
        }
    }

    /// The number of the tray at a place.
    pub(crate) fn tray(self, place: Place) -> usize
        ensures { result ≡ tray_of self place }
    {
        let n = usize::from(self.lanes);
        match place {
            Place::Hand(lane) => usize::from(lane),
            Place::CollectorsHand => n,
            Place::Cell(lane, cell) => {
                n + 1 + usize::from(lane) * usize::from(self.cells) + usize::from(cell)
            }
        }
    }
}
