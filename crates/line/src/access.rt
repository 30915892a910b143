//! The words and trays of a line by what they are for, and the accesses that a grant can make.

/// How many lanes a line has, and how many cells each lane has.
///
/// A line that is laid has 1 to 16 lanes of 2 to 64 cells; before the first laying both numbers are 0.
#[derive(Clone, Copy)]
pub struct Shape {
    pub lanes: u8,
    pub cells: u8,
}

/// A word of the board, by what the line keeps there.
#[derive(Clone, Copy)]
pub enum Address {
    /// The next stamp to be taken.
    Counter,
    /// The stamp of the oldest frame of a lane, as far as the collector is told, or the empty mark.
    Slot(u8),
    /// The cell of a lane that is freed next.
    Head(u8),
    /// The cell of a lane that is filled next.
    Tail(u8),
    /// The stamp of the frame in a cell of a lane.
    CellStamp(u8, u8),
}

/// A tray, by whose payload lies there.
#[derive(Clone, Copy)]
pub enum Place {
    /// What a lane's post was begun with.
    Hand(u8),
    /// What the collector fetched last.
    CollectorsHand,
    /// The payload of the frame in a cell of a lane.
    Cell(u8, u8),
}

/// What one grant does to board and trays: at most one access.
#[derive(Clone, Copy)]
pub enum Access {
    /// No access: nothing is under way.
    Nothing,
    Load(Address),
    Store(Address, u64),
    /// Compare-and-swap of a word from one value to another.
    Swap(Address, u64, u64),
    /// Take the next stamp of a counter.
    Take(Address),
    /// Copy the first tray's payload into the second.
    CopyTray(Place, Place),
}
