//! A lane's part of the crew: how far its post has come.
ghost use Rattle.std.specs.Prelude.{◌<◌, ◌≤◌};

/// The first or the second of the two tries at telling the collector of a frame.
#[derive(Clone, Copy)]
pub enum Attempt {
    First,
    Second,
}

/// What a lane's next grant does. `stamp` is the post's own.
#[derive(Clone, Copy)]
pub enum Stage {
    /// No post is under way.
    AtRest,
    /// Load the head, to see whether a cell is free.
    TestSpace,
    /// Take a stamp from the counter.
    TakeStamp,
    /// Copy the hand into the cell at the tail.
    FillCell {
        stamp: u64,
    },
    /// Store the stamp of that cell.
    MarkCell {
        stamp: u64,
    },
    /// Store the next tail: from then on the frame is the collector's to free.
    Publish {
        stamp: u64,
    },
    /// Load the slot.
    Look {
        attempt: Attempt,
        stamp: u64,
    },
    /// Load the head; `seen` is what the slot held.
    LoadHead {
        attempt: Attempt,
        stamp: u64,
        seen: u64,
    },
    /// Load the stamp of the cell at the head.
    LoadFront {
        attempt: Attempt,
        stamp: u64,
        seen: u64,
        head: u8,
    },
    /// Swap the slot from what it held to the own stamp: the own frame is the lane's oldest.
    SwapSlot {
        attempt: Attempt,
        stamp: u64,
        seen: u64,
    },
}

/// A lane as it lies in the crew's array.
#[derive(Clone, Copy)]
pub struct LaneRow {
    /// How many cells the lane has.
    pub cells: u8,
    /// The cell that the next frame goes to: a copy of the tail on the board.
    pub tail: u8,
    pub stage: Stage,
    /// How many grants the post under way has had.
    pub grants: u64,
}

/// A lane that can be stepped: its row has 2 to 64 cells, and its tail is one of them.
#[derive(Clone, Copy)]
pub struct Lane {
    pub row: LaneRow,
    ghost enough: { 2 ≤ row.cells },
    ghost few: { row.cells ≤ 64 },
    ghost inside: { row.tail < row.cells },
}

/// What a grant makes of a post: it goes on, or it ends. No `ControlFlow`: each way to end has a name and values of its own.
#[derive(Clone, Copy)]
pub enum Next {
    Goes(Stage),
    EndsPosted(u64),
    EndsFull,
    EndsUsedUp,
}
