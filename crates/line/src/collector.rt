//! The collector's part of the crew: how far its collect has come.
use crate::lane::Attempt;

/// The smallest stamp that a scan has seen so far, and the lane whose slot held it.
///
/// While every slot seen was empty the stamp is the empty mark, which is larger than every stamp: so the smallest word seen
/// needs no case of its own, as an `Option` would have.
#[derive(Clone, Copy)]
pub struct Kept {
    pub lane: u8,
    pub stamp: u64,
}

/// How a collect ended.
#[derive(Clone, Copy, PartialEq, Eq, Debug)]
pub enum Collected {
    /// The first scan saw only empty slots.
    Empty {
        grants: u64,
    },
    /// The frame of this lane and stamp was delivered; its payload lies in the collector's hand.
    Delivered {
        lane: usize,
        stamp: u64,
        grants: u64,
    },
}

/// What the collector's next grant does.
#[derive(Clone, Copy)]
pub enum CollectStage {
    /// No collect is begun.
    Idle,
    /// Load the slot `next`: the first scan, over all lanes.
    ScanFirst {
        next: u8,
        kept: Kept,
    },
    /// Load the slot `next`: the second scan, over the lanes below `bound`, which the first scan kept.
    ScanSecond {
        next: u8,
        bound: u8,
        kept: Kept,
    },
    /// Copy the cell at the kept lane's head into the collector's hand.
    Fetch {
        kept: Kept,
    },
    /// Store the next head: from then on the cell is the lane's to fill.
    Free {
        kept: Kept,
    },
    /// Load the slot.
    SeeSlot {
        attempt: Attempt,
        kept: Kept,
    },
    /// Load the tail; `seen` is what the slot held.
    SeeTail {
        attempt: Attempt,
        kept: Kept,
        seen: u64,
    },
    /// Load the stamp of the cell at the head.
    SeeFront {
        attempt: Attempt,
        kept: Kept,
        seen: u64,
    },
    /// Swap the slot from what it held to `fresh`: the stamp of the lane's oldest frame, or the empty mark.
    RefreshSlot {
        attempt: Attempt,
        kept: Kept,
        seen: u64,
        fresh: u64,
    },
    /// The collect has ended and is not settled yet.
    Ended(Collected),
}

/// What the crew keeps of the collector.
#[derive(Clone, Copy)]
pub struct Collector {
    pub stage: CollectStage,
    /// How many grants the collect under way has had.
    pub grants: u64,
}

/// What a grant makes of a collect: it goes on, or it ends. No `ControlFlow`: each way to end has a name and values of its own.
#[derive(Clone, Copy)]
pub enum CollectNext {
    Goes(CollectStage),
    EndsEmpty,
    EndsDelivered(Kept),
}
