//! What the calls of a line answer.
use crate::collector::Collected;

/// Why a call was refused, with the number by which it is told. A refused call leaves board, trays and crew as they were.
#[derive(Clone, Copy, PartialEq, Eq, Debug)]
pub enum Refusal {
    /// A number of lanes outside 1 to 16, or of cells outside 2 to 64.
    BadShape = 1,
    /// A start stamp above 2^62.
    BadStart = 2,
    /// The board or the trays are too short for the line.
    TooShort = 3,
    /// The crew was never laid.
    NeverLaid = 4,
    /// The lane's number is not below the number of lanes.
    NoLane = 5,
    /// A post is under way on the lane already.
    PostUnderWay = 6,
    /// No post is under way on the lane.
    NoPost = 7,
    /// A collect is under way or not settled yet.
    CollectUnsettled = 10,
    /// No collect is under way; to settle, none is begun.
    NoCollect = 11,
    /// The collect has not ended yet.
    CollectNotEnded = 12,
    /// A post is under way, a collect is under way or unsettled, or a frame lies in a lane.
    NotDone = 13,
}

/// What a lane's grant answers.
#[derive(Clone, Copy, PartialEq, Eq, Debug)]
pub enum LaneAnswer {
    /// The post goes on.
    On,
    /// The post ended: its frame is posted under this stamp.
    Posted { stamp: u64, grants: u64 },
    /// The post ended: all but one of the lane's cells were in use.
    Full { grants: u64 },
    /// The post ended: no stamp was left.
    UsedUp { grants: u64 },
}

/// What the collector's grant answers.
///
/// Not an `Option` of how the collect ended: what a call answers is an enum whose cases have names, as `LaneAnswer` has.
#[derive(Clone, Copy, PartialEq, Eq, Debug)]
pub enum CollectorAnswer {
    /// The collect goes on.
    On,
    /// The collect ended.
    Ended(Collected),
}

/// How many posts have ended as posted, and how many collects as delivered, since the laying.
#[derive(Clone, Copy, PartialEq, Eq, Debug)]
pub struct Totals {
    pub posted: u64,
    pub delivered: u64,
}
