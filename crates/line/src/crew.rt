//! The crew: what the line remembers beside the board.
ghost use Rattle.std.specs.Prelude.{◌≡◌, Bool, true, false};
ghost use Rattle.line.specs.Limits.{Within};

use crate::access::Shape;
use crate::collector::Collector;
use crate::lane::LaneRow;
use std::marker::PhantomData;

/// What a crew keeps, open or draining.
#[derive(Clone, Copy)]
pub struct Core {
    pub shape: Shape,
    /// A row for each lane; those from `shape.lanes` on are not used.
    ///
    /// Sixteen, whatever the shape: a crew lies in fixed memory, without a heap.
    pub rows: [LaneRow; 16],
    /// For each lane the cell that is freed next: copies of the heads on the board.
    ///
    /// Beside the rows and not in them: a lane's grant writes back its whole row, and the heads are the collector's alone.
    pub heads: [u8; 16],
    pub collector: Collector,
    /// How many posts have ended as posted since the laying; it stops at 2^64 − 1.
    pub posted: u64,
    /// How many collects have ended as delivered since the laying; it stops at 2^64 − 1.
    pub delivered: u64,
    /// Whether the crew drains: no post can be begun any more.
    ///
    /// A crew's type says so too; this is how a crew says it that is put away as plain numbers, as C keeps one.
    pub draining: bool,
}

/// What kind of crew it is: whether posts can be begun for it, or it drains.
pub trait Openness {
    /// Whether a crew of this kind drains.
    ghost drains: { Bool };
}

/// The kind of crew for which posts can be begun.
pub struct Open;

/// The kind of crew for which no post can be begun.
pub struct Draining;

impl Openness for Open {
    ghost drains = { false };
}

impl Openness for Draining {
    ghost drains = { true };
}

/// A crew: by its name alone one for which posts can be begun.
///
/// What it keeps is open to read, and a crew can be built around anything within the limits: so a crew can be put away as plain
/// numbers and taken up again.
#[derive(Drop)]
pub struct Crew<S: Openness = Open> {
    pub core: Core,
    pub openness: PhantomData<S>,
    ghost within: { Within core.shape },
    ghost kind: { core.draining ≡ S.drains },
}

/// A crew for which no post can be begun.
pub type DrainingCrew = Crew<Draining>;
