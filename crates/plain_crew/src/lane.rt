//! A lane's row as plain numbers.
ghost use Rattle.std.specs.Prelude.{◌≡◌};
ghost use Rattle.plain_crew.specs.Lanes.{attempt_number, attempt_of, lane_of, plain_lane, stage_of};

use line::lane::{Attempt, LaneRow, Stage};

/// A row of the crew as numbers. A number that the stage does not have is 0.
#[repr(C)]
#[derive(Clone, Copy, Default)]
pub struct PlainLane {
    /// How many cells the lane has.
    pub cells: u8,
    /// The crew's copy of the lane's tail.
    pub tail: u8,
    /// What the next grant does: 1 to 9, in the order of a post's grants; everything else is at rest.
    // A number, with what the stage carries in fields beside it: C has no enum that carries values.
    pub stage: u8,
    /// 2 in the second try, 1 in the first.
    // A number, not `Attempt`: C may write any byte, and every other one means the first.
    pub attempt: u8,
    /// The head that the last grant loaded.
    pub head: u8,
    /// The post's own stamp.
    pub stamp: u64,
    /// What the slot held.
    pub seen: u64,
    /// How many grants the post under way has had.
    pub grants: u64,
}

// The numbers of the stages. Constants, not an enum: C may write any byte, and every other one means at rest.
const TEST_SPACE: u8 = 1;

const TAKE_STAMP: u8 = 2;

const FILL_CELL: u8 = 3;

const MARK_CELL: u8 = 4;

const PUBLISH: u8 = 5;

const LOOK: u8 = 6;

const LOAD_HEAD: u8 = 7;

const LOAD_FRONT: u8 = 8;

const SWAP_SLOT: u8 = 9;

/// The row that the numbers mean.
impl From<PlainLane> for LaneRow {
    ghost from_gives = { λ plain row. row ≡ lane_of plain };

    fn from(plain: PlainLane) -> LaneRow {
        LaneRow {
            cells: plain.cells,
            tail: plain.tail,
            stage: plain.stage_of(),
            grants: plain.grants,
        }
    }
}

/// The numbers of a row.
impl From<LaneRow> for PlainLane {
    ghost from_gives = { λ row plain. plain ≡ plain_lane row };

    fn from(row: LaneRow) -> PlainLane {
        let resting = PlainLane {
            cells: row.cells,
            tail: row.tail,
            grants: row.grants,
            ..PlainLane::default()
        };
        match row.stage {
            Stage::AtRest => resting,
            Stage::TestSpace => PlainLane {
                stage: TEST_SPACE,
                ..resting
            },
            Stage::TakeStamp => PlainLane {
                stage: TAKE_STAMP,
                ..resting
            },
            Stage::FillCell { stamp } => PlainLane {
                stage: FILL_CELL,
                stamp,
                ..resting
            },
            Stage::MarkCell { stamp } => PlainLane {
                stage: MARK_CELL,
                stamp,
                ..resting
            },
            Stage::Publish { stamp } => PlainLane {
                stage: PUBLISH,
                stamp,
                ..resting
            },
            Stage::Look { attempt, stamp } => PlainLane {
                stage: LOOK,
                attempt: attempt_number(attempt),
                stamp,
                ..resting
            },
            Stage::LoadHead {
                attempt,
                stamp,
                seen,
            } => PlainLane {
                stage: LOAD_HEAD,
                attempt: attempt_number(attempt),
                stamp,
                seen,
                ..resting
            },
            Stage::LoadFront {
                attempt,
                stamp,
                seen,
                head,
            } => PlainLane {
                stage: LOAD_FRONT,
                attempt: attempt_number(attempt),
                head,
                stamp,
                seen,
                ..resting
            },
            Stage::SwapSlot {
                attempt,
                stamp,
                seen,
            } => PlainLane {
                stage: SWAP_SLOT,
                attempt: attempt_number(attempt),
                stamp,
                seen,
                ..resting
            },
        }
    }
}

impl PlainLane {
    // Beside the collector's: two structs of C whose stages differ, so a common function would match twice.
    fn stage_of(self) -> Stage
        ensures { result ≡ stage_of self }
    {
        let attempt = attempt_of(self.attempt);
        let stamp = self.stamp;
        let seen = self.seen;
        let head = self.head;
        match self.stage {
            TEST_SPACE => Stage::TestSpace,
            TAKE_STAMP => Stage::TakeStamp,
            FILL_CELL => Stage::FillCell { stamp },
            MARK_CELL => Stage::MarkCell { stamp },
            PUBLISH => Stage::Publish { stamp },
            LOOK => Stage::Look { attempt, stamp },
            LOAD_HEAD => Stage::LoadHead {
                attempt,
                stamp,
                seen,
            },
            LOAD_FRONT => Stage::LoadFront {
                attempt,
                stamp,
                seen,
                head,
            },
            SWAP_SLOT => Stage::SwapSlot {
                attempt,
                stamp,
                seen,
            },
            _ => Stage::AtRest,
        }
    }
}

// Two functions, and no `From`: a conversion between two types of elsewhere can't stand here.
/// The number of a try.
pub(crate) fn attempt_number(attempt: Attempt) -> u8
    ensures { result ≡ attempt_number attempt }
{
    match attempt {
        Attempt::First => 1,
        Attempt::Second => 2,
    }
}

/// The try with this number: the second if it is 2.
pub(crate) fn attempt_of(number: u8) -> Attempt
    ensures { result ≡ attempt_of number }
{
    match number {
        2 => Attempt::Second,
        _ => Attempt::First,
    }
}
