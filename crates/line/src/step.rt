//! One grant of a lane: which access it makes, and what becomes of its post.
ghost use Rattle.std.specs.Prelude.{◌≡◌, ℕ, true, false, MatchResult};
ghost use Rattle.line.specs.declared.answer.Refusal.TheVariants.{NeverLaid};
ghost use Rattle.line.specs.Post.{sound, lane_access, lane_next, lane_answer, row_after, next_tail};

use crate::access::{Access, Address, Place};
use crate::answer::{LaneAnswer, Refusal};
use crate::lane::{Attempt, Lane, LaneRow, Next, Stage};
use crate::ring::Ring;
use boards::STAMP_LIMIT;

/// The lane of a row, if its cells and tail are within their limits; a row of which no lane can be made was never laid.
impl TryFrom<LaneRow> for Lane {
    type Error = Refusal;

    ghost try_from_gives = { λ row r. MatchResult r (λ lane. (sound row ≡ true) × (lane.row ≡ row)) (λ e. (sound row ≡ false) × (e ≡ NeverLaid)) };

    fn try_from(row: LaneRow) -> Result<Lane, Refusal> {
        if (2..=64).contains(&row.cells) && row.tail < row.cells {
            Ok(Lane { row })
        } else {
            Err(Refusal::NeverLaid)
        }
    }
}

impl Lane {
    /// The ring of the lane's cells.
    fn ring(&self) -> Ring
        ensures { result.cells ≡ self.now.row.cells }
    {
        Ring {
            cells: self.row.cells,
        }
    }

    /// The cell after the tail, round the ring.
    fn next_tail(&self) -> u8
        ensures { result ≡ next_tail self.now.row }
    {
        self.ring().after(self.row.tail)
    }

    /// The one access of this lane, which has the number `lane`, at its stage.
    pub(crate) fn access(&self, lane: u8) -> Access
        ensures { result ≡ lane_access lane self.now.row self.now.row.stage }
    {
        let LaneRow { tail, stage, .. } = self.row;
        // One match on the stage: each has its one access.
        match stage {
            Stage::AtRest => Access::Nothing,
            Stage::TestSpace => Access::Load(Address::Head(lane)),
            Stage::TakeStamp => Access::Take(Address::Counter),
            Stage::FillCell { .. } => Access::CopyTray(Place::Hand(lane), Place::Cell(lane, tail)),
            Stage::MarkCell { stamp } => Access::Store(Address::CellStamp(lane, tail), stamp),
            Stage::Publish { .. } => Access::Store(
                Address::Tail(lane),
                u64::from(self.next_tail()),
            ),
            Stage::Look { .. } => Access::Load(Address::Slot(lane)),
            Stage::LoadHead { .. } => Access::Load(Address::Head(lane)),
            Stage::LoadFront { head, .. } => Access::Load(Address::CellStamp(lane, head)),
            Stage::SwapSlot { stamp, seen, .. } => Access::Swap(Address::Slot(lane), seen, stamp),
        }
    }

    /// What comes next: the stage and the word that the grant read decide together.
    fn next(&self, word: u64) -> Next
        ensures { result ≡ lane_next self.now.row self.now.row.stage word }
    {
        let ring = self.ring();
        // One match on the stage and the word read: the rule for what a grant does next.
        match (self.row.stage, word) {
            (Stage::AtRest, _) => Next::Goes(Stage::AtRest),
            (Stage::TestSpace, head) if ring.cell_of(head) == self.next_tail() => Next::EndsFull,
            (Stage::TestSpace, _) => Next::Goes(Stage::TakeStamp),
            (Stage::TakeStamp, STAMP_LIMIT) => Next::EndsUsedUp,
            (Stage::TakeStamp, stamp) => Next::Goes(Stage::FillCell { stamp }),
            (Stage::FillCell { stamp }, _) => Next::Goes(Stage::MarkCell { stamp }),
            (Stage::MarkCell { stamp }, _) => Next::Goes(Stage::Publish { stamp }),
            (Stage::Publish { stamp }, _) => Next::Goes(Stage::Look {
                attempt: Attempt::First,
                stamp,
            }),
            (Stage::Look { attempt, stamp }, seen) => Next::Goes(Stage::LoadHead {
                attempt,
                stamp,
                seen,
            }),
            (Stage::LoadHead { stamp, .. }, head) if ring.cell_of(head) == self.row.tail =>
                Next::EndsPosted(stamp),
            (
                Stage::LoadHead {
                    attempt,
                    stamp,
                    seen,
                },
                head,
            ) => {
                Next::Goes(Stage::LoadFront {
                    attempt,
                    stamp,
                    seen,
                    head: ring.cell_of(head),
                })
            }
            (
                Stage::LoadFront {
                    attempt,
                    stamp,
                    seen,
                    ..
                },
                front,
            ) if front == stamp => {
                Next::Goes(Stage::SwapSlot {
                    attempt,
                    stamp,
                    seen,
                })
            }
            (Stage::LoadFront { stamp, .. }, _) => Next::EndsPosted(stamp),
            (
                Stage::SwapSlot {
                    attempt: Attempt::First,
                    stamp,
                    ..
                },
                0,
            ) => {
                Next::Goes(Stage::Look {
                    attempt: Attempt::Second,
                    stamp,
                })
            }
            (Stage::SwapSlot { stamp, .. }, _) => Next::EndsPosted(stamp),
        }
    }

    /// Steps the lane by a grant that read `word`, and answers what the grant answers.
    pub(crate) fn step(&mut self, word: u64) -> LaneAnswer
        ensures answer { result ≡ lane_answer self.old.row word }
        ensures after { self.new.row ≡ row_after self.old.row word }
    {
        let grants = self.row.grants.saturating_add(1);
        // Beside the match of `next`: only the tail depends on it, whatever comes next.
        let tail = match self.row.stage {
            Stage::Publish { .. } => self.next_tail(),
            _ => self.row.tail,
        };
        let (stage, kept, answer) = match self.next(word) {
            Next::Goes(stage) => (stage, grants, LaneAnswer::On),
            Next::EndsPosted(stamp) => (Stage::AtRest, 0, LaneAnswer::Posted { stamp, grants }),
            Next::EndsFull => (Stage::AtRest, 0, LaneAnswer::Full { grants }),
            Next::EndsUsedUp => (Stage::AtRest, 0, LaneAnswer::UsedUp { grants }),
        };
        self.row = LaneRow {
            tail,
            stage,
            grants: kept,
            ..self.row
        };
        answer
    }
}
