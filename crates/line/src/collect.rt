//! One grant of the collector: which access it makes, and what becomes of its collect.
ghost use Rattle.std.specs.Prelude.{◌≡◌, ℕ};
ghost use Rattle.line.specs.Collect.{after_first, after_second, begun, better, collector_access, collector_next, head_of, under_way};
ghost use Rattle.line.specs.Crew.{shape};

use crate::access::{Access, Address, Place};
use crate::collector::{CollectNext, CollectStage, Kept};
use crate::crew::Core;
use crate::lane::Attempt;
use crate::ring::Ring;
use boards::EMPTY;

impl Kept {
    /// The smaller of the stamp kept and the stamp `word` in the slot of `lane`; of equal ones the first.
    fn or_smaller(self, lane: u8, word: u64) -> Kept
        ensures { result ≡ better lane word self }
    {
        if word < self.stamp {
            Kept { lane, stamp: word }
        } else {
            self
        }
    }
}

impl CollectStage {
    /// Whether a collect is under way or not settled yet.
    pub(crate) fn is_begun(self) -> bool
        ensures { result ≡ begun self }
    {
        !matches!(self, CollectStage::Idle)
    }

    /// Whether a collect is under way.
    pub(crate) fn is_under_way(self) -> bool
        ensures { result ≡ under_way self }
    {
        !matches!(self, CollectStage::Idle | CollectStage::Ended(_))
    }
}

// The ring comes beside `self`: a `Core` alone may have no cells.
impl Core {
    /// The copy of a lane's head.
    pub(crate) fn head(&self, lane: u8) -> u8
        ensures { result ≡ head_of self.now.heads lane }
    {
        self.heads.get(usize::from(lane)).copied().unwrap_or(0)
    }

    /// The one access of the collector at its stage.
    pub(crate) fn collector_access(&self, ring: Ring) -> Access
        ensures { result ≡ collector_access (shape self.now.shape.lanes ring.cells) self.now.heads self.now.collector.stage }
    {
        // One match on the stage: each has its one access.
        match self.collector.stage {
            CollectStage::Idle => Access::Nothing,
            CollectStage::ScanFirst { next, .. } => Access::Load(Address::Slot(next)),
            CollectStage::ScanSecond { next, .. } => Access::Load(Address::Slot(next)),
            CollectStage::Fetch { kept } => {
                Access::CopyTray(
                    Place::Cell(kept.lane, self.head(kept.lane)),
                    Place::CollectorsHand,
                )
            }
            CollectStage::Free { kept } => Access::Store(
                Address::Head(kept.lane),
                u64::from(ring.after(self.head(kept.lane))),
            ),
            CollectStage::SeeSlot { kept, .. } => Access::Load(Address::Slot(kept.lane)),
            CollectStage::SeeTail { kept, .. } => Access::Load(Address::Tail(kept.lane)),
            CollectStage::SeeFront { kept, .. } => Access::Load(Address::CellStamp(
                kept.lane,
                self.head(kept.lane),
            )),
            CollectStage::RefreshSlot {
                kept,
                seen,
                fresh,
                ..
            } => Access::Swap(Address::Slot(kept.lane), seen, fresh),
            CollectStage::Ended(_) => Access::Nothing,
        }
    }

    /// What comes next: the stage and the word that the grant read decide together.
    pub(crate) fn collector_next(&self, ring: Ring, word: u64) -> CollectNext
        ensures { result ≡ collector_next (shape self.now.shape.lanes ring.cells) self.now.heads self.now.collector.stage word }
    {
        // One match on the stage and the word read: the rule for what a grant does next.
        match (self.collector.stage, word) {
            (CollectStage::ScanFirst { next, kept }, slot) => after_first(
                self.shape.lanes,
                next,
                kept.or_smaller(next, slot),
            ),
            (CollectStage::ScanSecond { next, bound, kept }, slot) => after_second(
                bound,
                next,
                kept.or_smaller(next, slot),
            ),
            (CollectStage::Fetch { kept }, _) => CollectNext::Goes(CollectStage::Free { kept }),
            (CollectStage::Free { kept }, _) => CollectNext::Goes(CollectStage::SeeSlot {
                attempt: Attempt::First,
                kept,
            }),
            (CollectStage::SeeSlot { attempt, kept }, seen) => CollectNext::Goes(
                CollectStage::SeeTail {
                    attempt,
                    kept,
                    seen,
                },
            ),
            (
                CollectStage::SeeTail {
                    attempt,
                    kept,
                    seen,
                },
                tail,
            ) if ring.cell_of(tail) == self.head(kept.lane) => {
                CollectNext::Goes(CollectStage::RefreshSlot {
                    attempt,
                    kept,
                    seen,
                    fresh: EMPTY,
                })
            }
            (
                CollectStage::SeeTail {
                    attempt,
                    kept,
                    seen,
                },
                _,
            ) => CollectNext::Goes(CollectStage::SeeFront {
                attempt,
                kept,
                seen,
            }),
            (
                CollectStage::SeeFront {
                    attempt,
                    kept,
                    seen,
                },
                fresh,
            ) => {
                CollectNext::Goes(CollectStage::RefreshSlot {
                    attempt,
                    kept,
                    seen,
                    fresh,
                })
            }
            (
                CollectStage::RefreshSlot {
                    attempt: Attempt::First,
                    kept,
                    ..
                },
                0,
            ) => {
                CollectNext::Goes(CollectStage::SeeSlot {
                    attempt: Attempt::Second,
                    kept,
                })
            }
            (CollectStage::RefreshSlot { kept, .. }, _) => CollectNext::EndsDelivered(kept),
            (resting, _) => CollectNext::Goes(resting),
        }
    }
}

/// What follows the slot `at` of the first scan over `lanes` lanes.
fn after_first(lanes: u8, at: u8, kept: Kept) -> CollectNext
    ensures { result ≡ after_first lanes at kept }
{
    if u16::from(at) + 1 < u16::from(lanes) {
        CollectNext::Goes(CollectStage::ScanFirst { next: at + 1, kept })
    } else if kept.stamp == EMPTY {
        CollectNext::EndsEmpty
    } else if kept.lane == 0 {
        CollectNext::Goes(CollectStage::Fetch { kept })
    } else {
        CollectNext::Goes(CollectStage::ScanSecond {
            next: 0,
            bound: kept.lane,
            kept,
        })
    }
}

/// What follows the slot `at` of the second scan over the lanes below `bound`.
fn after_second(bound: u8, at: u8, kept: Kept) -> CollectNext
    ensures { result ≡ after_second bound at kept }
{
    if u16::from(at) + 1 < u16::from(bound) {
        CollectNext::Goes(CollectStage::ScanSecond {
            next: at + 1,
            bound,
            kept,
        })
    } else {
        CollectNext::Goes(CollectStage::Fetch { kept })
    }
}
