//! The collector's part of the crew as plain numbers.
ghost use Rattle.std.specs.Prelude.{◌≡◌};
ghost use Rattle.plain_crew.specs.Collectors.{collector_of, plain_collector, collect_stage_of};

use crate::lane::{attempt_number, attempt_of};
use line::collector::{CollectStage, Collected, Collector, Kept};

/// The collector as numbers. A number that the stage does not have is 0.
#[repr(C)]
#[derive(Clone, Copy, Default)]
pub struct PlainCollector {
    /// What the next grant does: 1 to 8, in the order of a collect's grants; 9 and 10, the collect ended as empty and as
    /// delivered; everything else is idle.
    // A number, with what the stage carries in fields beside it: C has no enum that carries values.
    pub stage: u8,
    /// 2 in the second try, 1 in the first.
    // A number, not `Attempt`: C may write any byte, and every other one means the first.
    pub attempt: u8,
    /// The slot that a scan loads next.
    pub next: u8,
    /// Where the second scan ends.
    pub bound: u8,
    /// The lane that was kept.
    pub kept_lane: u8,
    /// The stamp that was kept, or delivered.
    pub stamp: u64,
    /// What the slot held.
    pub seen: u64,
    /// What the slot is to hold.
    pub fresh: u64,
    /// The lane that an ended collect delivered.
    pub ended_lane: usize,
    /// How many grants an ended collect had.
    pub ended_grants: u64,
    /// How many grants the collect under way has had.
    pub grants: u64,
}

// The numbers of the stages. Constants, not an enum: C may write any byte, and every other one means idle.
const SCAN_FIRST: u8 = 1;

const SCAN_SECOND: u8 = 2;

const FETCH: u8 = 3;

const FREE: u8 = 4;

const SEE_SLOT: u8 = 5;

const SEE_TAIL: u8 = 6;

const SEE_FRONT: u8 = 7;

const REFRESH_SLOT: u8 = 8;

const ENDED_EMPTY: u8 = 9;

const ENDED_DELIVERED: u8 = 10;

/// The collector that the numbers mean.
impl From<PlainCollector> for Collector {
    ghost from_gives = { λ plain collector. collector ≡ collector_of plain };

    fn from(plain: PlainCollector) -> Collector {
        Collector {
            stage: plain.stage_of(),
            grants: plain.grants,
        }
    }
}

/// The numbers of a collector.
impl From<Collector> for PlainCollector {
    ghost from_gives = { λ collector plain. plain ≡ plain_collector collector };

    fn from(collector: Collector) -> PlainCollector {
        let idle = PlainCollector {
            grants: collector.grants,
            ..PlainCollector::default()
        };
        match collector.stage {
            CollectStage::Idle => idle,
            CollectStage::ScanFirst { next, kept } => PlainCollector {
                stage: SCAN_FIRST,
                next,
                ..idle.keeping(kept)
            },
            CollectStage::ScanSecond { next, bound, kept } => PlainCollector {
                stage: SCAN_SECOND,
                next,
                bound,
                ..idle.keeping(kept)
            },
            CollectStage::Fetch { kept } => PlainCollector {
                stage: FETCH,
                ..idle.keeping(kept)
            },
            CollectStage::Free { kept } => PlainCollector {
                stage: FREE,
                ..idle.keeping(kept)
            },
            CollectStage::SeeSlot { attempt, kept } => PlainCollector {
                stage: SEE_SLOT,
                attempt: attempt_number(attempt),
                ..idle.keeping(kept)
            },
            CollectStage::SeeTail {
                attempt,
                kept,
                seen,
            } => PlainCollector {
                stage: SEE_TAIL,
                attempt: attempt_number(attempt),
                seen,
                ..idle.keeping(kept)
            },
            CollectStage::SeeFront {
                attempt,
                kept,
                seen,
            } => PlainCollector {
                stage: SEE_FRONT,
                attempt: attempt_number(attempt),
                seen,
                ..idle.keeping(kept)
            },
            CollectStage::RefreshSlot {
                attempt,
                kept,
                seen,
                fresh,
            } => PlainCollector {
                stage: REFRESH_SLOT,
                attempt: attempt_number(attempt),
                seen,
                fresh,
                ..idle.keeping(kept)
            },
            CollectStage::Ended(Collected::Empty { grants }) => PlainCollector {
                stage: ENDED_EMPTY,
                ended_grants: grants,
                ..idle
            },
            CollectStage::Ended(
                Collected::Delivered {
                    lane,
                    stamp,
                    grants,
                },
            ) => PlainCollector {
                stage: ENDED_DELIVERED,
                stamp,
                ended_lane: lane,
                ended_grants: grants,
                ..idle
            },
        }
    }
}

impl PlainCollector {
    // Beside a lane's: two structs of C whose stages differ, so a common function would match twice.
    fn stage_of(self) -> CollectStage
        ensures { result ≡ collect_stage_of self }
    {
        let attempt = attempt_of(self.attempt);
        let next = self.next;
        let bound = self.bound;
        let kept = Kept {
            lane: self.kept_lane,
            stamp: self.stamp,
        };
        let seen = self.seen;
        let fresh = self.fresh;
        let grants = self.ended_grants;
        match self.stage {
            SCAN_FIRST => CollectStage::ScanFirst { next, kept },
            SCAN_SECOND => CollectStage::ScanSecond { next, bound, kept },
            FETCH => CollectStage::Fetch { kept },
            FREE => CollectStage::Free { kept },
            SEE_SLOT => CollectStage::SeeSlot { attempt, kept },
            SEE_TAIL => CollectStage::SeeTail {
                attempt,
                kept,
                seen,
            },
            SEE_FRONT => CollectStage::SeeFront {
                attempt,
                kept,
                seen,
            },
            REFRESH_SLOT => CollectStage::RefreshSlot {
                attempt,
                kept,
                seen,
                fresh,
            },
            ENDED_EMPTY => CollectStage::Ended(Collected::Empty { grants }),
            ENDED_DELIVERED => CollectStage::Ended(Collected::Delivered {
                lane: self.ended_lane,
                stamp: self.stamp,
                grants,
            }),
            _ => CollectStage::Idle,
        }
    }

    /// The same with the lane and stamp that were kept.
    fn keeping(self, kept: Kept) -> PlainCollector
        ensures { result ≡ record self { kept_lane = kept.lane; stamp = kept.stamp } }
    {
        PlainCollector {
            kept_lane: kept.lane,
            stamp: kept.stamp,
            ..self
        }
    }
}
