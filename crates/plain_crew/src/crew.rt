//! A whole crew as plain numbers.
ghost use Rattle.std.specs.Prelude.{◌≡◌};
ghost use Rattle.plain_crew.specs.Crews.{core_of, plain_crew, NumbersMeanTheirCrew};

use crate::collector::PlainCollector;
use crate::lane::PlainLane;
use line::access::Shape;
use line::collector::Collector;
use line::crew::Core;
use line::lane::LaneRow;
use std::array;

/// What a crew keeps, as numbers. A crew that was never laid is all zeros.
// Laid out as `cline_crew` of include/cline.h: whole arrays with a count, and a number for a `bool`, since C may write any byte.
#[repr(C)]
#[derive(Clone, Copy)]
pub struct PlainCrew {
    /// How many lanes the line has; 0 if none was laid.
    pub lanes: u8,
    /// How many cells each lane has.
    pub cells: u8,
    /// 0 if the crew is open, anything else if it drains.
    pub draining: u8,
    /// The copies of the heads.
    pub heads: [u8; 16],
    pub rows: [PlainLane; 16],
    pub collector: PlainCollector,
    /// How many posts have ended as posted since the laying.
    pub posted: u64,
    /// How many collects have ended as delivered since the laying.
    pub delivered: u64,
}

/// What the crew keeps that the numbers mean.
impl From<&PlainCrew> for Core {
    ghost from_gives = { λ plain core. core ≡ core_of plain.now };

    fn from(plain: &PlainCrew) -> Core {
        let heads = plain.heads;
        Core {
            shape: Shape {
                lanes: plain.lanes,
                cells: plain.cells,
            },
            rows: array::from_fn(|i| LaneRow::from(plain.rows[i])),
            heads,
            collector: Collector::from(plain.collector),
            posted: plain.posted,
            delivered: plain.delivered,
            draining: plain.draining != 0,
        }
    }
}

/// The numbers of what a crew keeps.
impl From<Core> for PlainCrew {
    ghost from_gives = { λ core plain. plain ≡ plain_crew core };

    fn from(core: Core) -> PlainCrew {
        let heads = core.heads;
        PlainCrew {
            lanes: core.shape.lanes,
            cells: core.shape.cells,
            draining: u8::from(core.draining),
            heads,
            rows: array::from_fn(|i| PlainLane::from(core.rows[i])),
            collector: PlainCollector::from(core.collector),
            posted: core.posted,
            delivered: core.delivered,
        }
    }
}

/// A crew that was put away as numbers is the crew that they mean; so nothing is lost.
pub fn numbers_mean_their_crew()
    ensures { NumbersMeanTheirCrew }
{}
