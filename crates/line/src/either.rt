//! A crew of either kind, for callers that learn only as they run which kind it is.
ghost use Rattle.std.specs.Prelude.{◌≡◌};
ghost use Rattle.line.specs.Either.{TakesUp, core_kept, fit};

use crate::access::Shape;
use crate::answer::{CollectorAnswer, LaneAnswer, Refusal};
use crate::calls::AnyCrew;
use crate::collector::Collected;
use crate::crew::{Core, Crew, DrainingCrew};
use crate::receipt::{Receipt, Unspent};
use boards::Board;
use std::marker::PhantomData;

/// A crew, open or draining.
#[derive(Drop)]
pub enum EitherCrew {
    Open(Crew),
    Draining(DrainingCrew),
}

/// No crew can have the shape: it has more than 16 lanes, or lanes without cells.
#[derive(Clone, Copy, PartialEq, Eq, Debug)]
pub struct UnfitShape;

impl Shape {
    /// Whether a crew can have this shape: at most 16 lanes, and cells if there are lanes.
    pub fn is_fit(self) -> bool
        ensures { result ≡ fit self }
    {
        self.lanes <= 16 && (self.lanes == 0 || self.cells > 0)
    }
}

/// The crew that keeps this: draining if that says so, and else open.
impl TryFrom<Core> for EitherCrew {
    type Error = UnfitShape;

    ghost try_from_gives = { TakesUp };

    fn try_from(core: Core) -> Result<EitherCrew, UnfitShape> {
        if !core.shape.is_fit() {
            return Err(UnfitShape);
        }
        Ok(if core.draining {
            EitherCrew::Draining(Crew {
                core,
                openness: PhantomData,
            })
        } else {
            EitherCrew::Open(Crew {
                core,
                openness: PhantomData,
            })
        })
    }
}

/// What the crew keeps.
impl From<EitherCrew> for Core {
    ghost from_gives = { λ crew core. core ≡ core_kept crew };

    fn from(crew: EitherCrew) -> Core {
        match crew {
            EitherCrew::Open(crew) => crew.core,
            EitherCrew::Draining(crew) => crew.core,
        }
    }
}

// Two arms in each call: the grants are generic in board and payload, so there is no `dyn AnyCrew`.
impl AnyCrew for EitherCrew {
    ghost core = { core_kept };

    fn is_laid(&self) -> bool {
        match self {
            EitherCrew::Open(crew) => crew.is_laid(),
            EitherCrew::Draining(crew) => crew.is_laid(),
        }
    }

    fn grant_lane<B: Board, P: Copy>(
        &mut self,
        board: &mut B,
        trays: &mut [P],
        lane: usize,
    ) -> Result<LaneAnswer, Refusal> {
        match self {
            EitherCrew::Open(crew) => crew.grant_lane(board, trays, lane),
            EitherCrew::Draining(crew) => crew.grant_lane(board, trays, lane),
        }
    }

    fn begin_collect(&mut self) -> Result<Receipt, Refusal> {
        match self {
            EitherCrew::Open(crew) => crew.begin_collect(),
            EitherCrew::Draining(crew) => crew.begin_collect(),
        }
    }

    fn grant_collector<B: Board, P: Copy>(
        &mut self,
        board: &mut B,
        trays: &mut [P],
    ) -> Result<CollectorAnswer, Refusal> {
        match self {
            EitherCrew::Open(crew) => crew.grant_collector(board, trays),
            EitherCrew::Draining(crew) => crew.grant_collector(board, trays),
        }
    }

    fn settle(&mut self, receipt: Receipt) -> Result<Collected, Unspent> {
        match self {
            EitherCrew::Open(crew) => crew.settle(receipt),
            EitherCrew::Draining(crew) => crew.settle(receipt),
        }
    }

    fn fill(&self, lane: usize) -> Result<usize, Refusal> {
        match self {
            EitherCrew::Open(crew) => crew.fill(lane),
            EitherCrew::Draining(crew) => crew.fill(lane),
        }
    }
}
