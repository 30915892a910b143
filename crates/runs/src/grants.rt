//! The grants that can be made again: a lane's and the collector's.
ghost use Rattle.std.specs.Prelude.{◌≡◌, ℕ, List, [], Ok, Option, Result};
ghost use Rattle.line.specs.Answers.{Told, told, told_collector, told_lane};
ghost use Rattle.line.specs.Calls.{Gives, Outcome, grants_collector, grants_lane};
ghost use Rattle.line.specs.declared.answer.Refusal.{Refusal};
ghost use Rattle.line.specs.declared.crew.Core.{Core};
ghost use Rattle.line.specs.declared.receipt.Receipt.{Receipt};
ghost use Rattle.runs.specs.Ready.{Ready};
ghost use Rattle.runs.specs.Runs.{is_on};

use boards::Board;
use line::answer::{CollectorAnswer, LaneAnswer, Refusal};
use line::calls::AnyCrew;

/// A grant that can be made again: of a lane's post, or of the collect.
pub(crate) trait Grant<P: Copy>: Copy {
    type Answer: Copy;

    /// What the grant does.
    ghost grants: { Self → List ℕ → List P → Core → Outcome P };

    /// An answer's number and values.
    ghost tells: { Result Self.Answer Refusal → Told };

    /// Makes the grant. A run is as ready for its next call then as before.
    // Board and trays apart, as `AnyCrew` takes them.
    fn make<C: AnyCrew, B: Board>(
        self,
        crew: &mut C,
        board: &mut B,
        trays: &mut [P],
    ) -> Result<Self::Answer, Refusal>
        ensures step { Gives (grants self (B.Board.words board.old) trays.old (C.AnyCrew.core crew.old)) (tells result) (B.Board.words board.new) trays.new (C.AnyCrew.core crew.new) }
        ensures ready { (held : Option Receipt) → Ready held (B.Board.words board.old) trays.old (C.AnyCrew.core crew.old) → Ready held (B.Board.words board.new) trays.new (C.AnyCrew.core crew.new) };

    /// The answer on.
    fn on() -> Self::Answer
        ensures { tells (Ok result) ≡ told 0 [] };

    /// Whether the answer is on.
    fn is_on(answer: &Result<Self::Answer, Refusal>) -> bool
        ensures { result ≡ is_on (tells answer.now) };
}

/// A grant of the lane with this number.
#[derive(Clone, Copy)]
pub(crate) struct LaneGrant {
    pub(crate) lane: usize,
}

impl<P: Copy> Grant<P> for LaneGrant {
    type Answer = LaneAnswer;

    ghost grants = { λ grant ws ps c. grants_lane ws ps c grant.lane };

    ghost tells = { told_lane };

    fn make<C: AnyCrew, B: Board>(
        self,
        crew: &mut C,
        board: &mut B,
        trays: &mut [P],
    ) -> Result<LaneAnswer, Refusal> {
        crew.grant_lane(board, trays, self.lane)
    }

    fn on() -> LaneAnswer {
        LaneAnswer::On
    }

    fn is_on(answer: &Result<LaneAnswer, Refusal>) -> bool {
        matches!(answer, Ok(LaneAnswer::On))
    }
}

/// A grant of the collector.
#[derive(Clone, Copy)]
pub(crate) struct CollectorGrant;

impl<P: Copy> Grant<P> for CollectorGrant {
    type Answer = CollectorAnswer;

    ghost grants = { λ _. grants_collector };

    ghost tells = { told_collector };

    fn make<C: AnyCrew, B: Board>(
        self,
        crew: &mut C,
        board: &mut B,
        trays: &mut [P],
    ) -> Result<CollectorAnswer, Refusal> {
        crew.grant_collector(board, trays)
    }

    fn on() -> CollectorAnswer {
        CollectorAnswer::On
    }

    fn is_on(answer: &Result<CollectorAnswer, Refusal>) -> bool {
        matches!(answer, Ok(CollectorAnswer::On))
    }
}
