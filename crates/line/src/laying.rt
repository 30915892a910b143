//! Laying a line over a board: a crew with nothing under way, and words to match.
ghost use Rattle.std.specs.Prelude.{◌≡◌, ℕ, ◌+◌, ◌*◌, ◌^◌, ◌<◌, ◌≤◌, true, false, length, replicate, MatchResult};
ghost use Rattle.line.specs.declared.answer.Refusal.TheVariants.{BadShape};
ghost use Rattle.std.proofs.Math.Seq.{paste};
ghost use Rattle.line.specs.Answers.{told_done};
ghost use Rattle.line.specs.Calls.{Gives, is_shape, laid_words, lays};
ghost use Rattle.line.specs.Crew.{never_laid, resting_crew, shape};
ghost use Rattle.line.specs.Map.{words_needed};

use crate::access::Shape;
use crate::answer::Refusal;
use crate::collector::{CollectStage, Collector};
use crate::crew::{Core, Crew, Open};
use crate::lane::{LaneRow, Stage};
use boards::{Board, EMPTY, STAMP_LIMIT};
use std::marker::PhantomData;

impl Shape {
    /// The shape of a line with so many lanes of so many cells, if a line can have it.
    fn of(lanes: usize, cells: usize) -> Result<Shape, Refusal>
        ensures { MatchResult result (λ s. (is_shape lanes cells ≡ true) × (s ≡ shape lanes cells)) (λ e. (is_shape lanes cells ≡ false) × (e ≡ BadShape)) }
    {
        if !(1..=16).contains(&lanes) || !(2..=64).contains(&cells) {
            return Err(Refusal::BadShape);
        }
        Ok(Shape {
            lanes: lanes as u8,
            cells: cells as u8,
        })
    }
}

impl Core {
    /// A crew of this shape with nothing under way.
    fn resting(shape: Shape) -> Core
        ensures { result ≡ resting_crew shape.lanes shape.cells }
    {
        let row = LaneRow {
            cells: shape.cells,
            tail: 0,
            stage: Stage::AtRest,
            grants: 0,
        };
        let collector = Collector {
            stage: CollectStage::Idle,
            grants: 0,
        };
        Core {
            shape,
            rows: [row; 16],
            heads: [0; 16],
            collector,
            posted: 0,
            delivered: 0,
            draining: false,
        }
    }
}

/// Stores `value` in `count` words from word `at` on.
fn fill<B: Board>(board: &mut B, at: usize, count: usize, value: u64)
    requires { (at + count < 2 ^ 64) × (at + count ≤ length (B.Board.words board.old)) }
    ensures after { B.Board.words board.new ≡ paste (B.Board.words board.old) at (replicate count value) count }
    ensures stays { B.Board.home board.new ≡ B.Board.home board.old }
{
    for word in at..at + count {
        board.store(word, value);
    }
}

/// Stores the words of a line with nothing under way.
#[tactic(auto, using(crate::proofs::LaidWords::laid_is))]
fn lay_words<B: Board>(board: &mut B, shape: Shape, start: u64)
    requires { words_needed shape ≤ length (B.Board.words board.old) }
    ensures after { B.Board.words board.new ≡ laid_words (B.Board.words board.old) shape.lanes shape.cells start }
    ensures stays { B.Board.home board.new ≡ B.Board.home board.old }
{
    let n = usize::from(shape.lanes);
    let k = usize::from(shape.cells);
    board.store(0, start);
    fill(board, 1, n, EMPTY);
    fill(board, 1 + n, 2 * n + n * k, 0);
}

impl Crew<Open> {
    /// A crew that was never laid.
    pub fn new() -> Crew
        ensures { result.core ≡ never_laid }
    {
        Crew {
            core: Core::resting(Shape { lanes: 0, cells: 0 }),
            openness: PhantomData,
        }
    }

    /// Lays a line of `lanes` lanes with `cells` cells each over the board and the trays, its first stamp being `start`.
    ///
    /// Refuses, in this order, a bad shape, a bad start, a collect under way or unsettled, and a board or trays that are
    /// too short.
    pub fn lay<B: Board, P>(
        &mut self,
        board: &mut B,
        trays: &[P],
        lanes: usize,
        cells: usize,
        start: u64,
    ) -> Result<(), Refusal>
        ensures step { Gives (lays (B.Board.words board.old) trays.now self.old.core lanes cells start) (told_done result) (B.Board.words board.new) trays.now self.new.core }
        ensures stays { B.Board.home board.new ≡ B.Board.home board.old }
    {
        let shape = Shape::of(lanes, cells)?;
        if start > STAMP_LIMIT {
            return Err(Refusal::BadStart);
        }
        if self.core.collector.stage.is_begun() {
            return Err(Refusal::CollectUnsettled);
        }
        if !shape.held_by(board.len(), trays.len()) {
            return Err(Refusal::TooShort);
        }
        lay_words(board, shape, start);
        self.core = Core::resting(shape);
        Ok(())
    }
}
