//! The calls that every crew takes, in the order in which a line is used.
ghost use Rattle.std.specs.Prelude.{◌≡◌, ◌<◌, MatchResult};
ghost use Rattle.line.specs.declared.answer.Refusal.TheVariants.{NeverLaid};
ghost use Rattle.line.specs.Answers.{told_collector, told_done, told_fill, told_lane, told_settled};
ghost use Rattle.line.specs.Calls.{CrewGives, Gives, begins_collect, fills, grants_collector, grants_lane, laid, settles};
ghost use Rattle.line.specs.declared.crew.Core.{Core as Kept-by-crew};

use crate::answer::{CollectorAnswer, LaneAnswer, Refusal};
use crate::collector::Collected;
use crate::crew::{Crew, Openness};
use crate::lane::{Lane, Stage};
use crate::perform::perform;
use crate::posting::posted_after;
use crate::receipt::{Receipt, Unspent};
use crate::ring::Ring;
use boards::Board;

/// The calls that a crew takes whether it is open or draining.
///
/// Board and trays are lent one beside the other, not as one struct: laying only reads the trays, and beginning a post takes no
/// board.
pub trait AnyCrew {
    /// What the crew keeps.
    ghost core: { Self → Kept-by-crew };

    /// Whether a line has been laid by this crew.
    fn is_laid(&self) -> bool
        ensures { result ≡ laid (core self.now) };

    /// Grants a lane one access of its post.
    ///
    /// Refuses, in this order, a crew never laid, a board or trays that are too short, a lane that is not there, and a
    /// lane with no post under way.
    fn grant_lane<B: Board, P: Copy>(
        &mut self,
        board: &mut B,
        trays: &mut [P],
        lane: usize,
    ) -> Result<LaneAnswer, Refusal>
        ensures step { Gives (grants_lane (B.Board.words board.old) trays.old (core self.old) lane) (told_lane result) (B.Board.words board.new) trays.new (core self.new) }
        ensures stays { B.Board.home board.new ≡ B.Board.home board.old };

    /// Begins a collect, and hands out its receipt.
    ///
    /// Refuses, in this order, a crew never laid, and a collect under way or unsettled.
    fn begin_collect(&mut self) -> Result<Receipt, Refusal>
        ensures { CrewGives (begins_collect (core self.old)) (told_done result) (core self.new) };

    /// Grants the collector one access of its collect.
    ///
    /// Refuses, in this order, a crew never laid, a board or trays that are too short, and a collector with no collect
    /// under way.
    fn grant_collector<B: Board, P: Copy>(
        &mut self,
        board: &mut B,
        trays: &mut [P],
    ) -> Result<CollectorAnswer, Refusal>
        ensures step { Gives (grants_collector (B.Board.words board.old) trays.old (core self.old)) (told_collector result) (B.Board.words board.new) trays.new (core self.new) }
        ensures stays { B.Board.home board.new ≡ B.Board.home board.old };

    /// Spends the receipt of an ended collect, and repeats how it ended. The payload stays in the collector's hand.
    ///
    /// Refuses, in this order, a crew never laid, a collector with no collect begun, and a collect that has not ended;
    /// every refusal hands the receipt back.
    fn settle(&mut self, receipt: Receipt) -> Result<Collected, Unspent>
        ensures { CrewGives (settles (core self.old)) (told_settled result) (core self.new) };

    /// How many frames lie in a lane's ring, by the crew's copies of its tail and head.
    ///
    /// Refuses, in this order, a crew never laid, and a lane that is not there.
    fn fill(&self, lane: usize) -> Result<usize, Refusal>
        ensures { told_fill result ≡ fills (core self.now) lane };
}

impl<S: Openness> Crew<S> {
    /// The ring of the cells of each lane, once a line is laid.
    fn ring(&self) -> Result<Ring, Refusal>
        ensures { MatchResult result (λ ring. (0 < self.now.core.shape.lanes) × (ring.cells ≡ self.now.core.shape.cells)) (λ e. (self.now.core.shape.lanes ≡ 0) × (e ≡ NeverLaid)) }
    {
        if !self.is_laid() {
            return Err(Refusal::NeverLaid);
        }
        Ok(Ring {
            cells: self.core.shape.cells,
        })
    }
}

impl<S: Openness> AnyCrew for Crew<S> {
    ghost core = { λ c. c.core };

    fn is_laid(&self) -> bool {
        self.core.shape.lanes > 0
    }

    fn grant_lane<B: Board, P: Copy>(
        &mut self,
        board: &mut B,
        trays: &mut [P],
        lane: usize,
    ) -> Result<LaneAnswer, Refusal> {
        let shape = self.core.shape;
        if !self.is_laid() {
            return Err(Refusal::NeverLaid);
        }
        if !shape.held_by(board.len(), trays.len()) {
            return Err(Refusal::TooShort);
        }
        if lane >= usize::from(shape.lanes) {
            return Err(Refusal::NoLane);
        }
        let mut own = Lane::try_from(self.core.rows[lane])?;
        if let Stage::AtRest = own.row.stage {
            return Err(Refusal::NoPost);
        }
        let word = perform(board, trays, shape, own.access(lane as u8));
        let answer = own.step(word);
        self.core.rows[lane] = own.row;
        self.core.posted = posted_after(self.core.posted, answer);
        Ok(answer)
    }

    fn begin_collect(&mut self) -> Result<Receipt, Refusal> {
        self.core.open_collect()?;
        Ok(Receipt::new())
    }

    fn grant_collector<B: Board, P: Copy>(
        &mut self,
        board: &mut B,
        trays: &mut [P],
    ) -> Result<CollectorAnswer, Refusal> {
        let shape = self.core.shape;
        let ring = self.ring()?;
        if !shape.held_by(board.len(), trays.len()) {
            return Err(Refusal::TooShort);
        }
        if !self.core.collector.stage.is_under_way() {
            return Err(Refusal::NoCollect);
        }
        let word = perform(board, trays, shape, self.core.collector_access(ring));
        Ok(self.core.step_collector(ring, word))
    }

    fn settle(&mut self, receipt: Receipt) -> Result<Collected, Unspent> {
        match self.core.close_collect() {
            Ok(how) => {
                receipt.spend();
                Ok(how)
            }
            Err(refusal) => Err(Unspent { refusal, receipt }),
        }
    }

    fn fill(&self, lane: usize) -> Result<usize, Refusal> {
        let ring = self.ring()?;
        if lane >= usize::from(self.core.shape.lanes) {
            return Err(Refusal::NoLane);
        }
        Ok(usize::from(ring.between(self.core.heads[lane], self.core.rows[lane].tail)))
    }
}
