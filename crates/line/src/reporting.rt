//! The end of a line: an open crew drains, and reports both totals once nothing is left to do.
ghost use Rattle.std.specs.Prelude.{◌≡◌, ◌&&◌};
ghost use Rattle.line.specs.Answers.{told_totals};
ghost use Rattle.line.specs.Calls.{all_done, drained, is_lane, lane_done, reports};

use crate::answer::{Refusal, Totals};
use crate::calls::AnyCrew;
use crate::crew::{Core, Crew, Draining, DrainingCrew, Open};
use crate::lane::Stage;
use std::marker::PhantomData;

impl Crew<Open> {
    /// Turns the open crew into a draining one, for which no post can be begun and no line laid. It never refuses.
    pub fn drain(self) -> DrainingCrew
        ensures { result.core ≡ drained self.core }
    {
        Crew {
            core: Core {
                draining: true,
                ..self.core
            },
            openness: PhantomData,
        }
    }
}

impl Crew<Draining> {
    /// Both totals since the laying: posts that ended as posted, and collects that ended as delivered.
    ///
    /// Refuses, in this order, a crew never laid, and one with a post under way, a collect under way or unsettled, or a
    /// frame in a lane.
    pub fn report(&self) -> Result<Totals, Refusal>
        ensures { told_totals result ≡ reports self.now.core }
    {
        if !self.is_laid() {
            return Err(Refusal::NeverLaid);
        }
        if !self.is_done() {
            return Err(Refusal::NotDone);
        }
        Ok(Totals {
            posted: self.core.posted,
            delivered: self.core.delivered,
        })
    }

    /// Whether nothing is under way or unsettled and every lane's ring is empty.
    fn is_done(&self) -> bool
        ensures { result ≡ all_done self.now.core }
    {
        !self.core.collector.stage.is_begun()
            && (0..self.core.shape.lanes).all(|lane| self.lane_done(usize::from(lane)))
    }

    /// Whether a lane is there, has no post under way, and its ring is empty.
    fn lane_done(&self, lane: usize) -> bool
        ensures { result ≡ (is_lane self.now.core lane && lane_done self.now.core lane) }
    {
        matches!(self.fill(lane), Ok(0)) && matches!(self.core.rows[lane].stage, Stage::AtRest)
    }
}
