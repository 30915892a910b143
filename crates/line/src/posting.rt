//! The posting side: begin a post, and count those that end as posted.
ghost use Rattle.std.specs.Prelude.{◌≡◌, ℕ, List};
ghost use Rattle.line.specs.Answers.{told_done};
ghost use Rattle.line.specs.Calls.{Gives, begins_post};
ghost use Rattle.line.specs.Crew.{posted_after};

use crate::access::Place;
use crate::answer::{LaneAnswer, Refusal};
use crate::calls::AnyCrew;
use crate::crew::{Crew, Open};
use crate::lane::{LaneRow, Stage};

impl Crew<Open> {
    /// Begins a post of `payload` on a lane: the payload goes into the lane's hand, and the post waits for its first grant.
    ///
    /// Refuses, in this order, a crew never laid, trays that are too short, a lane that is not there, and a lane with a
    /// post under way.
    pub fn begin_post<P: Copy>(
        &mut self,
        trays: &mut [P],
        lane: usize,
        payload: P,
    ) -> Result<(), Refusal>
        ensures { (ws : List ℕ) → Gives (begins_post ws trays.old self.old.core lane payload) (told_done result) ws trays.new self.new.core }
    {
        let shape = self.core.shape;
        if !self.is_laid() {
            return Err(Refusal::NeverLaid);
        }
        if trays.len() < shape.trays_needed() {
            return Err(Refusal::TooShort);
        }
        if lane >= usize::from(shape.lanes) {
            return Err(Refusal::NoLane);
        }
        let row = self.core.rows[lane];
        let Stage::AtRest = row.stage else {
            return Err(Refusal::PostUnderWay);
        };
        trays[shape.tray(Place::Hand(lane as u8))] = payload;
        self.core.rows[lane] = LaneRow {
            stage: Stage::TestSpace,
            grants: 0,
            ..row
        };
        Ok(())
    }
}

/// The total of posted frames after a grant with this answer.
pub(crate) fn posted_after(total: u64, answer: LaneAnswer) -> u64
    ensures { result ≡ posted_after total answer }
{
    match answer {
        LaneAnswer::Posted { .. } => total.saturating_add(1),
        _ => total,
    }
}
