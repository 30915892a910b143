//! Cycles: every lane posts a ticket, then as many collects take them out.
use crate::stop::Stop;
use crate::tally::{Tally, Ticket};
use boards::{Board, ByteBoard};
use line::answer::{CollectorAnswer, LaneAnswer};
use line::calls::AnyCrew;
use line::collector::Collected;
use line::crew::Crew;

/// More grants than a post, or a collect over sixteen lanes, can have.
const MOST_GRANTS: usize = 42;

/// A line at work: its crew, the board and the trays, and what was done so far.
#[derive(Drop)]
pub struct Track<'a> {
    pub lanes: u8,
    pub crew: Crew,
    pub board: ByteBoard<'a>,
    pub trays: Vec<Ticket>,
    pub tally: Tally,
}

impl Track<'_> {
    /// Lays the line with so many cells in each lane.
    pub fn lay(&mut self, cells: usize) -> Result<(), Stop> {
        let lanes = usize::from(self.lanes);
        let trays = self.trays.as_slice();
        Ok(self.crew.lay(&mut self.board, trays, lanes, cells, 0)?)
    }

    /// So many cycles over the line.
    pub fn run(&mut self, cycles: u32) -> Result<(), Stop> {
        let lanes = self.lanes;
        for cycle in 0..cycles {
            for lane in 0..lanes {
                self.post(usize::from(lane), Ticket::of(cycle, lane))?;
            }
            for _ in 0..lanes {
                self.collect()?;
            }
        }
        Ok(())
    }

    /// Posts a ticket.
    // As every maker posts, but that grants are counted and nothing is printed.
    fn post(&mut self, lane: usize, ticket: Ticket) -> Result<(), Stop> {
        let trays = self.trays.as_mut_slice();
        self.crew.begin_post(trays, lane, ticket)?;
        for _ in 0..MOST_GRANTS {
            match self.crew.grant_lane(&mut self.board, trays, lane)? {
                LaneAnswer::On => {}
                LaneAnswer::Posted { grants, .. } => {
                    self.tally.add(grants);
                    return Ok(());
                }
                LaneAnswer::Full { .. } | LaneAnswer::UsedUp { .. } => break,
            }
        }
        Err(Stop::NotPosted)
    }

    /// Collects a ticket out of the collector's hand, the tray behind those of the lanes.
    // As every maker collects: a shared one would be a call of the line that keeps an unspent receipt.
    fn collect(&mut self) -> Result<(), Stop> {
        let receipt = self.crew.begin_collect()?;
        let trays = self.trays.as_mut_slice();
        for _ in 0..MOST_GRANTS {
            let answer = self.crew.grant_collector(&mut self.board, trays);
            if let Ok(CollectorAnswer::Ended(_)) = answer {
                break;
            }
        }
        let Collected::Delivered { stamp, grants, .. } = self.crew.settle(receipt)? else {
            return Err(Stop::NotDelivered);
        };
        self.tally.add(grants);
        self.tally.fold(stamp);
        if let Some(ticket) = self.trays.get(usize::from(self.lanes)) {
            self.tally.fold_ticket(*ticket);
        }
        Ok(())
    }

    /// What the cycles left on the board goes into the check.
    pub fn fold_board(&mut self) {
        for k in 0..self.board.len() {
            self.tally.fold(self.board.load(k));
        }
    }
}
