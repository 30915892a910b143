//! The collecting side: begin a collect, step it, and settle it.
ghost use Rattle.std.specs.Prelude.{◌≡◌, ℕ, ◌+◌, ◌%◌, slice_set};
ghost use Rattle.line.specs.Answers.{collected_told, told_by, told_done};
ghost use Rattle.line.specs.Calls.{CrewGives, begins_collect, settles};
ghost use Rattle.line.specs.Collect.{collect_answer_at, collector_at, collector_next, delivered_after, head_of, heads_after};
ghost use Rattle.line.specs.Crew.{Keeps, shape, with_collector};
ghost use Rattle.line.specs.Post.{one_more};

use crate::answer::{CollectorAnswer, Refusal};
use crate::collector::{CollectNext, CollectStage, Collected, Collector, Kept};
use crate::crew::Core;
use crate::ring::Ring;
use boards::EMPTY;

// A ring comes beside `self` here too: a `Core` alone may have no cells. It has no `is_laid` of a crew's either.
impl Core {
    /// Begins a collect: its first grant loads slot 0. No receipt is handed out here.
    pub fn open_collect(&mut self) -> Result<(), Refusal>
        ensures step { CrewGives (begins_collect self.old) (told_done result) self.new }
        ensures keeps { Keeps self.old self.new }
    {
        if self.shape.lanes == 0 {
            return Err(Refusal::NeverLaid);
        }
        if self.collector.stage.is_begun() {
            return Err(Refusal::CollectUnsettled);
        }
        let kept = Kept {
            lane: 0,
            stamp: EMPTY,
        };
        self.collector = Collector {
            stage: CollectStage::ScanFirst { next: 0, kept },
            grants: 0,
        };
        Ok(())
    }

    /// Steps the collector by a grant that read `word`, and answers what the grant answers.
    pub(crate) fn step_collector(&mut self, ring: Ring, word: u64) -> CollectorAnswer
        ensures answer { result ≡ collect_answer_at (one_more self.old.collector.grants) (collector_next (shape self.old.shape.lanes ring.cells) self.old.heads self.old.collector.stage word) }
        ensures crew { self.new ≡ with_collector self.old (heads_after (shape self.old.shape.lanes ring.cells) self.old.heads self.old.collector.stage) (collector_at (one_more self.old.collector.grants) (collector_next (shape self.old.shape.lanes ring.cells) self.old.heads self.old.collector.stage word)) (delivered_after self.old.delivered (collector_next (shape self.old.shape.lanes ring.cells) self.old.heads self.old.collector.stage word)) }
    {
        let grants = self.collector.grants.saturating_add(1);
        let next = self.collector_next(ring, word);
        // Beside the match of `collector_next`: only the head depends on it, whatever comes next.
        if let CollectStage::Free { kept } = self.collector.stage {
            self.move_head(ring, kept.lane);
        }
        match next {
            CollectNext::Goes(stage) => {
                self.collector = Collector { stage, grants };
                CollectorAnswer::On
            }
            CollectNext::EndsEmpty => self.end_collect(Collected::Empty { grants }),
            CollectNext::EndsDelivered(kept) => {
                self.delivered = self.delivered.saturating_add(1);
                self.end_collect(Collected::Delivered {
                    lane: usize::from(kept.lane),
                    stamp: kept.stamp,
                    grants,
                })
            }
        }
    }

    /// The copy of a lane's head goes on to the next cell.
    fn move_head(&mut self, ring: Ring, lane: u8)
        ensures { self.new ≡ with_collector self.old (slice_set self.old.heads lane ((head_of self.old.heads lane + 1) % ring.cells)) self.old.collector self.old.delivered }
    {
        let next = ring.after(self.head(lane));
        // By index: a write through `get_mut` tells a proof nothing of the heads.
        if usize::from(lane) < self.heads.len() {
            self.heads[usize::from(lane)] = next;
        }
    }

    /// The collect waits to be settled.
    fn end_collect(&mut self, how: Collected) -> CollectorAnswer
        ensures answer { result ≡ CollectorAnswer.Ended how }
        ensures crew { self.new ≡ with_collector self.old self.old.heads (record { stage = CollectStage.Ended how; grants = 0 }) self.old.delivered }
    {
        self.collector = Collector {
            stage: CollectStage::Ended(how),
            grants: 0,
        };
        CollectorAnswer::Ended(how)
    }

    /// Settles an ended collect without a receipt, and repeats how it ended.
    pub fn close_collect(&mut self) -> Result<Collected, Refusal>
        ensures step { CrewGives (settles self.old) (told_by collected_told result) self.new }
        ensures keeps { Keeps self.old self.new }
    {
        if self.shape.lanes == 0 {
            return Err(Refusal::NeverLaid);
        }
        // One match on the stage: only an ended collect is settled.
        match self.collector.stage {
            CollectStage::Idle => Err(Refusal::NoCollect),
            CollectStage::Ended(how) => {
                self.collector = Collector {
                    stage: CollectStage::Idle,
                    grants: 0,
                };
                Ok(how)
            }
            _ => Err(Refusal::CollectNotEnded),
        }
    }
}
