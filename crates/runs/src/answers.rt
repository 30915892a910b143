//! What the calls of a list answer.
use line::answer::{CollectorAnswer, LaneAnswer, Refusal, Totals};
use line::collector::Collected;

/// What one call of a list answered.
#[derive(Clone, Copy)]
pub enum Answer {
    BeginPost(Result<(), Refusal>),
    GrantLane {
        lane: usize,
        result: Result<LaneAnswer, Refusal>,
    },
    BeginCollect(Result<(), Refusal>),
    GrantCollector(Result<CollectorAnswer, Refusal>),
    Settle(Result<Collected, Refusal>),
    Report(Result<Totals, Refusal>),
}
