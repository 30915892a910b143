//! The numbers by which refusals are told, and posts that end without posting.
ghost use Rattle.std.specs.Prelude.{◌≡◌};
ghost use Rattle.line.specs.Answers.{lane_told, refusal_number};

use crate::answer::{LaneAnswer, Refusal};

impl Refusal {
    /// The refusal's number.
    pub fn number(self) -> u8
        ensures { result ≡ refusal_number self }
    {
        self as u8
    }
}

impl LaneAnswer {
    /// The number under which a grant is told that ends its post without posting; 0 for the others.
    pub fn number(self) -> u8
        ensures { result ≡ (lane_told self).number }
    {
        match self {
            LaneAnswer::On | LaneAnswer::Posted { .. } => 0,
            LaneAnswer::Full { .. } => 8,
            LaneAnswer::UsedUp { .. } => 9,
        }
    }
}
