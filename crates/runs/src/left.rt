//! What a run leaves.
use crate::answers::Answer;
use line::answer::Refusal;
use line::either::EitherCrew;

/// What the calls of a run answered, and the crew that they left.
#[derive(Drop)]
pub struct Run {
    /// What the laying answered.
    pub laid: Result<(), Refusal>,
    /// What each call before the drain answered, in the order of the list.
    pub before: Vec<Answer>,
    /// What each call after the drain answered, if there was a drain.
    pub after: Option<Vec<Answer>>,
    /// Open, or draining if there was a drain.
    pub crew: EitherCrew,
}
