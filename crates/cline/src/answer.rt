//! Answers as a C program gets them: a number, and the values that come with it.
ghost use Rattle.std.specs.Prelude.{◌≡◌, ℕ, [], ◌∷◌};
ghost use Rattle.line.specs.Answers.{Told, told, told_by, lane_told, collected_told, collector_told};
ghost use Rattle.cline.specs.Answers.{answer_of, refused_number};

use line::answer::{CollectorAnswer, LaneAnswer, Refusal, Totals};
use line::collector::Collected;
use script::fault::Fault;

/// The number of an answer, and its values; those from `count` on are 0.
// A number, and a count beside an array: C has no enum that carries values.
#[repr(C)]
#[derive(Clone, Copy)]
pub struct Answer {
    pub number: u64,
    pub count: u64,
    pub values: [u64; 3],
}

/// Why a call takes up no crew.
#[derive(Clone, Copy, PartialEq, Eq, Debug)]
pub(crate) enum Refused {
    /// The numbers mean no crew that could have been laid.
    NeverLaid,
    /// The call is for an open crew and this one drains, or the other way round.
    OutOfPlace,
}

impl Refused {
    /// The refusal's number.
    fn number(self) -> u8
        ensures { result ≡ refused_number self }
    {
        match self {
            Refused::NeverLaid => Refusal::NeverLaid.number(),
            Refused::OutOfPlace => Fault::OutOfPlace.number(),
        }
    }
}

impl Answer {
    /// The answer with this number and these values, of which there are at most three.
    fn telling(number: u8, values: &[u64]) -> Answer
        ensures { result ≡ answer_of (told number values.now) }
    {
        let value = |place: usize| values.get(place).copied().unwrap_or(0);
        Answer {
            number: u64::from(number),
            count: values.len() as u64,
            values: [value(0), value(1), value(2)],
        }
    }
}

/// What an accepted call has to tell.
pub(crate) trait Tells {
    /// Its number and its values.
    ghost told: { Self → Told };

    /// The answer.
    fn answer(self) -> Answer
        ensures { result ≡ answer_of (told self) };
}

/// Nothing but that the call was accepted.
impl Tells for () {
    ghost told = { λ _. told 0 [] };

    fn answer(self) -> Answer {
        Answer::telling(0, &[])
    }
}

/// How a post goes.
impl Tells for LaneAnswer {
    ghost told = { lane_told };

    fn answer(self) -> Answer {
        match self {
            LaneAnswer::On => Answer::telling(0, &[]),
            LaneAnswer::Posted { stamp, grants } => Answer::telling(0, &[stamp, grants]),
            LaneAnswer::Full { grants } | LaneAnswer::UsedUp { grants } => {
                Answer::telling(self.number(), &[grants])
            }
        }
    }
}

/// How a collect ended.
impl Tells for Collected {
    ghost told = { collected_told };

    fn answer(self) -> Answer {
        match self {
            Collected::Empty { grants } => Answer::telling(0, &[grants]),
            Collected::Delivered {
                lane,
                stamp,
                grants,
            } => { Answer::telling(0, &[lane as u64, stamp, grants]) }
        }
    }
}

/// How a collect goes.
impl Tells for CollectorAnswer {
    ghost told = { collector_told };

    fn answer(self) -> Answer {
        match self {
            CollectorAnswer::On => Answer::telling(0, &[]),
            CollectorAnswer::Ended(how) => how.answer(),
        }
    }
}

/// How many frames lie in a lane.
impl Tells for usize {
    ghost told = { λ frames. told 0 (frames ∷ []) };

    fn answer(self) -> Answer {
        Answer::telling(0, &[self as u64])
    }
}

/// Both totals.
impl Tells for Totals {
    ghost told = { λ totals. told 0 (totals.posted ∷ totals.delivered ∷ []) };

    fn answer(self) -> Answer {
        Answer::telling(0, &[self.posted, self.delivered])
    }
}

/// What a call tells that may be refused.
impl<T: Tells> From<Result<T, Refusal>> for Answer {
    ghost from_gives = { λ res answer. answer ≡ answer_of (told_by T.told res) };

    fn from(res: Result<T, Refusal>) -> Answer {
        match res {
            Ok(told) => told.answer(),
            Err(refusal) => Answer::telling(refusal.number(), &[]),
        }
    }
}

impl From<Refused> for Answer {
    ghost from_gives = { λ refused answer. answer ≡ answer_of (told (refused_number refused) []) };

    fn from(refused: Refused) -> Answer {
        Answer::telling(refused.number(), &[])
    }
}
