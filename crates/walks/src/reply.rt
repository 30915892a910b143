//! What a call answered, as a line of the output.
use line::answer::{CollectorAnswer, LaneAnswer, Refusal, Totals};
use line::collector::Collected;
use std::fmt;

/// The answer to one call or one grant. No `Result`: accepted or refused, it is one line of the output.
#[derive(Clone, Copy, PartialEq)]
pub enum Answer {
    /// Accepted, with nothing to tell.
    Accepted,
    /// A fill, or what lies in a tray.
    Number(u64),
    Lane(LaneAnswer),
    Collector(CollectorAnswer),
    Settled(Collected),
    /// A report.
    Totals(Totals),
    Refused(Refusal),
    /// The crew has no such call, or there is no such tray.
    Nothing,
    /// A refused call changed the board or the trays that it was given.
    Spilled,
}

/// The answer to a line of the input. Both are answers, so neither is an error or missing.
#[derive(Clone, Copy, PartialEq)]
pub enum Reply {
    Once(Answer),
    /// The answer to the last of so many grants.
    Last { made: u64, answer: Answer },
}

impl fmt::Display for Answer {
    fn fmt<W: fmt::Write>(&self, f: &mut fmt::Formatter<W>) -> fmt::Result {
        match *self {
            Answer::Accepted
            | Answer::Lane(LaneAnswer::On)
            | Answer::Collector(CollectorAnswer::On) => write!(f, "0"),
            Answer::Number(value) => write!(f, "0 {value}"),
            Answer::Lane(LaneAnswer::Posted { stamp, grants }) => write!(f, "0 {stamp} {grants}"),
            Answer::Lane(answer @ (LaneAnswer::Full { grants } | LaneAnswer::UsedUp { grants })) =>
                write!(f, "{} {grants}", answer.number()),
            Answer::Collector(CollectorAnswer::Ended(how)) | Answer::Settled(how) => match how {
                Collected::Empty { grants } => write!(f, "0 {grants}"),
                Collected::Delivered {
                    lane,
                    stamp,
                    grants,
                } => write!(f, "0 {lane} {stamp} {grants}"),
            },
            Answer::Totals(Totals { posted, delivered }) => write!(f, "0 {posted} {delivered}"),
            Answer::Refused(refusal) => write!(f, "{}", refusal.number()),
            Answer::Nothing => write!(f, "nothing"),
            Answer::Spilled => write!(f, "spilled"),
        }
    }
}

impl fmt::Display for Reply {
    fn fmt<W: fmt::Write>(&self, f: &mut fmt::Formatter<W>) -> fmt::Result {
        match *self {
            Reply::Once(answer) => write!(f, "{answer}"),
            Reply::Last { made, answer } => write!(f, "{made}: {answer}"),
        }
    }
}
