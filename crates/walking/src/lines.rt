//! The lines that answers are printed as.
ghost use Rattle.std.specs.Prelude.{◌≡◌, Some, Ok};
ghost use Rattle.walking.specs.Lines.{collector_line, lane_line, line_text, or_refused, refusal_of, report_line};

use line::answer::{CollectorAnswer, LaneAnswer, Refusal, Totals};
use line::collector::Collected;
use runs::answers::Answer;
use script::fault::FaultAt;
use std::fmt::{self, Display};

/// What one record is answered with.
#[derive(Clone, Copy)]
pub enum Line {
    Laid(Result<(), Refusal>),
    Answered(Answer),
    Draining,
    /// The record is at fault, and the script ends.
    Fault(FaultAt),
}

impl Line {
    /// The refusal that the record is answered with, if it is refused.
    pub fn refusal(self) -> Option<Refusal>
        ensures { result ≡ refusal_of self }
    {
        // Results of different types; the two that are alike stand apart too, since the check proves each by itself.
        match self {
            Line::Laid(result) => result.err(),
            Line::Answered(Answer::BeginPost(result)) => result.err(),
            Line::Answered(Answer::BeginCollect(result)) => result.err(),
            Line::Answered(Answer::GrantLane { result, .. }) => result.err(),
            Line::Answered(Answer::GrantCollector(result)) => result.err(),
            Line::Answered(Answer::Settle(result)) => result.err(),
            Line::Answered(Answer::Report(result)) => result.err(),
            Line::Draining | Line::Fault(_) => None,
        }
    }
}

impl Display for Line {
    ghost output = { λ line. Some (line_text line) };

    fn fmt<W: fmt::Write>(&self, f: &mut fmt::Formatter<W>) -> fmt::Result {
        match *self {
            Line::Laid(result) => OrRefused(result.map(|()| "laid")).fmt(f),
            Line::Answered(Answer::BeginPost(result) | Answer::BeginCollect(result)) => {
                OrRefused(result.map(|()| "begun")).fmt(f)
            }
            Line::Answered(Answer::GrantLane { lane, result }) => {
                OrRefused(result.map(|answer| OfLane { lane, answer })).fmt(f)
            }
            Line::Answered(Answer::GrantCollector(result)) => {
                OrRefused(result.map(OfCollector)).fmt(f)
            }
            Line::Answered(Answer::Settle(result)) => OrRefused(result.map(|_| "settled")).fmt(f),
            Line::Answered(Answer::Report(result)) => OrRefused(result.map(OfCrew)).fmt(f),
            Line::Draining => write!(f, "draining"),
            Line::Fault(fault) => write!(f, "{fault}"),
        }
    }
}

/// What an accepted call says, or the number under which it was refused.
#[derive(Clone, Copy)]
struct OrRefused<T>(Result<T, Refusal>);

impl<T: Display> Display for OrRefused<T> {
    ghost output = { λ told. or_refused T.Display.output told.0 };

    fn fmt<W: fmt::Write>(&self, f: &mut fmt::Formatter<W>) -> fmt::Result {
        match &self.0 {
            // A hole of its own: whatever width the line is printed in, what it says is not padded.
            Ok(accepted) => write!(f, "{accepted}"),
            Err(refusal) => write!(f, "refused {}", refusal.number()),
        }
    }
}

/// A lane's grant: stamp and grants where it posted, number and grants where it ended otherwise.
#[derive(Clone, Copy)]
struct OfLane {
    lane: usize,
    answer: LaneAnswer,
}

impl Display for OfLane {
    ghost output = { λ grant. Some (lane_line grant.lane (Ok grant.answer)) };

    fn fmt<W: fmt::Write>(&self, f: &mut fmt::Formatter<W>) -> fmt::Result {
        let lane = self.lane;
        match self.answer {
            LaneAnswer::On => write!(f, "L{lane} on"),
            LaneAnswer::Posted { stamp, grants } => write!(f, "L{lane} posted {stamp} {grants}"),
            // Bare numbers, as `specs/Lines` writes them: tried with `number`, the text did not prove.
            LaneAnswer::Full { grants } => write!(f, "L{lane} refused 8 {grants}"),
            LaneAnswer::UsedUp { grants } => write!(f, "L{lane} refused 9 {grants}"),
        }
    }
}

/// The collector's grant: grants where it found nothing, lane, stamp and grants where it delivered.
#[derive(Clone, Copy)]
struct OfCollector(CollectorAnswer);

impl Display for OfCollector {
    ghost output = { λ grant. Some (collector_line (Ok grant.0)) };

    fn fmt<W: fmt::Write>(&self, f: &mut fmt::Formatter<W>) -> fmt::Result {
        match self.0 {
            CollectorAnswer::On => write!(f, "C on"),
            CollectorAnswer::Ended(Collected::Empty { grants }) => write!(f, "C empty {grants}"),
            CollectorAnswer::Ended(
                Collected::Delivered {
                    lane,
                    stamp,
                    grants,
                },
            ) => write!(f, "C delivered {lane} {stamp} {grants}"),
        }
    }
}

/// The crew's report: the totals posted and delivered.
#[derive(Clone, Copy)]
struct OfCrew(Totals);

impl Display for OfCrew {
    ghost output = { λ report. Some (report_line (Ok report.0)) };

    fn fmt<W: fmt::Write>(&self, f: &mut fmt::Formatter<W>) -> fmt::Result {
        let Totals { posted, delivered } = self.0;
        write!(f, "report {posted} {delivered}")
    }
}
