//! Records, faults and refusals in words.
use crate::lines::Line;
use line::answer::{LaneAnswer, Refusal};
use runs::answers::Answer;
use script::fault::Fault;
use script::payload::{Note, Payload, Ticket};
use script::record::{Kind, Record};
use std::fmt;

/// What is asked at a place of a script: what this record asks; or nothing, since the record or the script has a fault.
/// A type of its own, so that it has a `Display`.
#[derive(Clone, Copy)]
pub struct Asked(pub Result<Record, Fault>);

impl fmt::Display for Asked {
    fn fmt<W: fmt::Write>(&self, f: &mut fmt::Formatter<W>) -> fmt::Result {
        match &self.0 {
            Ok(record) => show_record(record, f),
            Err(fault) => write!(f, "{fault}"),
        }
    }
}

// `Record` is a type of `script`, so the words for it are no `Display` of it, but functions of a record and what is written to.
fn show_record<W: fmt::Write>(record: &Record, f: &mut fmt::Formatter<W>) -> fmt::Result {
    let lane = record.lane;
    let times = Count(record.times, "time");
    match Kind::try_from(record.kind) {
        Err(fault) => write!(f, "{fault}"),
        Ok(Kind::LayTickets) => show_laying("tickets", record, f),
        Ok(Kind::LayNotes) => show_laying("notes", record, f),
        Ok(Kind::PostTicket) => show_post::<Ticket, W>(record, f),
        Ok(Kind::PostNote) => show_post::<Note, W>(record, f),
        Ok(Kind::GrantLane) => write!(f, "grant lane {lane}, at most {times}"),
        Ok(Kind::BeginCollect) => write!(f, "begin a collect"),
        Ok(Kind::GrantCollector) => write!(f, "grant the collector, at most {times}"),
        Ok(Kind::Settle) => write!(f, "settle the collect"),
        Ok(Kind::Drain) => write!(f, "drain the crew"),
        Ok(Kind::Report) => write!(f, "report both totals"),
    }
}

fn show_laying<W: fmt::Write>(
    payloads: &str,
    record: &Record,
    f: &mut fmt::Formatter<W>,
) -> fmt::Result {
    let lanes = Count(record.lanes, "lane");
    let cells = Count(record.cells, "cell");
    let start = record.start;
    write!(
        f,
        "lay a line for {payloads}: {lanes} of {cells}, stamps from {start}"
    )
}

/// A post: its lane, and what it brings.
fn show_post<P: Payload + fmt::Display, W: fmt::Write>(
    record: &Record,
    f: &mut fmt::Formatter<W>,
) -> fmt::Result {
    let lane = record.lane;
    match P::of_record(record) {
        Ok(payload) => write!(f, "post on lane {lane}: {payload}"),
        Err(fault) => write!(f, "{fault}"),
    }
}

/// So many of a thing, whose name is given for one of it.
#[derive(Clone, Copy)]
struct Count(u16, &'static str);

impl fmt::Display for Count {
    fn fmt<W: fmt::Write>(&self, f: &mut fmt::Formatter<W>) -> fmt::Result {
        let Count(count, name) = *self;
        match count {
            1 => write!(f, "1 {name}"),
            _ => write!(f, "{count} {name}s"),
        }
    }
}

/// Why the call that a line answers was refused, or why its post ended without posting; None where neither is so.
pub fn cause(line: Line) -> Option<&'static str> {
    match line {
        Line::Answered(
            Answer::GrantLane {
                result: Ok(LaneAnswer::Full { .. }),
                ..
            },
        ) => Some("the lane is full"),
        Line::Answered(
            Answer::GrantLane {
                result: Ok(LaneAnswer::UsedUp { .. }),
                ..
            },
        ) => Some("the stamps are used up"),
        _ => line.refusal().map(refusal_cause),
    }
}

/// Why a call is refused so. `Refusal` is a type of `line`, so these words are no `Display` of it.
fn refusal_cause(refusal: Refusal) -> &'static str {
    match refusal {
        Refusal::BadShape => "lanes outside 1 to 16, or cells outside 2 to 64",
        Refusal::BadStart => "the start is above 2^62",
        Refusal::TooShort => "board or trays are too short for the line",
        Refusal::NeverLaid => "no line is laid",
        Refusal::NoLane => "there is no such lane",
        Refusal::PostUnderWay => "a post is under way on the lane",
        Refusal::NoPost => "no post is under way on the lane",
        Refusal::CollectUnsettled => "a collect is under way or not settled",
        Refusal::NoCollect => "no collect is under way",
        Refusal::CollectNotEnded => "the collect has not ended",
        Refusal::NotDone => "a post or collect is under way or unsettled, or a lane holds a frame",
    }
}
