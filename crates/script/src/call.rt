//! What a record after the laying says, before the drain and after it.
ghost use Rattle.std.specs.Prelude.{◌≡◌, Option, Result};
ghost use Rattle.script.specs.Calls.{crew_call, draining_item, open_item};
ghost use Rattle.script.specs.declared.fault.Fault.{Fault};
ghost use Rattle.script.specs.declared.record.Record.{Record};

use crate::fault::Fault;
use crate::payload::Payload;
use crate::record::{Kind, Record};
use runs::calls::{CrewCall, DrainingCall, OpenCall};

/// The calls of one part of a script: those before the drain, or those after it.
pub trait Call: Copy {
    /// What a record in this part says, or why it may not stand there.
    ghost item: { Record → Result (Option Self) Fault };

    /// The call that the record makes in this part; None where it drains the line: the calls after it are those of a
    /// draining crew.
    fn of_record(record: &Record) -> Result<Option<Self>, Fault>
        ensures { result ≡ item «record».now };
}

impl<P: Payload> Call for OpenCall<P> {
    ghost item = { open_item P.Payload.brought };

    fn of_record(record: &Record) -> Result<Option<OpenCall<P>>, Fault> {
        match Kind::try_from(record.kind)? {
            Kind::PostTicket | Kind::PostNote => Ok(Some(OpenCall::BeginPost {
                lane: record.lane as usize,
                payload: P::of_record(record)?,
            })),
            Kind::Drain => Ok(None),
            _ => Ok(Some(OpenCall::Any(crew_call(record)?))),
        }
    }
}

impl Call for DrainingCall {
    ghost item = { draining_item };

    fn of_record(record: &Record) -> Result<Option<DrainingCall>, Fault> {
        match Kind::try_from(record.kind)? {
            Kind::Report => Ok(Some(DrainingCall::Report)),
            _ => Ok(Some(DrainingCall::Any(crew_call(record)?))),
        }
    }
}

/// The call of a record that may stand before the drain and after it.
fn crew_call(record: &Record) -> Result<CrewCall, Fault>
    ensures { result ≡ crew_call «record».now }
{
    let times = record.times;
    match Kind::try_from(record.kind)? {
        Kind::GrantLane | Kind::GrantCollector if times == 0 => Err(Fault::FieldNotAllowed),
        Kind::GrantLane => Ok(CrewCall::GrantLane {
            lane: record.lane as usize,
            times,
        }),
        Kind::BeginCollect => Ok(CrewCall::BeginCollect),
        Kind::GrantCollector => Ok(CrewCall::GrantCollector { times }),
        Kind::Settle => Ok(CrewCall::Settle),
        Kind::LayTickets
        | Kind::LayNotes
        | Kind::PostTicket
        | Kind::PostNote
        | Kind::Drain
        | Kind::Report => Err(Fault::OutOfPlace),
    }
}
