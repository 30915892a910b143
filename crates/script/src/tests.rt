//! Scripts on the edge of each fault, and two that are read whole.
use crate::call::Call;
use crate::fault::{Fault, FaultAt};
use crate::payload::{Note, Payload, Ticket};
use crate::record::{Kind, Record};
use crate::script::{Calls, Payloads, open_script, read_calls};
use runs::calls::{CrewCall, DrainingCall, OpenCall};
use std::alloc::{AllocError, Global};
use std::process::Abort;
use std::test::Fail;

/// How many calls were read before the drain and, if there is one, after it, and the number and the place of the
/// fault, which are 0 without one.
type Outcome = (usize, Option<usize>, u8, usize);

const TICKETS: [u8; 16] = [16, 0, 1, 0, 1, 0, 2, 0, 0, 0, 0, 0, 0, 0, 0, 0];

const NOTES: [u8; 16] = [16, 0, 2, 0, 1, 0, 2, 0, 0, 0, 0, 0, 0, 0, 0, 0];

const POST_TICKET: [u8; 18] = [18, 0, 3, 0, 2, 1, 4, 3, 2, 1, 8, 7, 6, 5, 12, 11, 10, 9];

const POST_NOTE: [u8; 12] = [12, 0, 4, 0, 0, 0, 2, 0, 0, 0, 144, 192];

const GRANT_LANE: [u8; 8] = [8, 0, 5, 0, 7, 0, 13, 0];

const BEGIN_COLLECT: [u8; 4] = [4, 0, 6, 0];

const GRANT_COLLECTOR: [u8; 6] = [6, 0, 7, 0, 2, 1];

const SETTLE: [u8; 4] = [4, 0, 8, 0];

const DRAIN: [u8; 4] = [4, 0, 9, 0];

const REPORT: [u8; 4] = [4, 0, 10, 0];

fn outcome<P: Payload>(read: Calls<P>) -> Outcome {
    let after = read.after.as_ref().map(|calls| calls.len());
    let (number, at) = read.fault.map_or((0, 0), |f| (f.fault.number(), f.at));
    (read.before.len(), after, number, at)
}

/// The outcome of a whole script.
fn outcome_of(heap: Global, script: &[u8]) -> Result<Outcome, AllocError> {
    match open_script(script) {
        Ok(None) => Ok((0, None, 0, 0)),
        Ok(Some(opened)) => match opened.payloads {
            Payloads::Tickets => Ok(outcome::<Ticket>(read_calls(heap, opened.rest, 16)?)),
            Payloads::Notes => Ok(outcome::<Note>(read_calls(heap, opened.rest, 16)?)),
        },
        Err(f) => Ok((0, None, f.fault.number(), f.at)),
    }
}

/// Tests a table of scripts that begin with `first`: each row has two more records, and the outcome.
fn check_behind(
    rt: &impl Abort,
    heap: Global,
    first: &[u8],
    rows: &[(&[u8], &[u8], Outcome)],
) -> Result<(), Fail> {
    for (record, next, told) in rows {
        let mut script = Vec::from_slice(heap, first)?;
        script.extend_from_slice(record)?;
        script.extend_from_slice(next)?;
        assert_eq!(rt; outcome_of(heap, script.as_slice())?, *told);
    }
    Ok(())
}

#[test]
fn a_script_begins_with_a_laying(rt: HostRuntime) -> Result<(), Fail> {
    let rows: [(&[u8], u8); 10] = [
        (&[], 0),
        (&[16, 0, 1], 14),
        (&[3, 0, 1, 0], 14),
        (&[5, 0, 11, 0], 14),
        (&[5, 0, 11, 0, 0], 15),
        (&[4, 0, 11, 0], 15),
        (&[5, 0, 10, 0, 0], 14),
        (&REPORT, 16),
        (&POST_TICKET, 16),
        (&DRAIN, 16),
    ];
    for (script, number) in rows {
        assert_eq!(rt; outcome_of(rt.alloc(), script)?, (0, None, number, 0));
    }
    Ok(())
}

#[test]
fn a_ticket_script_stops_at_its_first_fault(rt: HostRuntime) -> Result<(), Fail> {
    let rows: [(&[u8], &[u8], Outcome); 19] = [
        (&[], &[], (0, None, 0, 0)),
        (&GRANT_LANE, &[4, 0, 6], (1, None, 14, 24)),
        (&GRANT_LANE, &[5, 0, 6, 0, 0], (1, None, 14, 24)),
        (&GRANT_LANE, &[4, 0, 11, 0], (1, None, 15, 24)),
        (&GRANT_LANE, &REPORT, (1, None, 16, 24)),
        (&[4, 0, 0, 0], &GRANT_LANE, (0, None, 15, 16)),
        (&[9, 0, 5, 0, 0, 0, 0, 0, 0], &[], (0, None, 14, 16)),
        (&[8, 0, 5, 0, 0, 0, 0, 0], &[], (0, None, 17, 16)),
        (&[8, 0, 5, 0, 255, 255, 0, 1], &[], (1, None, 0, 0)),
        (&[4, 0, 7, 0], &[], (0, None, 14, 16)),
        (&[7, 0, 7, 0, 1, 0, 0], &[], (0, None, 14, 16)),
        (&[6, 0, 7, 0, 0, 0], &[], (0, None, 17, 16)),
        (&[6, 0, 7, 0, 0, 1], &[], (1, None, 0, 0)),
        (&[6, 0, 8, 0, 0, 0], &[], (0, None, 14, 16)),
        (&[5, 0, 9, 0, 0], &[], (0, None, 14, 16)),
        (&[11, 0, 4, 0, 0, 0, 4, 0, 0, 0, 0], &[], (0, None, 14, 16)),
        (&POST_NOTE, &[], (0, None, 16, 16)),
        (&SETTLE, &TICKETS, (1, None, 16, 20)),
        (&SETTLE, &NOTES, (1, None, 16, 20)),
    ];
    check_behind(&rt, rt.alloc(), &TICKETS, &rows)
}

#[test]
fn a_drain_parts_the_calls(rt: HostRuntime) -> Result<(), Fail> {
    let heap = rt.alloc();
    let mut drained = Vec::from_slice(heap, &TICKETS)?;
    drained.extend_from_slice(&BEGIN_COLLECT)?;
    drained.extend_from_slice(&DRAIN)?;
    let rows: [(&[u8], &[u8], Outcome); 12] = [
        (&[], &[], (1, Some(0), 0, 0)),
        (&GRANT_LANE, &SETTLE, (1, Some(2), 0, 0)),
        (&DRAIN, &[], (1, Some(0), 16, 24)),
        (&BEGIN_COLLECT, &DRAIN, (1, Some(1), 16, 28)),
        (&SETTLE, &POST_TICKET, (1, Some(1), 16, 28)),
        (&POST_NOTE, &[], (1, Some(0), 16, 24)),
        (&TICKETS, &[], (1, Some(0), 16, 24)),
        (&NOTES, &[], (1, Some(0), 16, 24)),
        (&[4, 0, 11, 0], &[], (1, Some(0), 15, 24)),
        (&REPORT, &SETTLE, (1, Some(2), 0, 0)),
        (&[6, 0, 7, 0, 0, 0], &[], (1, Some(0), 17, 24)),
        (&SETTLE, &[4, 0, 8], (1, Some(1), 14, 28)),
    ];
    check_behind(&rt, heap, drained.as_slice(), &rows)
}

#[test]
fn a_note_has_an_allowed_reading(rt: HostRuntime) -> Result<(), Fail> {
    let rows: [(&[u8], &[u8], Outcome); 8] = [
        (
            &[12, 0, 4, 0, 0, 0, 0, 0, 0, 0, 0, 0],
            &[],
            (0, None, 17, 16),
        ),
        (
            &[12, 0, 4, 0, 0, 0, 5, 0, 0, 0, 0, 0],
            &[],
            (0, None, 17, 16),
        ),
        (
            &[12, 0, 4, 0, 0, 0, 1, 0, 255, 255, 127, 127],
            &[],
            (1, None, 0, 0),
        ),
        (
            &[12, 0, 4, 0, 0, 0, 1, 0, 0, 0, 128, 127],
            &[],
            (0, None, 17, 16),
        ),
        (
            &[12, 0, 4, 0, 0, 0, 3, 0, 1, 0, 192, 255],
            &[],
            (0, None, 17, 16),
        ),
        (
            &[12, 0, 4, 0, 0, 0, 4, 0, 0, 0, 128, 127],
            &[],
            (1, None, 0, 0),
        ),
        (&POST_TICKET, &[], (0, None, 16, 16)),
        (&DRAIN, &POST_NOTE, (0, Some(0), 16, 20)),
    ];
    check_behind(&rt, rt.alloc(), &NOTES, &rows)
}

#[test]
fn a_script_has_a_longest_length(rt: HostRuntime) -> Result<(), Fail> {
    let heap = rt.alloc();
    let script = vec![in heap; 0u8; 60_001]?;
    assert!(rt; script.len() == 60_001);
    assert_eq!(rt; outcome_of(heap, script.as_slice())?, (0, None, 18, 0));
    assert_eq!(rt; outcome_of(heap, &script[1..])?, (0, None, 14, 0));
    assert_eq!(rt;
        outcome::<Ticket>(read_calls(heap, &DRAIN, 59_997)?),
        (0, None, 18, 0)
    );
    assert_eq!(rt;
        outcome::<Ticket>(read_calls(heap, &DRAIN, 59_996)?),
        (0, Some(0), 0, 0)
    );
    Ok(())
}

#[test]
fn calls_have_the_numbers_of_their_records(rt: HostRuntime) -> Result<(), Fail> {
    let heap = rt.alloc();
    let records: [&[u8]; 10] = [
        &POST_TICKET,
        &GRANT_LANE,
        &BEGIN_COLLECT,
        &GRANT_COLLECTOR,
        &SETTLE,
        &DRAIN,
        &GRANT_LANE,
        &BEGIN_COLLECT,
        &GRANT_COLLECTOR,
        &SETTLE,
    ];
    let mut script = Vec::new(heap);
    for record in records {
        script.extend_from_slice(record)?;
    }
    let read = read_calls::<Ticket>(heap, script.as_slice(), 16)?;
    assert!(rt; read.fault.is_none());
    let [
        OpenCall::BeginPost { lane, payload },
        OpenCall::Any(
            CrewCall::GrantLane {
                lane: granted,
                times,
            },
        ),
        OpenCall::Any(CrewCall::BeginCollect),
        OpenCall::Any(CrewCall::GrantCollector { times: collected }),
        OpenCall::Any(CrewCall::Settle),
    ] = read.before.as_slice()
    else {
        return Err(Fail::new("not the calls before the drain"));
    };
    assert_eq!(rt;
        (*lane, payload.frame, payload.place, payload.length),
        (0x102, 0x1020304, 0x5060708, 0x90a0b0c)
    );
    assert_eq!(rt; (*granted, *times, *collected), (7, 13, 0x102));
    let Some(after) = &read.after else {
        return Err(Fail::new("no drain"));
    };
    let [
        DrainingCall::Any(CrewCall::GrantLane { lane, times }),
        DrainingCall::Any(CrewCall::BeginCollect),
        DrainingCall::Any(CrewCall::GrantCollector { times: collected }),
        DrainingCall::Any(CrewCall::Settle),
    ] = after.as_slice()
    else {
        return Err(Fail::new("not the calls after the drain"));
    };
    assert_eq!(rt; (*lane, *times, *collected), (7, 13, 0x102));
    Ok(())
}

#[test]
fn a_note_has_the_numbers_of_its_record(rt: HostRuntime) -> Result<(), Fail> {
    let read = read_calls::<Note>(rt.alloc(), &POST_NOTE, 16)?;
    let [
        OpenCall::BeginPost {
            lane: 0,
            payload: Note::BiasVoltage(bias),
        },
    ] = read.before.as_slice()
    else {
        return Err(Fail::new("not a bias voltage of lane 0"));
    };
    assert!(rt; *bias == -4.5);
    Ok(())
}

#[test]
fn a_laying_has_the_numbers_of_its_record(rt: HostRuntime) -> Result<(), Fail> {
    let Ok(Some(opened)) = open_script(&[16, 0, 2, 0, 3, 0, 4, 1, 8, 7, 6, 5, 4, 3, 2, 1]) else {
        return Err(Fail::new("not a laying"));
    };
    assert_eq!(rt; opened.payloads, Payloads::Notes);
    assert!(rt; opened.rest.is_empty());
    let laying = opened.laying;
    assert_eq!(rt;
        (laying.lanes, laying.cells, laying.start),
        (3, 260, 0x102030405060708)
    );
    let told = format!(in rt.alloc();
        "{}",
        FaultAt {
            fault: Fault::UnknownKind,
            at: 16
        }
    )?;
    assert_eq!(rt; told.as_str(), "fault 15 at 16");
    Ok(())
}

#[test]
fn a_record_of_no_kind_asks_for_nothing(rt: HostRuntime) -> Result<(), Fail> {
    for kind in [0, 11, 77, u16::MAX] {
        let record = Record {
            kind,
            lane: 0,
            lanes: 1,
            cells: 2,
            start: 0,
            frame: 0,
            place: 0,
            length: 0,
            tag: 4,
            value: 0,
            times: 0,
        };
        let before = OpenCall::<Ticket>::of_record(&record);
        assert_eq!(rt; before.err(), Some(Fault::UnknownKind));
        let after = DrainingCall::of_record(&record);
        assert_eq!(rt; after.err(), Some(Fault::UnknownKind));
        assert_eq!(rt; Ticket::of_record(&record).err(), Some(Fault::OutOfPlace));
        assert_eq!(rt; Note::of_record(&record).err(), Some(Fault::OutOfPlace));
    }
    Ok(())
}

#[test]
fn a_kind_has_the_number_that_stands_for_it(rt: HostRuntime) -> Result<(), Fail> {
    for number in 1..=10 {
        assert_eq!(rt; Kind::try_from(number).map(Kind::number), Ok(number));
    }
    assert_eq!(rt; Kind::Report.number(), 10);
    Ok(())
}
