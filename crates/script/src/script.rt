//! A whole script: how it begins, and the calls that follow.
ghost use Rattle.std.specs.Prelude.{◌≡◌, ◌+◌, ◌≤◌, length, IfOk, Some, None, Ok, Err};
ghost use Rattle.script.specs.Laws.{DrainsOn, KeepsCallsBefore, OneReading, ReadsOn};
ghost use Rattle.script.specs.Records.{record_at, rest_at};
ghost use Rattle.script.specs.Scripts.{CallsFrom, CallsUpTo, Opens, Stops, after_items, first_line, laying_of, line_for, next_item, opening, payloads_of};

use crate::call::Call;
use crate::fault::{Fault, FaultAt};
use crate::payload::Payload;
use crate::record::{Kind, Record, read_record};
use runs::calls::{DrainingCall, Laying, OpenCall};
use std::alloc::{AllocError, Global};

/// The most bytes that a script may have.
const LONGEST: usize = 60_000;

/// The fault of a script that has more.
const TOO_LONG: FaultAt = FaultAt {
    fault: Fault::TooLong,
    at: 0,
};

/// What the posts of a script bring.
#[derive(Clone, Copy, Debug, PartialEq, Eq)]
pub enum Payloads {
    /// Tickets.
    Tickets,
    /// Notes.
    Notes,
}

/// What the posts bring on a line that a record of this kind lays. Another kind is out of place there.
impl TryFrom<Kind> for Payloads {
    type Error = Fault;

    ghost try_from_gives = { λ kind payloads. payloads ≡ payloads_of kind };

    fn try_from(kind: Kind) -> Result<Payloads, Fault> {
        match kind {
            Kind::LayTickets => Ok(Payloads::Tickets),
            Kind::LayNotes => Ok(Payloads::Notes),
            _ => Err(Fault::OutOfPlace),
        }
    }
}

/// How a script begins.
#[derive(Clone, Copy)]
pub struct Opened<'a> {
    /// What the posts on the line bring.
    pub payloads: Payloads,
    /// The numbers that the line is laid with.
    pub laying: Laying,
    /// The bytes after the record of the laying.
    pub rest: &'a [u8],
}

/// The calls of a script after its laying.
#[derive(Drop)]
pub struct Calls<P> {
    /// The calls before the drain, in the order of their records; all calls, where the script has no drain.
    pub before: Vec<OpenCall<P>>,
    /// The calls after the drain; None, where no drain was read.
    pub after: Option<Vec<DrainingCall>>,
    /// What ended the script before its last byte, if anything did.
    pub fault: Option<FaultAt>,
}

/// The calls of one part of a script, before the drain or after it, and how the part ends.
#[derive(Drop)]
struct Part<C> {
    calls: Vec<C>,
    /// The place at which the bytes behind a drain start; None where the part ends with the script; or the fault of the
    /// next record.
    end: Result<Option<usize>, FaultAt>,
}

/// Reads the laying that a script begins with. A script without bytes has none, and no fault either.
pub fn open_script(input: &[u8]) -> Result<Option<Opened<'_>>, FaultAt>
    ensures { elim result [ Err f ↦ opening input.now ≡ Err f | Ok o ↦ elim o [ None ↦ opening input.now ≡ Ok None | Some w ↦ Opens input.now (line_for w.payloads w.laying) w.rest.now ] ] }
{
    if input.len() > LONGEST {
        return Err(TOO_LONG);
    }
    if input.is_empty() {
        return Ok(None);
    }
    let opened = read_opening(input).map_err(|fault| FaultAt { fault, at: 0 })?;
    Ok(Some(opened))
}

/// Reads the laying at the front of `input`.
fn read_opening(input: &[u8]) -> Result<Opened<'_>, Fault>
    ensures { elim result [ Ok w ↦ (first_line (record_at input.now) ≡ Ok (line_for w.payloads w.laying)) × (w.rest.now ≡ rest_at input.now) | Err e ↦ first_line (record_at input.now) ≡ Err e ] }
{
    let (record, rest) = read_record(input)?;
    // Whatever the first record is, unless it lays a line it is out of place.
    let kind = Kind::try_from(record.kind).map_err(|_| Fault::OutOfPlace)?;
    Ok(Opened {
        payloads: Payloads::try_from(kind)?,
        laying: laying_of(&record),
        rest,
    })
}

/// The numbers that a record lays a line with. No `From`: only the record of a laying has them.
fn laying_of(record: &Record) -> Laying
    ensures { result ≡ laying_of «record».now }
{
    Laying {
        lanes: record.lanes as usize,
        cells: record.cells as usize,
        start: record.start,
    }
}

/// Reads the records of `rest`, which starts at the place `at` of a script, up to their end or the first fault.
/// Where that script has too many bytes, nothing is read.
pub fn read_calls<P: Payload>(heap: Global, rest: &[u8], at: usize) -> Result<Calls<P>, AllocError>
    ensures { IfOk result (λ k. CallsFrom P.Payload.brought at rest.now k.before.items (after_items k.after) k.fault) }
{
    if at.saturating_add(rest.len()) > LONGEST {
        return Ok(Calls {
            before: Vec::new(heap),
            after: None,
            fault: Some(TOO_LONG),
        });
    }
    let open = read_part::<OpenCall<P>>(heap, rest, at)?;
    let before = open.calls;
    let Ok(Some(behind)) = open.end else {
        return Ok(Calls {
            before,
            after: None,
            fault: open.end.err(),
        });
    };
    let draining = read_part::<DrainingCall>(heap, &rest[behind - at..], behind)?;
    Ok(Calls {
        before,
        after: Some(draining.calls),
        fault: draining.end.err(),
    })
}

/// Reads the calls of one part of a script. The part starts at the place `at` with the first byte of `rest`.
fn read_part<C: Call>(heap: Global, rest: &[u8], at: usize) -> Result<Part<C>, AllocError>
    requires { at + length rest.now ≤ 60000 }
    ensures { IfOk result (λ k. CallsUpTo C.Call.item (Stops C.Call.item k.end) k.calls.items at rest.now) }
{
    let mut calls = Vec::new(heap);
    let mut unread = rest;
    while !unread.is_empty() {
        match next_item(unread) {
            Ok((Some(call), behind)) => {
                calls.push(call)?;
                unread = behind;
            }
            Ok((None, behind)) => {
                let end = Ok(Some(at + (rest.len() - behind.len())));
                return Ok(Part { calls, end });
            }
            Err(fault) => {
                let at = at + (rest.len() - unread.len());
                let end = Err(FaultAt { fault, at });
                return Ok(Part { calls, end });
            }
        }
    }
    Ok(Part {
        calls,
        end: Ok(None),
    })
}

/// What the first record of `input` says, and the bytes behind that record.
fn next_item<C: Call>(input: &[u8]) -> Result<(Option<C>, &[u8]), Fault>
    ensures { elim result [ Ok p ↦ ((next_item C.Call.item input.now ≡ Ok p.0) × (p.1.now ≡ rest_at input.now)) | Err e ↦ next_item C.Call.item input.now ≡ Err e ] }
{
    let (record, rest) = read_record(input)?;
    Ok((C::of_record(&record)?, rest))
}

/// States laws of reading, for every payload: bytes have one reading, a reading goes on behind bytes that have
/// no fault, before the drain and after it, and a fault keeps the calls before it.
pub fn reading_laws<P: Payload>()
    ensures alone { OneReading P.Payload.brought }
    ensures joins { ReadsOn P.Payload.brought }
    ensures drains { DrainsOn P.Payload.brought }
    ensures before { KeepsCallsBefore P.Payload.brought }
{}
