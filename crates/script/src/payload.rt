//! What a post brings: a ticket or a note.
ghost use Rattle.std.specs.Prelude.{◌≡◌, Some, Result};
ghost use Rattle.script.specs.declared.fault.Fault.{Fault};
ghost use Rattle.script.specs.declared.record.Record.{Record};
ghost use Rattle.script.specs.Payloads.{measured, note_of, note_brought, note_text, ticket_brought, ticket_text};

use crate::fault::Fault;
use crate::record::{Kind, Record};
use std::fmt;

/// A frame that lies elsewhere: which one, where it starts and how long it is.
#[repr(C)]
#[derive(Clone, Copy, Default)]
pub struct Ticket {
    /// The frame's number.
    pub frame: u32,
    /// Where the frame starts.
    pub place: u32,
    /// How long the frame is.
    pub length: u32,
}

/// One reading of a tile.
#[derive(Clone, Copy)]
pub enum Note {
    /// The temperature.
    Temperature(f32),
    /// The bias voltage.
    BiasVoltage(f32),
    /// The mean level of a dark frame.
    DarkLevel(f32),
    /// The number of a fault.
    FaultCode(u32),
}

impl fmt::Display for Ticket {
    ghost output = { λ ticket. Some (ticket_text ticket) };

    fn fmt<W: fmt::Write>(&self, f: &mut fmt::Formatter<W>) -> fmt::Result {
        let Ticket {
            frame,
            place,
            length,
        } = *self;
        write!(f, "frame {frame}, place {place}, length {length}")
    }
}

impl fmt::Display for Note {
    ghost output = { note_text };

    fn fmt<W: fmt::Write>(&self, f: &mut fmt::Formatter<W>) -> fmt::Result {
        match *self {
            Note::Temperature(value) => write!(f, "temperature {value}"),
            Note::BiasVoltage(value) => write!(f, "bias voltage {value}"),
            Note::DarkLevel(value) => write!(f, "mean dark level {value}"),
            Note::FaultCode(code) => write!(f, "fault code {code}"),
        }
    }
}

/// What the posts of a script bring. All posts of one script bring the same type.
pub trait Payload: Copy {
    /// What a post's record brings, or why it brings nothing.
    ghost brought: { Record → Result Self Fault };

    /// The payload of a post's record. The post of another type is out of place.
    fn of_record(record: &Record) -> Result<Self, Fault>
        ensures { result ≡ brought «record».now };
}

impl Payload for Ticket {
    ghost brought = { ticket_brought };

    fn of_record(record: &Record) -> Result<Ticket, Fault> {
        match Kind::try_from(record.kind) {
            Ok(Kind::PostTicket) => Ok(Ticket {
                frame: record.frame,
                place: record.place,
                length: record.length,
            }),
            _ => Err(Fault::OutOfPlace),
        }
    }
}

impl Payload for Note {
    ghost brought = { note_brought };

    fn of_record(record: &Record) -> Result<Note, Fault> {
        match Kind::try_from(record.kind) {
            Ok(Kind::PostNote) => note_of(record.tag, record.value),
            _ => Err(Fault::OutOfPlace),
        }
    }
}

/// The reading with this tag whose value has these bits.
fn note_of(tag: u16, bits: u32) -> Result<Note, Fault>
    ensures { result ≡ note_of tag bits }
{
    match tag {
        1 => Ok(Note::Temperature(measured(bits)?)),
        2 => Ok(Note::BiasVoltage(measured(bits)?)),
        3 => Ok(Note::DarkLevel(measured(bits)?)),
        4 => Ok(Note::FaultCode(bits)),
        _ => Err(Fault::FieldNotAllowed),
    }
}

/// The measured value with these bits, if it is a finite number: its exponent bits are not all ones.
#[tactic(auto, using(crate::proofs::Floats::no_nan))]
fn measured(bits: u32) -> Result<f32, Fault>
    ensures { result ≡ measured bits }
{
    if bits / 0x80_0000 % 256 == 255 {
        return Err(Fault::FieldNotAllowed);
    }
    Ok(f32::from_bits(bits))
}
