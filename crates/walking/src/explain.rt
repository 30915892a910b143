//! A script in words: what each record asks, beside the line that answers it.
ghost use Rattle.std.specs.Prelude.{◌≡◌, ◌+◌, drop, Ok, Err};
ghost use Rattle.script.specs.Records.{record_at, two};

use crate::lines::Line;
use crate::walk::walk_script;
use crate::words::{Asked, cause};
use script::fault::Fault;
use script::record::{Record, read_record};
use std::alloc::Global;
use std::io::Write;
use std::{fmt, io};

/// One record of a script: where it starts, what it asks, and the line that answers it.
#[derive(Clone, Copy)]
struct Step {
    at: usize,
    asked: Asked,
    line: Line,
}

impl fmt::Display for Step {
    fn fmt<W: fmt::Write>(&self, f: &mut fmt::Formatter<W>) -> fmt::Result {
        let Step { at, asked, line } = *self;
        write!(f, "{at:>5}  {asked} -> {line}")?;
        match cause(line) {
            Some(cause) => write!(f, " ({cause})"),
            None => Ok(()),
        }
    }
}

/// Runs a script, and writes for each record where it starts, what it asks in words, and its line.
pub fn write_explained<W: Write>(heap: Global, script: &[u8], out: &mut W) -> io::Result<()> {
    let mut at = 0;
    for line in walk_script(heap, script)? {
        let (asked, behind) = asked_at(script, at, line);
        let step = Step { at, asked, line };
        writeln!(out, "{step}")?;
        at = behind;
    }
    Ok(())
}

/// What is asked at the place `at` of a script and answered by this line, and the place behind it.
fn asked_at(script: &[u8], at: usize, line: Line) -> (Asked, usize) {
    match (line, record_from(script, at)) {
        (Line::Fault(fault), _) => (Asked(Err(fault.fault)), at),
        (_, Ok((record, behind))) => (Asked(Ok(record)), behind),
        (_, Err(fault)) => (Asked(Err(fault)), at),
    }
}

/// The record that starts at the place `at` of a script, and the place behind it.
fn record_from(script: &[u8], at: usize) -> Result<(Record, usize), Fault>
    ensures { elim result [ Ok p ↦ ((record_at (drop at script.now) ≡ Ok p.0) × (p.1 ≡ at + two (drop at script.now) 0)) | Err e ↦ record_at (drop at script.now) ≡ Err e ] }
{
    let unread = script.get(at..).ok_or(Fault::CutShort)?;
    let (record, rest) = read_record(unread)?;
    Ok((record, script.len() - rest.len()))
}
