//! A script run over a line, as the lines that it prints.
use crate::lines::Line;
use boards::Table;
use runs::left::Run;
use runs::whole::run_calls;
use script::payload::{Note, Payload, Ticket};
use script::script::{Calls, Opened, Payloads, open_script, read_calls};
use std::alloc::{AllocError, Global};
use std::io;
use std::io::Write;

/// Where the records after the laying start.
const AFTER_LAYING: usize = 16;

/// As many trays as the largest line takes up.
const TRAYS: usize = 1041;

// Heap, script and output come one by one, here and in the other writers: nothing is true of them together.

/// Runs a script, and writes its lines.
pub fn write_lines<W: Write>(heap: Global, script: &[u8], out: &mut W) -> io::Result<()> {
    for line in &walk_script(heap, script)? {
        writeln!(out, "{line}")?;
    }
    Ok(())
}

/// The lines of a script: one for each record that was performed, and one for the fault that ended it.
pub fn walk_script(heap: Global, script: &[u8]) -> Result<Vec<Line>, AllocError> {
    match open_script(script) {
        Ok(None) => Ok(Vec::new(heap)),
        Ok(Some(opened)) => match opened.payloads {
            Payloads::Tickets => walk_line(heap, opened, Ticket::default()),
            Payloads::Notes => walk_line(heap, opened, Note::FaultCode(0)),
        },
        Err(fault) => Ok(vec![in heap; Line::Fault(fault)]?),
    }
}

/// Lays a line and runs the records after its laying over a table, with `blank` in every tray at first.
fn walk_line<P: Payload>(
    heap: Global,
    opened: Opened<'_>,
    blank: P,
) -> Result<Vec<Line>, AllocError> {
    let calls: Calls<P> = read_calls(heap, opened.rest, AFTER_LAYING)?;
    let mut trays = vec![in heap; blank; TRAYS]?;
    let mut table = Table::new();
    let run = run_calls(
        heap,
        &mut table,
        trays.as_mut_slice(),
        opened.laying,
        calls.before.as_slice(),
        calls.after.as_deref(),
    )?;
    let mut lines = lines_of(heap, &run)?;
    if let Some(fault) = calls.fault {
        lines.push(Line::Fault(fault))?;
    }
    Ok(lines)
}

/// One line for each record that was performed.
fn lines_of(heap: Global, run: &Run) -> Result<Vec<Line>, AllocError> {
    let later = run.after.as_deref();
    let records = run
        .before
        .len()
        .saturating_add(later.map_or(0, |later| later.len()));
    // Room for all at once, with the lines of the laying, the drain and a fault: a full `Vec` that gets one more line doubles.
    let mut lines = Vec::with_capacity(heap, records.saturating_add(3))?;
    lines.push(Line::Laid(run.laid))?;
    lines.extend(run.before.iter().map(|answer| Line::Answered(*answer)))?;
    if let Some(later) = later {
        lines.push(Line::Draining)?;
        lines.extend(later.iter().map(|answer| Line::Answered(*answer)))?;
    }
    Ok(lines)
}
