//! `linewalk`: runs a script from standard input over a line, and prints one line for each record.
#![tactic(auto)]

use anyhow::anyhow;
use std::alloc::Global;
use std::io::{BufWriter, Read, Write};
use std::{env, io};

mod mode;
#[cfg(test)]
mod tests;

use mode::Mode;
use walking::batch::write_batch;
use walking::explain::write_explained;
use walking::walk::write_lines;

/// More bytes than a script may have: reading stops there.
const ENOUGH: u64 = 60_001;

/// How the program is used.
const USAGE: &str = "linewalk runs a script over a collecting line.

usage: linewalk [MODE] < SCRIPT

The script comes from standard input: records of bytes, as docs/SCRIPT.md says.

  without MODE    print what each record is answered with, one line for each
  --explain       print for each record where it starts, what it asks in words, and its line
  --batch         run many scripts, each behind its length in 4 bytes, little-endian;
                  print the lines of each script and then an empty line
  -h, --help      print this text, and read nothing

example: linewalk < SCRIPT

It ends with status 0, or with 1 and a message if an argument is unknown, input or
output fails, memory runs out or a batch is cut short. Faults of a script are answers.
";

fn main(rt: HostRuntime) -> anyhow::Result<()> {
    run(&rt)
}

/// Does what the argument asks for. What was written before an error is printed first.
fn run(rt: &HostRuntime) -> anyhow::Result<()> {
    let mode = Mode::parse(arguments(rt)?.as_slice())?;
    let mut out = BufWriter::new(rt.alloc(), rt.stdout())?;
    let done = write_mode(rt, mode, &mut out);
    out.flush()?;
    done
}

/// The program's arguments, without its own name.
fn arguments(rt: &HostRuntime) -> anyhow::Result<Vec<String>> {
    match env::args(rt) {
        Ok(args) => Ok(args.skip(1).collect(rt.alloc())?),
        Err(error) if error.kind() == io::ErrorKind::InvalidData => {
            Err(anyhow!("an argument is no UTF-8 text (see linewalk --help)"))
        }
        Err(error) => Err(error.into()),
    }
}

/// Reads what the mode wants to read, and writes what it answers.
fn write_mode<W: Write>(rt: &HostRuntime, mode: Mode, out: &mut W) -> anyhow::Result<()> {
    let heap = rt.alloc();
    match mode {
        Mode::Walk => write_lines(heap, read_script(rt)?.as_slice(), out)?,
        Mode::Explain => write_explained(heap, read_script(rt)?.as_slice(), out)?,
        Mode::Batch => write_batch(heap, read_all(heap, rt.stdin())?.as_slice(), out)?,
        Mode::Help => out.write_all(USAGE.as_bytes())?,
    }
    Ok(())
}

/// The bytes on standard input, or as many of them as show that there are too many.
fn read_script(rt: &HostRuntime) -> io::Result<Vec<u8>> {
    read_all(rt.alloc(), rt.stdin().take(ENOUGH))
}

/// All bytes of an input.
fn read_all<R: Read + Drop>(heap: Global, mut input: R) -> io::Result<Vec<u8>> {
    let mut bytes = Vec::new(heap);
    input.read_to_end(&mut bytes)?;
    Ok(bytes)
}
