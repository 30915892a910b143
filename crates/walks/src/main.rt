//! Performs lists of calls, given on standard input, over both boards, and prints what every call answered.
//!
//! A list begins with `line WORDS TRAYS` and ends with `end`, with one call on each line between. Each list has a new crew, a
//! board that holds a fixed pattern and trays that do, and is performed twice: over a table, and over a board of WORDS words in
//! lent bytes. The replies are printed once, then `same` and digests of the words and the trays; where the two boards differ,
//! both are printed, with `differ` between them.
#![tactic(auto)]

mod call;
mod fault;
mod memory;
mod owner;
mod reply;
mod walk;

use boards::{ByteBoard, TABLE_WORDS, Table};
use call::{Line, Sizes, Step};
use fault::Fault;
use std::alloc::Global;
use std::io::{BufRead, BufReader};
use walk::walk;

/// How many bytes stand behind the last word of the byte board.
const REST: usize = 5;

/// What is printed of a list.
fn both(heap: Global, sizes: Sizes, steps: &[Step]) -> Result<String, Fault> {
    let mut bytes = vec![in heap; 0u8; 8 * sizes.words.min(TABLE_WORDS) + REST]?;
    let board = ByteBoard::over(bytes.as_mut_slice());
    let by_table = walk(heap, Table::new(), sizes, steps)?;
    let by_bytes = walk(heap, board, sizes, steps)?;
    let mut text = String::new(heap);
    if by_table == by_bytes {
        by_table.write(&mut text, "same")?;
    } else {
        by_table.write(&mut text, "differ")?;
        by_bytes.write(&mut text, "differ")?;
    }
    Ok(text)
}

/// Reads lists, and performs each where it ends.
fn run(rt: &HostRuntime) -> Result<(), Fault> {
    let heap = rt.alloc();
    let mut sizes = Sizes::default();
    let mut steps = Vec::new(heap);
    for line in BufReader::new(heap, rt.stdin())?.lines(heap) {
        match line?.as_str().parse::<Line>()? {
            Line::Begin(new) => {
                sizes = new;
                steps.clear();
            }
            Line::Step(step) => steps.push(step)?,
            Line::End => rt.print(both(heap, sizes, steps.as_slice())?)?,
        }
    }
    Ok(())
}

fn main(rt: HostRuntime) -> anyhow::Result<()> {
    Ok(run(&rt)?)
}
