//! How fast a line runs: cycles of posts and collects over bytes, counted, and timed when that is asked for.
//!
//! `pace count` makes 100 cycles over 1, 4 and 16 lanes of eight cells. `pace time LANES CYCLES` makes so many and says how
//! long they took.
#![tactic(auto)]

mod cycle;
mod stop;
mod tally;

use boards::ByteBoard;
use cycle::Track;
use line::answer::Totals;
use line::calls::AnyCrew;
use line::crew::Crew;
use std::env;
use std::str::FromStr;
use std::time::{Duration, Instant};
use stop::Stop;
use tally::{Tally, Ticket};

/// How many cells each lane has.
const CELLS: usize = 8;

/// How many cycles are made when only the counts are asked for.
const COUNT_CYCLES: u32 = 100;

/// Lays a line of so many lanes over bytes, makes so many cycles, and prints what they came to. Answers how long they took.
fn pace(rt: &HostRuntime, lanes: u8, cycles: u32) -> Result<Duration, Stop> {
    let heap = rt.alloc();
    let n = usize::from(lanes);
    // So many words and trays as docs/RULES.md says: the counts inside `line` are not for others.
    let mut bytes = vec![in heap; 0u8; 8 * (1 + 3 * n + n * CELLS)]?;
    let mut track = Track {
        lanes,
        crew: Crew::new(),
        board: ByteBoard::over(bytes.as_mut_slice()),
        trays: vec![in heap; Ticket::default(); n + 1 + n * CELLS]?,
        tally: Tally::default(),
    };
    track.lay(CELLS)?;
    let start = Instant::now(rt)?;
    track.run(cycles)?;
    let time = start.elapsed(rt)?;
    track.fold_board();
    let waiting = track.crew.fill(0)?;
    let Tally { grants, check } = track.tally;
    let Totals { posted, delivered } = track.crew.drain().report()?;
    println!(rt;
        "lanes {lanes}, cycles {cycles}: grants {grants}, posted {posted}, delivered {delivered}, waiting {waiting}, check {check}"
    )?;
    Ok(time)
}

/// What the arguments ask for. No `Option`: what is asked for has a name.
#[derive(Clone, Copy)]
enum Asked {
    Count,
    Time { lanes: u8, cycles: u32 },
}

impl Asked {
    fn read(rt: &HostRuntime) -> Result<Asked, Stop> {
        let mut args = env::args(rt)?.skip(1);
        match args.next().ok_or(Stop::BadArguments)?.as_str() {
            "count" => Ok(Asked::Count),
            "time" => Ok(Asked::Time {
                lanes: number(args.next())?,
                cycles: number(args.next())?,
            }),
            _ => Err(Stop::BadArguments),
        }
    }
}

/// The number that an argument spells.
fn number<T: FromStr>(word: Option<String>) -> Result<T, Stop>
where
    T::Err: Drop,
{
    let word = word.ok_or(Stop::BadArguments)?;
    word.as_str().parse::<T>().map_err(|_| Stop::BadArguments)
}

fn main(rt: HostRuntime) -> anyhow::Result<()> {
    match Asked::read(&rt)? {
        Asked::Count => {
            for lanes in [1, 4, 16] {
                pace(&rt, lanes, COUNT_CYCLES)?;
            }
        }
        Asked::Time { lanes, cycles } => {
            let time = pace(&rt, lanes, cycles)?.as_nanos();
            println!(rt; "nanoseconds {time}")?;
        }
    }
    Ok(())
}
