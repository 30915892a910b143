//! A camera of two tiles that sends its frames over a line kept in its own memory.
//!
//! What it prints follows from the rules of the line alone. The first line is laid with the stamps from 100 on.
//! Lane 1 gets two grants before lane 0, so it takes stamp 100 although it ends later; lane 0 takes 101. No collect runs
//! meanwhile, so each post ends with its ninth grant, the first swap.
//! The first collect finds 101 and 100 in the slots (2 grants), looks at slot 0 once more (1), fetches, frees, looks, loads a tail
//! that equals the head, and swaps (5): 8 grants, lane 1. Then lane 1 posts again, under 102, and the crew is drained after three
//! grants of that post; it goes on and ends with its ninth. The next collect keeps lane 0, so it has no second scan: 7 grants. The
//! one after it keeps lane 1 again: 8 grants. The last sees two empty slots: 2 grants.
//! The second line has one lane of two cells: one post fits, with 9 grants, a second finds the lane full with its first grant, and
//! a collect takes 1 grant to scan and 5 to deliver.
#![tactic(auto)]

mod ram;

use line::answer::{CollectorAnswer, LaneAnswer, Refusal};
use line::calls::AnyCrew;
use line::collector::Collected;
use line::crew::{Crew, DrainingCrew};
use line::receipt::{Receipt, Unspent};
use ram::CameraRam;
use std::mem::ManuallyDrop;
use std::{fmt, io};
use thiserror::Error;

/// A row of pixels as a tile read it out.
#[derive(Clone, Copy, Default)]
struct Frame {
    exposure: u16,
    row: u16,
    level: i32,
}

impl fmt::Display for Frame {
    fn fmt<W: fmt::Write>(&self, f: &mut fmt::Formatter<W>) -> fmt::Result {
        let Frame {
            exposure,
            row,
            level,
        } = *self;
        write!(f, "exposure {exposure}, row {row}, level {level}")
    }
}

/// Trays for two lanes of three cells: two hands, the collector's hand and six cells.
const TRAYS: usize = 9;

/// As many grants as a collect over two lanes can have.
const MOST_GRANTS: usize = 13;

/// Why the camera stops. A receipt that was not settled cannot be let go, so the error keeps it in a `ManuallyDrop`, which lets
/// nothing go.
#[derive(Drop, Error)]
#[derive_where(Debug)]
enum Stop {
    #[error("refused {}", .0.number())]
    Refused(#[from] Refusal),
    #[error(transparent)]
    Io(#[from] io::Error),
    #[error("a collect was not settled")]
    Unsettled(#[derive_where(skip)] ManuallyDrop<Receipt>),
}

// By hand: no derive takes the receipt out and keeps it; what is done with it is each program's own.
impl From<Unspent> for Stop {
    fn from(unspent: Unspent) -> Stop {
        let Unspent {
            refusal: _,
            receipt,
        } = unspent;
        Stop::Unsettled(unsafe { ManuallyDrop::new_unchecked(receipt) })
    }
}

/// How a lane answered, in words.
#[derive(Clone, Copy)]
struct Told(LaneAnswer);

impl fmt::Display for Told {
    fn fmt<W: fmt::Write>(&self, f: &mut fmt::Formatter<W>) -> fmt::Result {
        match self.0 {
            LaneAnswer::On => write!(f, "goes on"),
            LaneAnswer::Posted { stamp, grants } => {
                write!(f, "posted under stamp {stamp}, {grants} grants")
            }
            LaneAnswer::Full { grants } => write!(f, "full, {grants} grant"),
            LaneAnswer::UsedUp { grants } => write!(f, "no stamp left, {grants} grants"),
        }
    }
}

/// A line at work: its crew, the memory that its board lies in, and the trays beside the board.
#[derive(Drop)]
struct Camera<'a, C> {
    rt: &'a HostRuntime,
    crew: C,
    ram: &'a mut CameraRam,
    trays: [Frame; TRAYS],
    /// The collector's hand: the tray behind those of the lanes.
    hand: usize,
}

impl<C: AnyCrew> Camera<'_, C> {
    /// A few grants for a lane.
    fn grant_some(&mut self, lane: usize, times: usize) -> Result<(), Stop> {
        for _ in 0..times {
            let _ = self.crew.grant_lane(self.ram, &mut self.trays, lane)?;
        }
        Ok(())
    }

    /// Grants a lane until its post ends, and says how it ended.
    // Every maker's own, as it says what it wants to say.
    fn post_to_end(&mut self, lane: usize) -> Result<(), Stop> {
        for _ in 0..MOST_GRANTS {
            let answer = self.crew.grant_lane(self.ram, &mut self.trays, lane)?;
            if answer != LaneAnswer::On {
                let told = Told(answer);
                println!(self.rt; "lane {lane}: {told}")?;
                break;
            }
        }
        Ok(())
    }

    /// Begins a collect, grants it to its end and settles it.
    // Every maker's own: a shared one would be a call of the line that keeps an unspent receipt.
    fn collect(&mut self) -> Result<Collected, Stop> {
        let receipt = self.crew.begin_collect()?;
        for _ in 0..MOST_GRANTS {
            let answer = self.crew.grant_collector(self.ram, &mut self.trays);
            if let Ok(CollectorAnswer::Ended(_)) = answer {
                break;
            }
        }
        Ok(self.crew.settle(receipt)?)
    }

    /// Collects a frame and prints it.
    fn show_next(&mut self) -> Result<(), Stop> {
        match self.collect()? {
            Collected::Empty { grants } => println!(self.rt; "nothing left, {grants} grants")?,
            Collected::Delivered {
                lane,
                stamp,
                grants,
            } => {
                let frame = self.trays.get(self.hand).copied().unwrap_or_default();
                println!(self.rt;
                    "collected from lane {lane}, stamp {stamp}, {grants} grants: {frame}"
                )?;
            }
        }
        Ok(())
    }
}

impl<'a> Camera<'a, Crew> {
    /// New trays and a new crew, with no line laid yet.
    fn new(rt: &'a HostRuntime, ram: &'a mut CameraRam) -> Self {
        Camera {
            rt,
            crew: Crew::new(),
            ram,
            trays: [Frame::default(); TRAYS],
            hand: 0,
        }
    }

    /// Lays a line over the memory.
    fn lay(&mut self, lanes: usize, cells: usize, start: u64) -> Result<(), Stop> {
        self.crew.lay(self.ram, &self.trays, lanes, cells, start)?;
        self.hand = lanes;
        Ok(())
    }

    /// Begins a post of a row of an exposure.
    fn begin_post(&mut self, lane: usize, exposure: u16, row: u16, level: i32) -> Result<(), Stop> {
        let frame = Frame {
            exposure,
            row,
            level,
        };
        Ok(self.crew.begin_post(&mut self.trays, lane, frame)?)
    }

    /// No post can be begun any more.
    fn drain(self) -> Camera<'a, DrainingCrew> {
        Camera {
            rt: self.rt,
            crew: self.crew.drain(),
            ram: self.ram,
            trays: self.trays,
            hand: self.hand,
        }
    }
}

// The camera's runtime and memory come one by one: they outlive each line that is laid.

/// Two tiles post at the same time; the crew is drained while a third post is under way, which goes on, and what was posted is
/// collected.
fn two_tiles(rt: &HostRuntime, ram: &mut CameraRam) -> Result<(), Stop> {
    let mut camera = Camera::new(rt, ram);
    camera.lay(2, 3, 100)?;
    println!(rt; "laid 2 lanes of 3 cells")?;
    camera.begin_post(0, 1, 10, -5)?;
    camera.begin_post(1, 1, 11, 7)?;
    camera.grant_some(1, 2)?;
    camera.post_to_end(0)?;
    camera.post_to_end(1)?;
    camera.show_next()?;
    camera.begin_post(1, 2, 11, 9)?;
    camera.grant_some(1, 3)?;

    let mut camera = camera.drain();
    let waiting = camera.crew.fill(0)?;
    println!(rt; "draining, {waiting} frame waits in lane 0")?;
    camera.post_to_end(1)?;
    camera.show_next()?;
    camera.show_next()?;
    camera.show_next()
}

/// A new line with a new crew over the same memory.
fn one_tile(rt: &HostRuntime, ram: &mut CameraRam) -> Result<(), Stop> {
    let mut camera = Camera::new(rt, ram);
    camera.lay(1, 2, 0)?;
    println!(rt; "laid 1 lane of 2 cells")?;
    camera.begin_post(0, 3, 0, 40)?;
    camera.post_to_end(0)?;
    camera.begin_post(0, 3, 1, 41)?;
    camera.post_to_end(0)?;
    camera.show_next()
}

fn main(rt: HostRuntime) -> anyhow::Result<()> {
    let mut ram = CameraRam::new(12);
    two_tiles(&rt, &mut ram)?;
    one_tile(&rt, &mut ram)?;
    let gain = ram.gain();
    println!(rt; "the gain is still {gain}")?;
    Ok(())
}
