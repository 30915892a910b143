//! A whole list over one board: the replies to its calls, and digests of what it leaves.
use crate::call::{Call, Sizes, Step};
use crate::fault::Fault;
use crate::memory::Memory;
use crate::owner::{Owner, Stuck};
use crate::reply::{Answer, Reply};
use boards::Board;
use line::crew::Crew;
use std::alloc::{AllocError, Global};

/// What tray 0 holds before the first call; the next hold one more each.
const FIRST_TRAY: u64 = 7_000_000;

/// What a list gave: the reply to each call, and digests of the words and trays that it left.
#[derive(PartialEq, Drop)]
pub struct Trace {
    replies: Vec<Reply>,
    words: u64,
    trays: u64,
}

impl Trace {
    /// Appends the replies, each on a line of its own, and behind them the verdict with the digests.
    pub fn write(&self, text: &mut String, verdict: &str) -> Result<(), AllocError> {
        for reply in &self.replies {
            writeln!(text, "{reply}")?;
        }
        let words = self.words;
        let trays = self.trays;
        writeln!(text, "{verdict} {words} {trays}")
    }
}

/// Performs a list over a board with a new crew.
pub fn walk<B: Board + Drop>(
    heap: Global,
    board: B,
    sizes: Sizes,
    steps: &[Step],
) -> Result<Trace, Fault> {
    let mut trays = Vec::with_capacity(heap, sizes.trays)?;
    trays.extend((0..sizes.trays).map(|tray| FIRST_TRAY.wrapping_add(tray as u64)))?;
    let mut replies = Vec::with_capacity(heap, steps.len())?;
    let mut memory = Memory {
        board,
        trays: trays.as_mut_slice(),
    };
    memory.store_first_words(sizes.words);
    perform_list(&mut memory, steps, &mut replies)?;
    Ok(Trace {
        words: memory.words_digest(sizes.words),
        trays: memory.trays_digest(),
        replies,
    })
}

/// The calls up to the first drain go to an open crew, those after it to the draining one.
fn perform_list<B: Board>(
    memory: &mut Memory<'_, B>,
    steps: &[Step],
    replies: &mut Vec<Reply>,
) -> Result<(), Stuck> {
    let drain = steps
        .iter()
        .position(|step| matches!(step.call, Call::Drain))
        .unwrap_or(steps.len());
    let (before, rest) = steps.split_at(drain);
    let mut crew = Crew::new();
    let owner = Owner::of(&mut crew, None).perform_all(memory, before, replies)?;
    let [_, after @ ..] = rest else {
        return owner.finish(memory);
    };
    let _ = replies.push(Reply::Once(Answer::Accepted));
    let held = owner.into_held();
    let mut crew = crew.drain();
    Owner::of(&mut crew, held)
        .perform_all(memory, after, replies)?
        .finish(memory)
}
