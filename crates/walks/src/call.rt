//! Lists of calls as they stand on standard input, one call to a line.
use crate::fault::Unreadable;
use std::str::{FromStr, SplitWhitespace};

/// How many words a board has, and how many trays lie beside it.
#[derive(Clone, Copy, Default)]
pub struct Sizes {
    pub words: usize,
    pub trays: usize,
}

/// A call of the line, or a look at a tray.
#[derive(Clone, Copy)]
pub enum Call {
    Lay {
        lanes: usize,
        cells: usize,
        start: u64,
    },
    Post {
        lane: usize,
        payload: u64,
    },
    /// Up to `times` grants, as long as the answer is on.
    Grant {
        lane: usize,
        times: u64,
    },
    Collect,
    /// Up to `times` grants, as long as the answer is on.
    GrantCollector {
        times: u64,
    },
    Settle,
    Drain,
    Fill {
        lane: usize,
    },
    Report,
    /// What lies in a tray.
    See {
        tray: usize,
    },
}

/// A call, and the sizes of another board and other trays if it is made with those.
#[derive(Clone, Copy)]
pub struct Step {
    pub call: Call,
    pub spare: Option<Sizes>,
}

/// A line of the input.
#[derive(Clone, Copy)]
pub enum Line {
    Begin(Sizes),
    Step(Step),
    End,
}

impl FromStr for Line {
    type Err = Unreadable;

    fn from_str(text: &str) -> Result<Line, Unreadable> {
        Line::read(text.split_whitespace()).ok_or(Unreadable)
    }
}

impl Line {
    /// The line that these words spell, if it is one of the known ones.
    fn read(mut words: SplitWhitespace<'_>) -> Option<Line> {
        let line = match words.next()? {
            "line" => Line::Begin(Sizes::read(&mut words)?),
            "end" => Line::End,
            "short" => {
                let spare = Some(Sizes::read(&mut words)?);
                let name = words.next()?;
                let call = Call::read(name, &mut words)?;
                Line::Step(Step { call, spare })
            }
            name => Line::Step(Step {
                call: Call::read(name, &mut words)?,
                spare: None,
            }),
        };
        Some(line)
    }
}

impl Call {
    /// The call of this name, with its numbers.
    fn read(name: &str, words: &mut SplitWhitespace<'_>) -> Option<Call> {
        let call = match name {
            "lay" => Call::Lay {
                lanes: number(words)?,
                cells: number(words)?,
                start: number(words)?,
            },
            "post" => Call::Post {
                lane: number(words)?,
                payload: number(words)?,
            },
            "grant" => Call::Grant {
                lane: number(words)?,
                times: number(words)?,
            },
            "collect" => Call::Collect,
            "gc" => Call::GrantCollector {
                times: number(words)?,
            },
            "settle" => Call::Settle,
            "drain" => Call::Drain,
            "fill" => Call::Fill {
                lane: number(words)?,
            },
            "report" => Call::Report,
            "see" => Call::See {
                tray: number(words)?,
            },
            _ => return None,
        };
        Some(call)
    }
}

impl Sizes {
    fn read(words: &mut SplitWhitespace<'_>) -> Option<Sizes> {
        Some(Sizes {
            words: number(words)?,
            trays: number(words)?,
        })
    }
}

/// The number that the next word spells.
fn number<T: FromStr>(words: &mut SplitWhitespace<'_>) -> Option<T>
where
    T::Err: Drop,
{
    words.next()?.parse::<T>().ok()
}
