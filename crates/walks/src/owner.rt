//! The calls of a list, performed one by one over any board.
//!
//! A receipt cannot be let go, so it travels by value: each call takes the crew's owner, who may hold one, and gives the owner
//! back. A receipt that no settling took leaves in a `Stuck`, which nothing here drops either.
use crate::call::{Call, Sizes, Step};
use crate::memory::Memory;
use crate::reply::{Answer, Reply};
use boards::{Board, ByteBoard};
use line::answer::{CollectorAnswer, LaneAnswer};
use line::calls::AnyCrew;
use line::crew::{Crew, DrainingCrew};
use line::receipt::{Receipt, Unspent};

/// As many grants as a collect can have: 2 * 16 + 9.
const MOST_GRANTS: usize = 41;

/// How many words, and how many trays, a spare has at most.
const SPARE: usize = 1152;

/// A receipt that could not be settled, and perhaps another.
pub struct Stuck {
    pub receipt: Receipt,
    pub other: Option<Receipt>,
}

// By hand: the receipt has to be taken out and kept, which no derive does.
impl From<Unspent> for Stuck {
    fn from(unspent: Unspent) -> Stuck {
        let Unspent {
            refusal: _,
            receipt,
        } = unspent;
        Stuck {
            receipt,
            other: None,
        }
    }
}

/// A crew that performs the calls of a list.
pub trait Performs: AnyCrew + Drop {
    /// Makes a call that not every crew has; if this one does not have it, the answer is nothing.
    // Board and trays apart: laying reads the trays of a `Memory` that is lent to be changed, which the check does not cover.
    fn own_call<B: Board>(&mut self, board: &mut B, trays: &mut [u64], call: Call) -> Answer;
}

impl Performs for Crew {
    fn own_call<B: Board>(&mut self, board: &mut B, trays: &mut [u64], call: Call) -> Answer {
        let result = match call {
            Call::Lay {
                lanes,
                cells,
                start,
            } => self.lay(board, trays, lanes, cells, start),
            Call::Post { lane, payload } => self.begin_post(trays, lane, payload),
            _ => return Answer::Nothing,
        };
        result.map_or_else(Answer::Refused, |()| Answer::Accepted)
    }
}

impl Performs for DrainingCrew {
    fn own_call<B: Board>(&mut self, _board: &mut B, _trays: &mut [u64], call: Call) -> Answer {
        match call {
            Call::Report => self.report().map_or_else(Answer::Refused, Answer::Totals),
            _ => Answer::Nothing,
        }
    }
}

/// Who makes the calls: the crew, and the receipt that is held while a collect is begun.
// Beside `Running` of `runs`: of that one it is proved that a receipt is held exactly while a collect is begun; here one that is stuck is handed out.
pub struct Owner<'c, C> {
    crew: &'c mut C,
    held: Option<Receipt>,
}

/// What a call gives: the owner after it, and the reply.
type Performed<'c, C> = Result<(Owner<'c, C>, Reply), Stuck>;

impl<'c, C: Performs> Owner<'c, C> {
    /// Who makes the calls of this crew, holding its receipt, if there is one.
    pub fn of(crew: &'c mut C, held: Option<Receipt>) -> Owner<'c, C> {
        Owner { crew, held }
    }

    /// Performs steps in their order; `replies` has room for all of them.
    pub fn perform_all<B: Board>(
        mut self,
        memory: &mut Memory<'_, B>,
        steps: &[Step],
        replies: &mut Vec<Reply>,
    ) -> Result<Owner<'c, C>, Stuck> {
        for step in steps {
            let (owner, reply) = self.perform(memory, *step)?;
            self = owner;
            let _ = replies.push(reply);
        }
        Ok(self)
    }

    /// Performs a step with the list's memory, or with a spare one of the sizes that the step names.
    fn perform<B: Board>(self, memory: &mut Memory<'_, B>, step: Step) -> Performed<'c, C> {
        match step.spare {
            None => self.call(memory, step.call),
            Some(sizes) => self.call_spared(sizes, step.call),
        }
    }

    /// Makes a call with a spare memory of these sizes, which it has to leave at 0.
    // A method of its own: within `perform` the arrays would be made in every step.
    fn call_spared(self, sizes: Sizes, call: Call) -> Performed<'c, C> {
        // Whole arrays, cut to the sizes: a `Vec` could run out of memory while a receipt is held.
        let mut bytes = [0u8; 8 * SPARE];
        let mut payloads = [0u64; SPARE];
        let mut spare = Memory {
            board: ByteBoard::over(&mut bytes[..8 * sizes.words.min(SPARE)]),
            trays: &mut payloads[..sizes.trays.min(SPARE)],
        };
        let (owner, reply) = self.call(&mut spare, call)?;
        if spare.is_blank() {
            Ok((owner, reply))
        } else {
            Ok((owner, Reply::Once(Answer::Spilled)))
        }
    }

    fn call<B: Board>(mut self, memory: &mut Memory<'_, B>, call: Call) -> Performed<'c, C> {
        let reply = match call {
            Call::Collect => return self.begin_collect(),
            Call::Settle => return self.settle(),
            Call::Grant { lane, times } => grant(times, Answer::Lane(LaneAnswer::On), || {
                self.crew
                    .grant_lane(&mut memory.board, memory.trays, lane)
                    .map_or_else(Answer::Refused, Answer::Lane)
            }),
            Call::GrantCollector { times } => {
                grant(times, Answer::Collector(CollectorAnswer::On), || {
                    self.crew
                        .grant_collector(&mut memory.board, memory.trays)
                        .map_or_else(Answer::Refused, Answer::Collector)
                })
            }
            Call::Fill { lane } => Reply::Once(
                self.crew
                    .fill(lane)
                    .map_or_else(Answer::Refused, |count| Answer::Number(count as u64)),
            ),
            Call::See { tray } => Reply::Once(
                memory
                    .trays
                    .get(tray)
                    .map_or(Answer::Nothing, |payload| Answer::Number(*payload)),
            ),
            Call::Lay { .. } | Call::Post { .. } | Call::Drain | Call::Report => Reply::Once(
                self.crew.own_call(&mut memory.board, memory.trays, call),
            ),
        };
        Ok((self, reply))
    }

    fn begin_collect(self) -> Performed<'c, C> {
        let Owner { crew, held } = self;
        let (held, answer) = match (crew.begin_collect(), held) {
            (Ok(receipt), None) => (Some(receipt), Answer::Accepted),
            (Ok(receipt), Some(first)) => {
                return Err(Stuck {
                    receipt: first,
                    other: Some(receipt),
                });
            }
            (Err(refusal), held) => (held, Answer::Refused(refusal)),
        };
        Ok((Owner { crew, held }, Reply::Once(answer)))
    }

    fn settle(self) -> Performed<'c, C> {
        let Owner { crew, held } = self;
        let Some(receipt) = held else {
            let answer = settle_unheld(crew)?;
            return Ok((Owner { crew, held: None }, Reply::Once(answer)));
        };
        let (held, answer) = match crew.settle(receipt) {
            Ok(how) => (None, Answer::Settled(how)),
            Err(Unspent { refusal, receipt }) => (Some(receipt), Answer::Refused(refusal)),
        };
        Ok((Owner { crew, held }, Reply::Once(answer)))
    }

    /// The receipt that is held, if there is one.
    pub fn into_held(self) -> Option<Receipt> {
        let Owner { crew: _, held } = self;
        held
    }

    /// Grants a collect that is open to its end and settles it.
    pub fn finish<B: Board>(self, memory: &mut Memory<'_, B>) -> Result<(), Stuck> {
        let Owner { crew, held } = self;
        let Some(receipt) = held else {
            return Ok(());
        };
        for _ in 0..MOST_GRANTS {
            let _ = crew.grant_collector(&mut memory.board, memory.trays);
        }
        let _ = crew.settle(receipt)?;
        Ok(())
    }
}

/// Grants up to `times` times, as long as the answer is `on`.
fn grant<F: FnMut() -> Answer>(times: u64, on: Answer, mut grant_once: F) -> Reply
    requires { F.IsAlwaysCallable grant_once }
{
    for made in 1..=times {
        let answer = grant_once();
        if answer != on {
            return Reply::Last { made, answer };
        }
    }
    Reply::Last {
        made: times,
        answer: on,
    }
}

/// Settles without a receipt of the crew: another crew lends one, and gets it back to settle its own collect.
fn settle_unheld<C: Performs>(crew: &mut C) -> Result<Answer, Stuck> {
    let mut bytes = [0u8; 48];
    let mut trays = [0u64; 4];
    let mut board = ByteBoard::over(&mut bytes);
    let mut other = Crew::new();
    let _ = other.lay(&mut board, &trays, 1, 2, 0);
    match other.begin_collect() {
        Err(_) => Ok(Answer::Nothing),
        Ok(receipt) => match crew.settle(receipt) {
            Ok(how) => Ok(Answer::Settled(how)),
            Err(Unspent { refusal, receipt }) => {
                let lender = Owner::of(&mut other, Some(receipt));
                lender.finish(&mut Memory {
                    board,
                    trays: &mut trays,
                })?;
                Ok(Answer::Refused(refusal))
            }
        },
    }
}
