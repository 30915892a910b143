//! The nine calls, as a C program makes them. Memory is lent for the time of a call; the crew is the caller's to keep.
// Board and trays come apart, and lane and shape as bare numbers, as include/cline.h declares them. Each call takes the crew up and puts
// it away itself: one function over a closure would need the closure's contract beside each call's. `rest` stands in each that takes a board: an invariant
// cannot speak of before and after.
ghost use Rattle.std.specs.Prelude.{◌≡◌, ℕ, List};
ghost use Rattle.boards.specs.Bytes.{rest_of, words_of};
ghost use Rattle.line.specs.Calls.{begins_collect, begins_post, fills, grants_collector, grants_lane, lays, reports, settles};
ghost use Rattle.cline.specs.Calls.{CrewLeaves, Leaves, any_kind, calls, crew_calls, drains, is_draining, is_open, tells};

use crate::answer::{Answer, Tells};
use crate::held::{any_crew, draining_crew, kept, open_crew};
use boards::ByteBoard;
use line::calls::AnyCrew;
use line::crew::Core;
use plain_crew::crew::PlainCrew;
use script::payload::Ticket;

/// Lays a line of `lanes` lanes with `cells` cells each, its first stamp being `start`.
#[unsafe(no_mangle)]
pub extern "C" fn cline_lay(
    crew: &mut PlainCrew,
    board: &mut [u8],
    trays: &[Ticket],
    lanes: usize,
    cells: usize,
    start: u64,
) -> Answer
    ensures step { Leaves (calls is_open (words_of board.old) trays.now crew.old (λ c. lays (words_of board.old) trays.now c lanes cells start)) result (words_of board.new) trays.now crew.new }
    ensures rest { rest_of board.new ≡ rest_of board.old }
{
    match open_crew(crew) {
        Ok(mut open) => {
            let mut board = ByteBoard { bytes: board };
            let result = open.lay(&mut board, trays, lanes, cells, start);
            *crew = PlainCrew::from(open.core);
            Answer::from(result)
        }
        Err(refused) => Answer::from(refused),
    }
}

/// Begins a post of `ticket` on a lane.
#[unsafe(no_mangle)]
pub extern "C" fn cline_begin_post(
    crew: &mut PlainCrew,
    trays: &mut [Ticket],
    lane: usize,
    ticket: &Ticket,
) -> Answer
    ensures { (ws : List ℕ) → Leaves (calls is_open ws trays.old crew.old (λ c. begins_post ws trays.old c lane ticket.now)) result ws trays.new crew.new }
{
    match open_crew(crew) {
        Ok(mut open) => {
            let result = open.begin_post(trays, lane, *ticket);
            *crew = PlainCrew::from(open.core);
            Answer::from(result)
        }
        Err(refused) => Answer::from(refused),
    }
}

/// Grants a lane one access of its post.
#[unsafe(no_mangle)]
pub extern "C" fn cline_grant_lane(
    crew: &mut PlainCrew,
    board: &mut [u8],
    trays: &mut [Ticket],
    lane: usize,
) -> Answer
    ensures step { Leaves (calls any_kind (words_of board.old) trays.old crew.old (λ c. grants_lane (words_of board.old) trays.old c lane)) result (words_of board.new) trays.new crew.new }
    ensures rest { rest_of board.new ≡ rest_of board.old }
{
    match any_crew(crew) {
        Ok(mut held) => {
            let mut board = ByteBoard { bytes: board };
            let result = held.grant_lane(&mut board, trays, lane);
            *crew = PlainCrew::from(Core::from(held));
            Answer::from(result)
        }
        Err(refused) => Answer::from(refused),
    }
}

/// Begins a collect. The crew keeps its receipt: the next collect can be begun once this one is settled.
#[unsafe(no_mangle)]
pub extern "C" fn cline_begin_collect(crew: &mut PlainCrew) -> Answer
    ensures { CrewLeaves (crew_calls any_kind crew.old begins_collect) result crew.new }
{
    match kept(crew) {
        Ok(mut core) => {
            let result = core.open_collect();
            *crew = PlainCrew::from(core);
            Answer::from(result)
        }
        Err(refused) => Answer::from(refused),
    }
}

/// Grants the collector one access of its collect.
#[unsafe(no_mangle)]
pub extern "C" fn cline_grant_collector(
    crew: &mut PlainCrew,
    board: &mut [u8],
    trays: &mut [Ticket],
) -> Answer
    ensures step { Leaves (calls any_kind (words_of board.old) trays.old crew.old (λ c. grants_collector (words_of board.old) trays.old c)) result (words_of board.new) trays.new crew.new }
    ensures rest { rest_of board.new ≡ rest_of board.old }
{
    match any_crew(crew) {
        Ok(mut held) => {
            let mut board = ByteBoard { bytes: board };
            let result = held.grant_collector(&mut board, trays);
            *crew = PlainCrew::from(Core::from(held));
            Answer::from(result)
        }
        Err(refused) => Answer::from(refused),
    }
}

/// Settles an ended collect, and repeats how it ended.
#[unsafe(no_mangle)]
pub extern "C" fn cline_settle(crew: &mut PlainCrew) -> Answer
    ensures { CrewLeaves (crew_calls any_kind crew.old settles) result crew.new }
{
    match kept(crew) {
        Ok(mut core) => {
            let result = core.close_collect();
            *crew = PlainCrew::from(core);
            Answer::from(result)
        }
        Err(refused) => Answer::from(refused),
    }
}

/// Turns an open crew into a draining one.
#[unsafe(no_mangle)]
pub extern "C" fn cline_drain(crew: &mut PlainCrew) -> Answer
    ensures { CrewLeaves (crew_calls is_open crew.old drains) result crew.new }
{
    match open_crew(crew) {
        Ok(open) => {
            let draining = open.drain();
            *crew = PlainCrew::from(draining.core);
            ().answer()
        }
        Err(refused) => Answer::from(refused),
    }
}

/// How many frames lie in a lane.
#[unsafe(no_mangle)]
pub extern "C" fn cline_fill(crew: &PlainCrew, lane: usize) -> Answer
    ensures { result ≡ tells any_kind crew.now (λ c. fills c lane) }
{
    match any_crew(crew) {
        Ok(held) => Answer::from(held.fill(lane)),
        Err(refused) => Answer::from(refused),
    }
}

/// Both totals of a draining crew that has nothing left to do.
#[unsafe(no_mangle)]
pub extern "C" fn cline_report(crew: &PlainCrew) -> Answer
    ensures { result ≡ tells is_draining crew.now reports }
{
    match draining_crew(crew) {
        Ok(draining) => Answer::from(draining.report()),
        Err(refused) => Answer::from(refused),
    }
}
