//! A whole run: a line is laid, calls are performed, and what is open at the end is closed.
ghost use Rattle.std.specs.Prelude.{◌≡◌, ℕ, ◌≤◌, List, [], map, length, Some, None, false, is_some, vec_items, vec_len, MatchOption, MatchResult};
ghost use Rattle.std.specs.Option.{option_map};
ghost use Rattle.history.specs.Performing.{State};
ghost use Rattle.history.specs.Promise.{EveryListOfCallsKeepsThePromise};
ghost use Rattle.runs.specs.declared.calls.DrainingCall.{DrainingCall as LaterCall};
ghost use Rattle.line.specs.Answers.{told_done};
ghost use Rattle.line.specs.Calls.{lays};
ghost use Rattle.line.specs.Crew.{never_laid};
ghost use Rattle.line.specs.Either.{core_kept};
ghost use Rattle.runs.specs.AtHand.{ReachTheSame, TheseCallsKeepThePromise};
ghost use Rattle.runs.specs.Completing.{Completes, HasRoom, later_calls, said_after};
ghost use Rattle.runs.specs.Ready.{Ready};
ghost use Rattle.runs.specs.Runs.{Left, open_run, runs, said};

use crate::answers::Answer;
use crate::calls::{DrainingCall, Laying, OpenCall};
use crate::left::Run;
use crate::running::Running;
use boards::Board;
use line::answer::Refusal;
use line::crew::Crew;
use line::either::EitherCrew;
use line::receipt::Receipt;
use std::alloc::{AllocError, Global};

/// Lays a line over board and trays by a new crew, performs the calls before the drain one after another, whatever they
/// answer, and, if there is a drain, the calls after it. A collect that is open at the end is granted to its end and settled.
///
/// Room for the answers is made first: where there is none, nothing is touched.
///
/// `promise`: after every accepted laying and every list of calls, the operations stand in a single-file order, end within their
/// bounds, and a report gives the account. `kept`: so they do in the history of these calls, taken one by one. `same`: taken one by one, calls reach
/// what they reach here.
pub fn run_calls<B: Board, P: Copy>(
    heap: Global,
    board: &mut B,
    trays: &mut [P],
    laying: Laying,
    before: &[OpenCall<P>],
    after: Option<&[DrainingCall]>,
) -> Result<Run, AllocError>
    ensures run { MatchResult result (λ done. Completes (runs (B.Board.words board.old) trays.old laying before.now (option_map (λ calls. calls.now) after.entry)) (told_done done.laid) (map said done.before.items) (said_after done.after) (B.Board.words board.new) trays.new (core_kept done.crew)) (λ _. (B.Board.words board.new ≡ B.Board.words board.old) × (trays.new ≡ trays.old)) }
    ensures promise { EveryListOfCallsKeepsThePromise P }
    ensures kept { TheseCallsKeepThePromise (B.Board.words board.old) trays.old laying before.now (option_map (λ calls. calls.now) after.entry) }
    ensures same { (s : State P) (later : List LaterCall) → ReachTheSame s before.now later }
{
    run_list(heap, board, trays, laying, before, after)
}

/// The run, without what every run keeps: that is proved apart. It takes what its caller takes.
fn run_list<B: Board, P: Copy>(
    heap: Global,
    board: &mut B,
    trays: &mut [P],
    laying: Laying,
    before: &[OpenCall<P>],
    after: Option<&[DrainingCall]>,
) -> Result<Run, AllocError>
    ensures { MatchResult result (λ done. Completes (runs (B.Board.words board.old) trays.old laying before.now (option_map (λ calls. calls.now) after.entry)) (told_done done.laid) (map said done.before.items) (said_after done.after) (B.Board.words board.new) trays.new (core_kept done.crew)) (λ _. (B.Board.words board.new ≡ B.Board.words board.old) × (trays.new ≡ trays.old)) }
{
    let mut told = Vec::with_capacity(heap, before.len())?;
    let mut told_later = Vec::with_capacity(heap, count_of(after))?;
    let (laid, crew) = perform_list(
        board,
        trays,
        laying,
        before,
        after,
        &mut told,
        &mut told_later,
    );
    Ok(Run {
        laid,
        before: told,
        after: after.map(|_| told_later),
        crew,
    })
}

/// How many calls follow the drain; 0 without one.
fn count_of(after: Option<&[DrainingCall]>) -> usize
    ensures { result ≡ length (later_calls (option_map (λ calls. calls.now) after.entry)) }
{
    after.map_or(0, |later| later.len())
}

/// The run, with room for all answers: what the laying answers, and the crew that is left. It takes what its caller takes.
fn perform_list<B: Board, P: Copy>(
    board: &mut B,
    trays: &mut [P],
    laying: Laying,
    before: &[OpenCall<P>],
    after: Option<&[DrainingCall]>,
    told: &mut Vec<Answer>,
    told_later: &mut Vec<Answer>,
) -> (Result<(), Refusal>, EitherCrew)
    requires { HasRoom told.old before.now × HasRoom told_later.old (later_calls (option_map (λ calls. calls.now) after)) }
    ensures { Completes (runs (B.Board.words board.old) trays.old laying before.now (option_map (λ calls. calls.now) after.entry)) (told_done result.0) (map said told.new.items) (option_map (λ _. map said told_later.new.items) after.entry) (B.Board.words board.new) trays.new (core_kept result.1) }
{
    let mut crew = Crew::new();
    let laid = crew.lay(board, trays, laying.lanes, laying.cells, laying.start);
    let mut running = Running {
        crew,
        board,
        trays,
        held: None,
    };
    running.perform_all(before, told);
    match after {
        None => {
            running.close();
            (laid, EitherCrew::Open(running.into_crew()))
        }
        Some(later) => {
            let (crew, held) = running.into_parts();
            let mut draining = Running {
                crew: crew.drain(),
                board,
                trays,
                held,
            };
            draining.perform_all(later, told_later);
            draining.close();
            (laid, EitherCrew::Draining(draining.into_crew()))
        }
    }
}
