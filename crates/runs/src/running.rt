//! A line while the calls of a list are performed on it.
ghost use Rattle.std.specs.Prelude.{◌≡◌, ℕ, ◌≤◌, [], map, length, false, is_some, vec_len, vec_capacity};
ghost use Rattle.line.specs.Answers.{collected_told, refusal_number, told, told_by, told_done};
ghost use Rattle.line.specs.Calls.{CrewGives, Gives, begins_collect, settles};
ghost use Rattle.line.specs.Collect.{begun};
ghost use Rattle.runs.specs.Completing.{HasRoom};
ghost use Rattle.runs.specs.Ready.{Ready};
ghost use Rattle.runs.specs.Runs.{Answers, Left, any_performed, any_says, closes, most_collect_grants, repeated, runs_on, said};

use crate::answers::Answer;
use crate::calls::CrewCall;
use crate::grants::{CollectorGrant, Grant, LaneGrant};
use crate::part::PartCall;
use boards::Board;
use line::answer::Refusal;
use line::calls::AnyCrew;
use line::collector::Collected;
use line::receipt::{Receipt, Unspent};

// `same_board`, `same_trays`: it holds the loans that it held; an invariant cannot speak of before and after.
/// A line while calls are performed on it: its crew, the memory that it lies in, and the receipt of the collect that is begun.
pub(crate) struct Running<'b, 't, C: AnyCrew, B: Board, P: Copy> {
    pub(crate) crew: C,
    pub(crate) board: &'b mut B,
    pub(crate) trays: &'t mut [P],
    /// Held exactly while a collect is begun.
    pub(crate) held: Option<Receipt>,
    ghost ready: { Ready held (B.Board.words board.now) trays.now (C.AnyCrew.core crew) },
}

impl<C: AnyCrew, B: Board, P: Copy> Running<'_, '_, C, B, P> {
    /// Makes a grant at most `times` times, up to the first answer other than on, and gives the last answer.
    fn grant<G: Grant<P>>(&mut self, grant: G, times: u16) -> Result<G::Answer, Refusal>
        ensures step { Gives (repeated (G.grants grant) times (B.Board.words self.old.board.now) self.old.trays.now (C.AnyCrew.core self.old.crew)) (G.tells result) (B.Board.words self.new.board.now) self.new.trays.now (C.AnyCrew.core self.new.crew) }
        ensures same_board { self.new.board.ghost_name ≡ self.old.board.ghost_name }
        ensures same_trays { self.new.trays.ghost_name ≡ self.old.trays.ghost_name }
    {
        for _made in 0..times {
            let answer = grant.make(&mut self.crew, &mut *self.board, &mut *self.trays);
            if !G::is_on(&answer) {
                return answer;
            }
        }
        Ok(G::on())
    }

    /// Begins a collect, and keeps its receipt.
    fn begin_collect(&mut self) -> Result<(), Refusal>
        ensures step { CrewGives (begins_collect (C.AnyCrew.core self.old.crew)) (told_done result) (C.AnyCrew.core self.new.crew) }
        ensures board { B.Board.words self.new.board.now ≡ B.Board.words self.old.board.now }
        ensures trays { self.new.trays.now ≡ self.old.trays.now }
        ensures same_board { self.new.board.ghost_name ≡ self.old.board.ghost_name }
        ensures same_trays { self.new.trays.ghost_name ≡ self.old.trays.ghost_name }
    {
        let receipt = self.crew.begin_collect()?;
        match self.held.replace(receipt) {
            None => Ok(()),
            // None is held where a collect can begin: it would be let go here.
            Some(_other) => Ok(()),
        }
    }

    /// Settles by the receipt that is held. Without one it is refused: no collect is begun.
    fn settle(&mut self) -> Result<Collected, Refusal>
        ensures step { CrewGives (settles (C.AnyCrew.core self.old.crew)) (told_by collected_told result) (C.AnyCrew.core self.new.crew) }
        ensures board { B.Board.words self.new.board.now ≡ B.Board.words self.old.board.now }
        ensures trays { self.new.trays.now ≡ self.old.trays.now }
        ensures same_board { self.new.board.ghost_name ≡ self.old.board.ghost_name }
        ensures same_trays { self.new.trays.ghost_name ≡ self.old.trays.ghost_name }
    {
        let Some(receipt) = self.held.take() else {
            return Err(without_receipt(&self.crew));
        };
        match self.crew.settle(receipt) {
            Ok(how) => Ok(how),
            Err(Unspent { refusal, receipt }) => {
                self.held = Some(receipt);
                Err(refusal)
            }
        }
    }

    /// Performs a call that every crew takes.
    pub(crate) fn perform(&mut self, call: CrewCall) -> Answer
        ensures step { Answers (any_performed call (B.Board.words self.old.board.now) self.old.trays.now (C.AnyCrew.core self.old.crew)) (any_says call) (said result) (B.Board.words self.new.board.now) self.new.trays.now (C.AnyCrew.core self.new.crew) }
        ensures same_board { self.new.board.ghost_name ≡ self.old.board.ghost_name }
        ensures same_trays { self.new.trays.ghost_name ≡ self.old.trays.ghost_name }
    {
        match call {
            CrewCall::GrantLane { lane, times } => Answer::GrantLane {
                lane,
                result: self.grant(LaneGrant { lane }, times),
            },
            CrewCall::BeginCollect => Answer::BeginCollect(self.begin_collect()),
            CrewCall::GrantCollector { times } => {
                Answer::GrantCollector(self.grant(CollectorGrant, times))
            }
            CrewCall::Settle => Answer::Settle(self.settle()),
        }
    }

    /// Performs the calls of one part, and adds what they answer.
    pub(crate) fn perform_all<K: PartCall<P, Crew = C>>(
        &mut self,
        calls: &[K],
        answers: &mut Vec<Answer>,
    )
        requires { HasRoom answers.old calls.now }
        ensures left { Left (runs_on K.performed K.says calls.now [] (B.Board.words self.old.board.now) self.old.trays.now (C.AnyCrew.core self.old.crew)) (map said answers.new.items) (B.Board.words self.new.board.now) self.new.trays.now (C.AnyCrew.core self.new.crew) }
        ensures same_board { self.new.board.ghost_name ≡ self.old.board.ghost_name }
        ensures same_trays { self.new.trays.ghost_name ≡ self.old.trays.ghost_name }
    {
        for call in calls {
            answers.push_reserved(call.perform(self));
        }
    }

    /// Grants a collect that is open to its end, and settles it.
    pub(crate) fn close(&mut self)
        ensures board { B.Board.words self.new.board.now ≡ (closes (B.Board.words self.old.board.now) self.old.trays.now (C.AnyCrew.core self.old.crew)).words }
        ensures trays { self.new.trays.now ≡ (closes (B.Board.words self.old.board.now) self.old.trays.now (C.AnyCrew.core self.old.crew)).trays }
        ensures crew { C.AnyCrew.core self.new.crew ≡ (closes (B.Board.words self.old.board.now) self.old.trays.now (C.AnyCrew.core self.old.crew)).crew }
        ensures settled { is_some self.new.held ≡ false }
        ensures same_board { self.new.board.ghost_name ≡ self.old.board.ghost_name }
        ensures same_trays { self.new.trays.ghost_name ≡ self.old.trays.ghost_name }
    {
        if self.held.is_some() {
            let _ = self.grant(CollectorGrant, most_collect_grants());
            let _ = self.settle();
        }
    }

    /// The crew, and the receipt that is held.
    pub(crate) fn into_parts(self) -> (C, Option<Receipt>)
        ensures crew { result.0 ≡ self.entry.crew }
        ensures held { result.1 ≡ self.entry.held }
        ensures board { self.exit.1.0.now ≡ self.entry.board.now }
        ensures trays { self.exit.1.1.0.now ≡ self.entry.trays.now }
    {
        let Running {
            crew,
            board: _board,
            trays: _trays,
            held,
        } = self;
        (crew, held)
    }

    /// The crew, where no receipt is held.
    // Taken apart here too: a value that holds a lent slice cannot be passed on to `into_parts`.
    pub(crate) fn into_crew(self) -> C
        requires { is_some self.held ≡ false }
        ensures crew { result ≡ self.entry.crew }
        ensures board { self.exit.1.0.now ≡ self.entry.board.now }
        ensures trays { self.exit.1.1.0.now ≡ self.entry.trays.now }
    {
        let Running {
            crew,
            board: _board,
            trays: _trays,
            held,
        } = self;
        match held {
            None => crew,
            // It would be let go here.
            Some(_held) => crew,
        }
    }
}

/// Why a settling is refused where no collect is begun.
fn without_receipt<C: AnyCrew>(crew: &C) -> Refusal
    requires { begun (C.AnyCrew.core crew.now).collector.stage ≡ false }
    ensures { CrewGives (settles (C.AnyCrew.core crew.now)) (told (refusal_number result) []) (C.AnyCrew.core crew.now) }
{
    if crew.is_laid() {
        Refusal::NoCollect
    } else {
        Refusal::NeverLaid
    }
}

/// As many grants as a collect over 16 lanes can have.
fn most_collect_grants() -> u16
    ensures { result ≡ most_collect_grants }
{
    41
}
