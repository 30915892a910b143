//! The two parts of a list: the calls before the drain, and those after it.
ghost use Rattle.std.specs.Prelude.{◌≡◌, ℕ, List};
ghost use Rattle.line.specs.Answers.{Told};
ghost use Rattle.line.specs.Calls.{Outcome};
ghost use Rattle.line.specs.declared.crew.Core.{Core};
ghost use Rattle.runs.specs.Runs.{Answers, Said, draining_performed, draining_says, open_performed, open_says, said};

use crate::answers::Answer;
use crate::calls::{DrainingCall, OpenCall};
use crate::running::Running;
use boards::Board;
use line::calls::AnyCrew;
use line::crew::{Crew, DrainingCrew};

/// A call of one part of a list.
pub(crate) trait PartCall<P: Copy>: Copy {
    /// The crew of that part.
    type Crew: AnyCrew;

    /// What the call does.
    ghost performed: { Self → List ℕ → List P → Core → Outcome P };

    /// What its answer says, by number and values.
    ghost says: { Self → Told → Said };

    /// Performs the call.
    fn perform<B: Board>(self, running: &mut Running<'_, '_, Self::Crew, B, P>) -> Answer
        ensures step { Answers (performed self (B.Board.words running.old.board.now) running.old.trays.now (Self.Crew.AnyCrew.core running.old.crew)) (says self) (said result) (B.Board.words running.new.board.now) running.new.trays.now (Self.Crew.AnyCrew.core running.new.crew) }
        ensures same_board { running.new.board.ghost_name ≡ running.old.board.ghost_name }
        ensures same_trays { running.new.trays.ghost_name ≡ running.old.trays.ghost_name };
}

impl<P: Copy> PartCall<P> for OpenCall<P> {
    type Crew = Crew;

    ghost performed = { open_performed };

    ghost says = { open_says };

    fn perform<B: Board>(self, running: &mut Running<'_, '_, Crew, B, P>) -> Answer {
        match self {
            OpenCall::BeginPost { lane, payload } => {
                Answer::BeginPost(running.crew.begin_post(&mut *running.trays, lane, payload))
            }
            OpenCall::Any(call) => running.perform(call),
        }
    }
}

impl<P: Copy> PartCall<P> for DrainingCall {
    type Crew = DrainingCrew;

    ghost performed = { draining_performed };

    ghost says = { draining_says };

    fn perform<B: Board>(self, running: &mut Running<'_, '_, DrainingCrew, B, P>) -> Answer {
        match self {
            DrainingCall::Any(call) => running.perform(call),
            DrainingCall::Report => Answer::Report(running.crew.report()),
        }
    }
}
