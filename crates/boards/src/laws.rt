//! The rules that every board keeps, each proved once for all boards. Nothing runs here: a rule is the contract of a function that does nothing.

ghost use Rattle.boards.specs.Laws.{
  NoCallTouchesAnotherWord,
  EveryCallDoesItsWork,
  NothingChangesBeyond,
  WordsAreLittleEndian,
};

/// A store, a swap or a take keeps the length and every word but the one that it names.
#[tactic(auto, using(crate::proofs::Effects::touches))]
pub fn no_call_touches_another_word()
    ensures { NoCallTouchesAnotherWord }
{}

/// What each call answers and leaves at a word within the length.
#[tactic(auto, using(crate::proofs::Effects::within))]
pub fn every_call_does_its_work()
    ensures { EveryCallDoesItsWork }
{}

/// Beyond the length each call has a fixed answer, and nothing changes.
#[tactic(auto, using(crate::proofs::Effects::beyond))]
pub fn nothing_changes_beyond()
    ensures { NothingChangesBeyond }
{}

/// Bytes mean as many words as there are whole groups of eight, each little-endian.
pub fn words_are_little_endian()
    ensures { WordsAreLittleEndian }
{}
