//! The laws of a line that many lanes post to and one collector takes from, with no line in them: only the events
//! that a line leaves behind. If each event meets its guard (`specs/Guards.antt`), then the operations stand in one
//! order, as if they had worked one after another on a single list of frames (`specs/Orders.antt`).
//!
//! The functions here do nothing. Each names a theorem on its contract, so that the check asks for its proof; a crate
//! that proves the guards of a line cites the theorem's lemmas from `proofs/`.
#![tactic(auto)]

ghost use Rattle.order.specs.Promises.{GuardedHistoriesHaveASingleFileOrder, GuardedHistoriesBalance};
ghost use Rattle.order.specs.Histories.{SmallHistoriesAreJudgedRightly};

/// Every history whose events met their guards has a single-file order, for payloads of any type and any capacity.
pub fn guarded_histories_have_a_single_file_order<P>()
    ensures { GuardedHistoriesHaveASingleFileOrder P }
{}

/// In such a history, once nothing waits and nothing is under way, the frames posted and the frames delivered are
/// the same, each once.
pub fn guarded_histories_balance<P>()
    ensures { GuardedHistoriesBalance P }
{}

/// The definition of a single-file order says of ten small histories that the order written beside each is one, and of
/// eleven wrong ones that there is none.
pub fn small_histories_are_judged_rightly()
    ensures { SmallHistoriesAreJudgedRightly }
{}
