//! What every list of calls on a line leaves behind. The line's calls (`line`) leave events; events that meet their
//! guards have a single-file order (`order`); here it is proved that the line's events meet them, whatever is called,
//! in whatever order, over whatever words and trays.
//!
//! The functions here do nothing. Each names a theorem on its contract, so that the check asks for its proof; a crate
//! that runs calls cites the theorem for its own list.
#![tactic(auto)]

ghost use Rattle.history.specs.Promise.{CallsMeetTheGuards, EveryListOfCallsKeepsThePromise};
ghost use Rattle.history.specs.Stories.{SmallListsTellTheirStory};

/// Every event that a list of calls leaves meets its guard, for payloads of any type.
pub fn calls_meet_the_guards<P>()
    ensures { CallsMeetTheGuards P }
{}

/// Whatever list of calls follows a laying, and whatever list follows a drain: the operations stand in a single-file
/// order, every post ends by its 13th grant and every collect by its grant 2n + 9, and an accepted report gives the
/// account of what was posted and delivered.
pub fn every_list_of_calls_keeps_the_promise<P>()
    ensures { EveryListOfCallsKeepsThePromise P }
{}

/// Small lists of calls, written out, leave the histories written beside them.
pub fn small_lists_tell_their_story()
    ensures { SmallListsTellTheirStory }
{}
