//! The calls that a list can hold.

/// The numbers that a line is laid with.
#[derive(Clone, Copy)]
pub struct Laying {
    /// How many lanes.
    pub lanes: usize,
    /// How many cells each lane has.
    pub cells: usize,
    /// The stamp that the counter starts at.
    pub start: u64,
}

/// A call that every crew takes, open or draining.
#[derive(Clone, Copy)]
pub enum CrewCall {
    /// Grant `lane` one step after another, at most `times`, up to the first answer other than on.
    GrantLane { lane: usize, times: u16 },
    /// Begin a collect; the run keeps its receipt.
    BeginCollect,
    /// Grant the collector one step after another, at most `times`, up to the first answer other than on.
    GrantCollector { times: u16 },
    /// Settle the collect by the receipt that the run keeps, if it keeps one.
    Settle,
}

/// A call before the drain.
///
/// Not a `Result`: neither case is a failure, and each is named after what is called.
#[derive(Clone, Copy)]
pub enum OpenCall<P> {
    /// Begin a post of `payload` on `lane`.
    BeginPost { lane: usize, payload: P },
    Any(CrewCall),
}

/// A call after the drain.
///
/// Not an `Option` of the calls that every crew takes: what is called has a name.
#[derive(Clone, Copy)]
pub enum DrainingCall {
    Any(CrewCall),
    /// Report both totals.
    Report,
}
