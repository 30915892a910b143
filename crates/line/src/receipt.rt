//! The receipt of a collect that was begun.
ghost use Rattle.line.specs.Receipts.{IsSettled};

use crate::answer::Refusal;

/// A begun collect, as its owner holds it: it cannot be let go, and only settling spends it.
pub struct Receipt {
    /// Whether the collect is settled. No receipt ever says so: it is made as its collect begins, and settling spends it.
    // A flag with nothing beside it: what a drop requires has to be said of the receipt itself.
    settled: bool,
}

/// A receipt may be let go only if it says that its collect is settled, so nobody can.
impl Drop for Receipt {
    fn drop(self)
        requires { IsSettled self }
    {
        let Receipt { settled: _ } = self;
    }
}

impl Receipt {
    /// The receipt of a collect that has just begun.
    pub(crate) fn new() -> Receipt
        ensures { ¬ (IsSettled result) }
    {
        Receipt { settled: false }
    }

    /// Spends the receipt.
    pub(crate) fn spend(self) {
        let Receipt { settled: _ } = self;
    }
}

/// A settling that was refused: why, and the receipt, which is not spent.
pub struct Unspent {
    pub refusal: Refusal,
    pub receipt: Receipt,
}
