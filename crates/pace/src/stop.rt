//! Why the program ends with an error.
use line::answer::Refusal;
use line::receipt::{Receipt, Unspent};
use std::alloc::AllocError;
use std::io;
use std::mem::ManuallyDrop;
use thiserror::Error;

/// What ends the program before its cycles do. A receipt that was not settled cannot be let go, so the error keeps it in a
/// `ManuallyDrop`, which lets nothing go.
#[derive(Drop, Error)]
#[derive_where(Debug)]
pub enum Stop {
    /// The arguments are neither `count` nor `time LANES CYCLES`.
    #[error("the arguments are neither count nor time LANES CYCLES")]
    BadArguments,
    #[error("out of memory")]
    NoMemory(#[from] AllocError),
    #[error(transparent)]
    Io(#[from] io::Error),
    #[error("refused {}", .0.number())]
    Refused(#[from] Refusal),
    #[error("a post did not end as posted")]
    NotPosted,
    #[error("a collect delivered nothing")]
    NotDelivered,
    #[error("a collect was not settled")]
    Unsettled(#[derive_where(skip)] ManuallyDrop<Receipt>),
}

// By hand: no derive takes the receipt out and keeps it; what is done with it is each program's own.
impl From<Unspent> for Stop {
    fn from(unspent: Unspent) -> Stop {
        let Unspent {
            refusal: _,
            receipt,
        } = unspent;
        Stop::Unsettled(unsafe { ManuallyDrop::new_unchecked(receipt) })
    }
}
