//! Why the program ends with an error.
use crate::owner::Stuck;
use std::alloc::AllocError;
use std::io;
use std::mem::ManuallyDrop;
use thiserror::Error;

/// What ends the program before its input does. A receipt that no settling took cannot be let go, so the fault keeps it in a
/// `ManuallyDrop`, which lets nothing go.
#[derive(Drop, Error)]
#[derive_where(Debug)]
pub enum Fault {
    #[error("out of memory")]
    NoMemory(#[from(alloc)] AllocError),
    #[error(transparent)]
    Io(#[from] io::Error),
    #[error(transparent)]
    Unreadable(#[from] Unreadable),
    #[error("a collect could not be settled")]
    Unsettled(#[derive_where(skip)] ManuallyDrop<Stuck>),
}

/// A line of the input is no call.
#[derive(Clone, Copy, Debug, Error)]
#[error("a line of the input is no call")]
pub struct Unreadable;

// By hand: what is stuck is put into a `ManuallyDrop`, which no derive does.
impl From<Stuck> for Fault {
    fn from(stuck: Stuck) -> Fault {
        Fault::Unsettled(unsafe { ManuallyDrop::new_unchecked(stuck) })
    }
}
