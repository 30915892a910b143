//! What can be wrong with a script, and where.
ghost use Rattle.std.specs.Prelude.{◌≡◌, Some};
ghost use Rattle.script.specs.Faults.{fault_line, fault_number, fault_text};

use std::error::Error;
use std::fmt;

/// Why a script ends before its last byte, with the number under which it is reported. Where several fit a record, the
/// first in this order is meant.
#[derive(Clone, Copy, Debug, PartialEq, Eq)]
pub enum Fault {
    /// The record is cut short, or its length is not the one of its kind.
    CutShort = 14,
    /// No record has this kind.
    UnknownKind = 15,
    /// The kind cannot stand here: a script begins with a laying, has no second one, posts one kind of payload,
    /// and has no post and no second drain after its drain.
    OutOfPlace = 16,
    /// A number of the record has no meaning.
    FieldNotAllowed = 17,
    /// The script has more bytes than any script may have.
    TooLong = 18,
}

impl Fault {
    /// The number under which the fault is reported.
    pub fn number(self) -> u8
        ensures { result ≡ fault_number self }
    {
        self as u8
    }
}

/// What stands in the script, in words. By hand, as for `FaultAt`: a derived `Display` promises no text.
impl fmt::Display for Fault {
    ghost output = { λ fault. Some (fault_text fault) };

    fn fmt<W: fmt::Write>(&self, f: &mut fmt::Formatter<W>) -> fmt::Result {
        f.write_str(match self {
            Fault::CutShort => "a record cut short or of wrong length",
            Fault::UnknownKind => "a record of unknown kind",
            Fault::OutOfPlace => "a record whose kind is out of place",
            Fault::FieldNotAllowed => "a record with a field that is not allowed",
            Fault::TooLong => "a script of more than 60,000 bytes",
        })
    }
}

impl Error for Fault {}

/// A fault, and the byte of the script at which the faulty record starts.
#[derive(Clone, Copy, Debug, PartialEq, Eq)]
pub struct FaultAt {
    /// What is wrong.
    pub fault: Fault,
    /// Where the record starts; 0 for a script that is too long.
    pub at: usize,
}

impl fmt::Display for FaultAt {
    ghost output = { λ f. Some (fault_line f) };

    fn fmt<W: fmt::Write>(&self, f: &mut fmt::Formatter<W>) -> fmt::Result {
        let number = self.fault.number();
        let at = self.at;
        write!(f, "fault {number} at {at}")
    }
}

impl Error for FaultAt {}
