// The numbers of the refusals, how a fault is handed on (from a line to its record, from a record to the call), and how
// a refusal is printed.
ghost use Rattle.std.specs.Prelude.{◌≡◌, Some};
ghost use Rattle.record.specs.Faults.{number_of, of_line, outside, unnamed, refused, printed};

use crate::faults::{LineFault, Reason, RecordFault, Refusal};
use std::fmt;

impl Reason {
    pub fn number(self) -> u32
        ensures { result ≡ number_of self }
    {
        self as u32
    }
}

impl From<LineFault> for RecordFault {
    ghost from_gives = { λ x y. y ≡ of_line x };

    fn from(fault: LineFault) -> RecordFault {
        RecordFault {
            reason: fault.reason,
            line: Some(fault.line),
        }
    }
}

impl From<Reason> for RecordFault {
    ghost from_gives = { λ x y. y ≡ outside x };

    fn from(reason: Reason) -> RecordFault {
        RecordFault { reason, line: None }
    }
}

impl From<RecordFault> for Refusal {
    ghost from_gives = { λ x y. y ≡ unnamed x };

    fn from(fault: RecordFault) -> Refusal {
        Refusal {
            reason: fault.reason,
            entry: None,
            line: fault.line,
        }
    }
}

impl From<Reason> for Refusal {
    ghost from_gives = { λ x y. y ≡ refused x };

    fn from(reason: Reason) -> Refusal {
        Refusal::from(RecordFault::from(reason))
    }
}

// Number, entry and line, with 0 for none.
impl fmt::Display for Refusal {
    ghost output = { λ r. Some (printed r) };

    fn fmt<W: fmt::Write>(&self, f: &mut fmt::Formatter<W>) -> fmt::Result {
        let number = self.reason.number();
        let entry = self.entry.unwrap_or(0);
        let line = self.line.unwrap_or(0);
        write!(f, "{number} {entry} {line}")
    }
}
