//! Why the lines of an input were not all answered.
ghost use Rattle.std.specs.Prelude.{◌≡◌};
ghost use Rattle.goo_desk_lines.specs.Faults.{of_reading, of_desk};
ghost use Rattle.goo_desk_lines.specs.declared.lines_fault.LinesFault.TheVariants.{Write};

use goo_files_streams::{InputFault, WriteFault};
use goo_types::fault::Fault;
use std::{error, fmt};

/// Why the lines after some were not answered.
#[derive(Debug, Clone, Copy, PartialEq, Eq)]
pub enum LinesFault {
    /// The reader failed or held more than the limit. No line was answered.
    Read,
    /// The writer failed. The request of the line stands, and a beginning of its outcome may be
    /// written.
    Write,
    /// What keeps the records failed. The lines before stand, and their outcomes are written.
    Store,
    /// There was no room. The lines before stand, and their outcomes are written.
    Memory,
}

impl fmt::Display for LinesFault {
    fn fmt<W: fmt::Write>(&self, f: &mut fmt::Formatter<W>) -> fmt::Result {
        match self {
            Self::Read => f.write_str("the input failed or was too long"),
            Self::Write => f.write_str("the output failed"),
            Self::Store => f.write_str("the records failed"),
            Self::Memory => f.write_str("out of memory"),
        }
    }
}

impl error::Error for LinesFault {}

impl From<InputFault> for LinesFault {
    ghost from_gives = { λ of fault. fault ≡ of_reading of };

    fn from(fault: InputFault) -> Self {
        match fault {
            InputFault::Read | InputFault::TooLong => LinesFault::Read,
            InputFault::Memory => LinesFault::Memory,
        }
    }
}

impl From<WriteFault> for LinesFault {
    ghost from_gives = { λ _ fault. fault ≡ Write };

    fn from(_: WriteFault) -> Self {
        LinesFault::Write
    }
}

impl From<Fault> for LinesFault {
    ghost from_gives = { λ of fault. fault ≡ of_desk of };

    fn from(fault: Fault) -> Self {
        match fault {
            Fault::Store => LinesFault::Store,
            Fault::Memory => LinesFault::Memory,
        }
    }
}
