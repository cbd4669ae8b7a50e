ghost use Rattle.std.specs.Prelude.{◌≡◌};
ghost use Rattle.goo_desk_server.specs.ConnectionFaults.{of_reading};
ghost use Rattle.goo_desk_server.specs.declared.serve_fault.ServeFault.TheVariants.{Write};

use goo_files_streams::{InputFault, WriteFault};
use std::{error, fmt};

/// Why a connection was not served.
#[derive(Debug, Clone, Copy, PartialEq, Eq)]
pub enum ServeFault {
    /// The reader failed. Nothing was applied, and nothing is answered.
    Read,
    /// The writer failed. What was accepted stands: sent again under its key it is repeated.
    Write,
    /// What keeps the records failed, whether or not that could be answered.
    Store,
    /// There was no room to read the request, or for the routes. Nothing was applied, and nothing
    /// is answered.
    Memory,
}

impl fmt::Display for ServeFault {
    fn fmt<W: fmt::Write>(&self, f: &mut fmt::Formatter<W>) -> fmt::Result {
        match self {
            Self::Read => f.write_str("the request was not read"),
            Self::Write => f.write_str("the response was not written"),
            Self::Store => f.write_str("the records failed"),
            Self::Memory => f.write_str("out of memory"),
        }
    }
}

impl error::Error for ServeFault {}

impl From<InputFault> for ServeFault {
    ghost from_gives = { λ of fault. fault ≡ of_reading of };

    fn from(fault: InputFault) -> Self {
        match fault {
            InputFault::Read | InputFault::TooLong => ServeFault::Read,
            InputFault::Memory => ServeFault::Memory,
        }
    }
}

impl From<WriteFault> for ServeFault {
    ghost from_gives = { λ _ fault. fault ≡ Write };

    fn from(_: WriteFault) -> Self {
        ServeFault::Write
    }
}
