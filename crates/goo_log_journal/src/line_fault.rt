//! Why a line is not taken.
ghost use Rattle.std.specs.Prelude.{◌≡◌};
ghost use Rattle.goo_log_journal.specs.declared.line_fault.LineFault.TheVariants.{Memory};

use std::alloc::AllocError;
use std::{error, fmt};

/// Why a line is not taken.
#[derive(Clone, Copy, Debug, PartialEq, Eq)]
pub enum LineFault {
    /// It is the line of no entry and of no outcome under the key.
    Form,
    /// It is one that does not come next: another number, another hash or another chain.
    Order,
    /// An allocation was refused.
    Memory,
}

impl fmt::Display for LineFault {
    fn fmt<W: fmt::Write>(&self, f: &mut fmt::Formatter<W>) -> fmt::Result {
        match self {
            Self::Form => f.write_str("not a line of the journal under its key"),
            Self::Order => f.write_str("a line that does not come next"),
            Self::Memory => f.write_str("out of memory"),
        }
    }
}

impl error::Error for LineFault {}

impl From<AllocError> for LineFault {
    ghost from_gives = { λ _ fault. fault ≡ Memory };

    fn from(_error: AllocError) -> Self {
        LineFault::Memory
    }
}
