//! Why a text is no entry and no outcome.
ghost use Rattle.std.specs.Prelude.{◌≡◌};
ghost use Rattle.goo_log_entry.specs.declared.text_fault.TextFault.TheVariants.{Memory};

use std::alloc::AllocError;
use std::{error, fmt};

/// Why a text is no entry, or no outcome.
#[derive(Clone, Copy, Debug, PartialEq, Eq)]
pub enum TextFault {
    /// It isn't the text of one.
    Form,
    /// An allocation was refused.
    Memory,
}

impl fmt::Display for TextFault {
    fn fmt<W: fmt::Write>(&self, f: &mut fmt::Formatter<W>) -> fmt::Result {
        match self {
            Self::Form => f.write_str("not in the form of the log"),
            Self::Memory => f.write_str("out of memory"),
        }
    }
}

impl error::Error for TextFault {}

impl From<AllocError> for TextFault {
    ghost from_gives = { λ _ fault. fault ≡ Memory };

    fn from(_error: AllocError) -> Self {
        TextFault::Memory
    }
}
