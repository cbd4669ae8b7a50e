//! Why a text or a JSON value is no notice.
ghost use Rattle.std.specs.Prelude.{◌≡◌};
ghost use Rattle.goo_notice_text.specs.declared.notice_fault.NoticeFault.TheVariants.{Memory};
ghost use Rattle.goo_notice_text.specs.NoticeFaults.{of_value};

use goo_notice_json::value_fault::ValueFault;
use std::alloc::AllocError;
use std::{error, fmt};

/// Why a text or a JSON value is no notice: the first of these that holds.
#[derive(Clone, Copy, Debug, PartialEq, Eq)]
pub enum NoticeFault {
    /// The bytes are no JSON text.
    NotJson,
    /// A key is missing or too many, or a value is of the wrong kind.
    Shape,
    /// A value is refused by its reader, the version is another one, or the contents are no
    /// notice.
    Field,
    /// The bytes are not those that are written for the notice.
    Canonical,
    /// An allocation was refused.
    Memory,
}

impl fmt::Display for NoticeFault {
    fn fmt<W: fmt::Write>(&self, f: &mut fmt::Formatter<W>) -> fmt::Result {
        match self {
            Self::NotJson => f.write_str("the bytes are no JSON text"),
            Self::Shape => f.write_str(
                "a key is missing or too many, or a value is of the wrong kind",
            ),
            Self::Field => f.write_str("a value is refused, or the contents are no notice"),
            Self::Canonical => f.write_str(
                "the bytes are not those that are written for the notice",
            ),
            Self::Memory => f.write_str("out of memory"),
        }
    }
}

impl error::Error for NoticeFault {}

impl From<AllocError> for NoticeFault {
    ghost from_gives = { λ _ fault. fault ≡ Memory };

    fn from(_error: AllocError) -> Self {
        NoticeFault::Memory
    }
}

impl From<ValueFault> for NoticeFault {
    ghost from_gives = { λ of fault. fault ≡ of_value of };

    fn from(fault: ValueFault) -> Self {
        match fault {
            ValueFault::Shape => NoticeFault::Shape,
            ValueFault::Field => NoticeFault::Field,
            ValueFault::Memory => NoticeFault::Memory,
        }
    }
}
