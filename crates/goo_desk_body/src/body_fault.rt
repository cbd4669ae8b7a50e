//! Why a body states no request.
ghost use Rattle.std.specs.Prelude.{◌≡◌};
ghost use Rattle.goo_desk_body.specs.declared.body_fault.BodyFault.TheVariants.{Memory};
ghost use Rattle.goo_desk_body.specs.BodyFaults.{of_value};

use goo_notice_json::value_fault::ValueFault;
use std::alloc::AllocError;
use std::{error, fmt};

/// Why a body states no request: the first of these that holds.
#[derive(Clone, Copy, Debug, PartialEq, Eq)]
pub enum BodyFault {
    /// The bytes are no JSON text.
    NotJson,
    /// It is no object with the keys of a command and `key`, or a value is of the wrong kind.
    Shape,
    /// A value is refused by its reader.
    Field,
    /// An allocation was refused.
    Memory,
}

impl fmt::Display for BodyFault {
    fn fmt<W: fmt::Write>(&self, f: &mut fmt::Formatter<W>) -> fmt::Result {
        match self {
            Self::NotJson => f.write_str("the bytes are no JSON text"),
            Self::Shape => f.write_str(
                "a key is missing or too many, or a value is of the wrong kind",
            ),
            Self::Field => f.write_str("a value is refused by its reader"),
            Self::Memory => f.write_str("out of memory"),
        }
    }
}

impl error::Error for BodyFault {}

impl From<AllocError> for BodyFault {
    ghost from_gives = { λ _ fault. fault ≡ Memory };

    fn from(_error: AllocError) -> Self {
        BodyFault::Memory
    }
}

impl From<ValueFault> for BodyFault {
    ghost from_gives = { λ of fault. fault ≡ of_value of };

    fn from(fault: ValueFault) -> Self {
        match fault {
            ValueFault::Shape => BodyFault::Shape,
            ValueFault::Field => BodyFault::Field,
            ValueFault::Memory => BodyFault::Memory,
        }
    }
}
