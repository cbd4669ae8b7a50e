//! Why a JSON value does not state what is asked for.
ghost use Rattle.std.specs.Prelude.{◌≡◌};
ghost use Rattle.goo_notice_json.specs.declared.value_fault.ValueFault.TheVariants.{Field, Memory};

use goo_types::day::DayFault;
use goo_types::gsrn::GsrnFault;
use goo_types::notice::RuleFault;
use goo_types::number::NumberFault;
use goo_types::text_fault::TextFault;
use std::alloc::{AllocError, AllocFailed};
use std::{error, fmt};

/// Why a JSON value does not state what is asked for: the first of these that holds.
#[derive(Clone, Copy, Debug, PartialEq, Eq)]
pub enum ValueFault {
    /// A key is missing or too many, or a value is of the wrong kind.
    Shape,
    /// A value is refused by its reader.
    Field,
    /// An allocation was refused.
    Memory,
}

impl fmt::Display for ValueFault {
    fn fmt<W: fmt::Write>(&self, f: &mut fmt::Formatter<W>) -> fmt::Result {
        match self {
            Self::Shape => f.write_str(
                "a key is missing or too many, or a value is of the wrong kind",
            ),
            Self::Field => f.write_str("a value is refused by its reader"),
            Self::Memory => f.write_str("out of memory"),
        }
    }
}

impl error::Error for ValueFault {}

impl From<AllocError> for ValueFault {
    ghost from_gives = { λ _ fault. fault ≡ Memory };

    fn from(_error: AllocError) -> Self {
        ValueFault::Memory
    }
}

impl<T: Drop> From<AllocFailed<T>> for ValueFault {
    ghost from_gives = { λ _ fault. fault ≡ Memory };

    fn from(_error: AllocFailed<T>) -> Self {
        ValueFault::Memory
    }
}

impl From<TextFault> for ValueFault {
    ghost from_gives = { λ _ fault. fault ≡ Field };

    fn from(_fault: TextFault) -> Self {
        ValueFault::Field
    }
}

impl From<NumberFault> for ValueFault {
    ghost from_gives = { λ _ fault. fault ≡ Field };

    fn from(_fault: NumberFault) -> Self {
        ValueFault::Field
    }
}

impl From<DayFault> for ValueFault {
    ghost from_gives = { λ _ fault. fault ≡ Field };

    fn from(_fault: DayFault) -> Self {
        ValueFault::Field
    }
}

impl From<GsrnFault> for ValueFault {
    ghost from_gives = { λ _ fault. fault ≡ Field };

    fn from(_fault: GsrnFault) -> Self {
        ValueFault::Field
    }
}

impl From<RuleFault> for ValueFault {
    ghost from_gives = { λ _ fault. fault ≡ Field };

    fn from(_fault: RuleFault) -> Self {
        ValueFault::Field
    }
}
