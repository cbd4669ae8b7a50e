//! Why a call of the database, or the reading of what it showed, fails.

ghost use Rattle.std.specs.Prelude.{◌≡◌};
ghost use Rattle.goo_store_values.specs.Passing.{IsStatementFaultOf, open_fault_of};
ghost use Rattle.goo_store_values.specs.declared.statement_fault.StatementFault.TheVariants.{Memory};

use goo_store_open::fault::OpenFault;
use sqlite::{Error, ErrorCode};
use std::alloc::{AllocError, AllocFailed};

/// Why a statement failed, or the reading of its rows.
#[derive(Clone, Copy, PartialEq, Eq)]
pub enum StatementFault {
    /// Memory was refused.
    Memory,
    /// A call was refused for another cause, or a row breaks the rules of the tables.
    Refused,
}

impl From<Error> for StatementFault {
    ghost from_gives = { IsStatementFaultOf };

    fn from(error: Error) -> StatementFault
        ensures { IsStatementFaultOf error result }
    {
        match error {
            Error::SqliteFailure(ErrorCode::OutOfMemory) => StatementFault::Memory,
            _ => StatementFault::Refused,
        }
    }
}

impl From<AllocError> for StatementFault {
    ghost from_gives = { λ _ cause. cause ≡ Memory };

    fn from(_error: AllocError) -> StatementFault {
        StatementFault::Memory
    }
}

impl<T: Drop> From<AllocFailed<T>> for StatementFault {
    ghost from_gives = { λ _ cause. cause ≡ Memory };

    fn from(_error: AllocFailed<T>) -> StatementFault {
        StatementFault::Memory
    }
}

impl From<StatementFault> for OpenFault {
    fn from(cause: StatementFault) -> OpenFault
        ensures { result ≡ open_fault_of cause }
    {
        match cause {
            StatementFault::Memory => OpenFault::Memory,
            StatementFault::Refused => OpenFault::Store,
        }
    }
}
