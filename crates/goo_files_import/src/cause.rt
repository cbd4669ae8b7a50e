//! Why an import stopped.

use crate::report::Report;
use goo_types::fault::Fault;

/// Why an import stopped.
#[derive(Clone, Copy, Debug, PartialEq, Eq)]
pub enum Cause {
    /// The first record is not the header, or there is none. No row was applied.
    Header,
    /// The reader failed, or held more than the limit. No row was applied.
    Read,
    /// What keeps the records failed. The rows of the report stand, and no others.
    Store,
    /// There was no room. The rows of the report stand, and no others.
    Memory,
}

/// Why an import stopped, and what became of the rows before.
#[derive(Drop)]
pub struct ImportFault {
    /// The results of the rows that stand.
    pub report: Report,
    /// Why no more rows were applied.
    pub cause: Cause,
}

impl Cause {
    ghost use Rattle.std.specs.Prelude.{◌≡◌};
    ghost use Rattle.goo_files_import.specs.Results.{cause_of};

    /// The fault of a row's request.
    pub(crate) fn of(fault: Fault) -> Cause
        ensures { result ≡ cause_of fault }
    {
        match fault {
            Fault::Store => Cause::Store,
            Fault::Memory => Cause::Memory,
        }
    }
}
