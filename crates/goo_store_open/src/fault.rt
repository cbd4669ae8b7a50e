//! Why tables are not opened as a registry, or not made one.

ghost use Rattle.std.specs.Prelude.{◌≡◌, ◌⊎◌, IsTrue};
ghost use Rattle.goo_tables_rows.specs.Readable.{is_read_error};
ghost use Rattle.goo_tables_rows.specs.Refused.{is_store_error};
ghost use Rattle.goo_store_open.specs.Found.{word_of};

use sqlite::{Error, ErrorCode};
use std::{error, fmt};

/// Why tables are not opened as a registry, or not made one.
#[derive(Clone, Copy, Debug, PartialEq, Eq)]
pub enum OpenFault {
    /// A table of a registry is there already.
    AlreadyThere,
    /// There is no table `meta` with its columns and its row.
    NotARegistry,
    /// The tables are of this version, which is not read here.
    Version(u32),
    /// A table or a column is missing, a value cannot be read, or a rule of the tables is broken.
    Damaged,
    /// The database failed.
    Store,
    /// An allocation was refused.
    Memory,
}

impl fmt::Display for OpenFault {
    fn fmt<W: fmt::Write>(&self, f: &mut fmt::Formatter<W>) -> fmt::Result {
        match self {
            Self::AlreadyThere => f.write_str("a table is there already"),
            Self::NotARegistry => f.write_str("not a registry"),
            Self::Version(version) => write!(f, "version {version} is not read here"),
            Self::Damaged => f.write_str("a table is missing, or a rule of the tables is broken"),
            Self::Store => f.write_str("the database failed"),
            Self::Memory => f.write_str("out of memory"),
        }
    }
}

impl error::Error for OpenFault {}

/// The word for the error of a statement; `missing` is the one where the statement's table or a
/// column of it is missing.
pub fn fault_of(error: Error, missing: OpenFault) -> OpenFault
    ensures told { result ≡ word_of missing error }
    ensures memory { error ≡ Error.SqliteFailure ErrorCode.OutOfMemory → result ≡ OpenFault.Memory }
    ensures store { IsTrue (is_store_error error) → result ≡ OpenFault.Store }
    ensures unread { IsTrue (is_read_error error) → result ≡ OpenFault.Damaged }
    ensures missing { (cause : _) → error ≡ Error.SqlInputError cause → result ≡ missing }
    ensures words { ((result ≡ OpenFault.Store) ⊎ (result ≡ OpenFault.Memory))
        ⊎ ((result ≡ OpenFault.Damaged) ⊎ (result ≡ missing)) }
{
    match error {
        Error::SqliteFailure(ErrorCode::OutOfMemory) => OpenFault::Memory,
        Error::SqlInputError(_) => missing,
        Error::InvalidColumnIndex(_)
        | Error::InvalidColumnType(..)
        | Error::IntegralValueOutOfRange(_)
        | Error::Utf8Error(_) => OpenFault::Damaged,
        _ => OpenFault::Store,
    }
}
