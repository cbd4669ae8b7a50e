//! What kept files from being opened.
ghost use Rattle.std.specs.Prelude.{◌≡◌, ◌≢◌};

use goo_types::fault::Fault;
use sqlite::{Error, ErrorCode};

/// The word for what kept files from being opened.
pub fn word_for(error: Error) -> Fault
    ensures memory { error ≡ Error.SqliteFailure ErrorCode.OutOfMemory → result ≡ Fault.Memory }
    ensures other { error ≢ Error.SqliteFailure ErrorCode.OutOfMemory → result ≡ Fault.Store }
{
    match error {
        Error::SqliteFailure(ErrorCode::OutOfMemory) => Fault::Memory,
        _ => Fault::Store,
    }
}
