//! The database of a registry that no file keeps.
ghost use Rattle.std.specs.Prelude.{◌≡◌, IfOk, IfErr};
ghost use Rattle.sqlite.specs.Files.{file_state};
ghost use Rattle.sqlite.specs.Held.{IsNew};
ghost use Rattle.sqlite.specs.State.{HasCleanDisk};
ghost use Rattle.goo_tables_rows.specs.Met.{IsInKeyOrder};
ghost use Rattle.goo_cli_registry.specs.Openings.{IsFault};

use crate::first_page::make_first_page;
use crate::memory_file::MemoryFile;
use crate::opening::open_database;
use goo_cli_ending::Failure;
use sqlite::{Connection, FileStore, Files, Options};
use std::alloc::{AllocError, Global};

/// The number that the salts of the log in memory begin with. Nobody but this process reads it, so
/// any number does.
const SALT: u64 = 7;

/// An empty log, and a database file that holds the first page.
///
/// # Errors
///
/// `AllocError` where memory for the page was refused.
fn make_files(alloc: Global) -> Result<Files<MemoryFile>, AllocError> {
    Ok(Files {
        log: MemoryFile::new(alloc),
        db: MemoryFile::holding(make_first_page(alloc)?),
    })
}

/// A database in memory for a new registry, which is gone with its connection.
///
/// # Errors
///
/// `Memory` where memory was refused, and `Store` where a file in memory could not grow.
pub fn open_in_memory(alloc: Global) -> Result<Connection<FileStore<MemoryFile>>, Failure>
    ensures fresh { IfOk result IsNew }
    ensures ordered { IfOk result
        (λ conn. HasCleanDisk (file_state conn) → IsInKeyOrder (file_state conn).now) }
    ensures word { IfErr result IsFault }
{
    let files = make_files(alloc).map_err(|_| Failure::Memory)?;
    match open_database(alloc, files, Options::new(SALT)) {
        Ok(conn) => Ok(conn),
        Err((fault, _left)) => Err(Failure::from(fault)),
    }
}
