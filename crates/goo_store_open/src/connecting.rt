//! Connections whose tables are in the order of their rowids, which `HasOurTables` asks for.

ghost use Rattle.std.specs.Prelude.{◌≡◌, false, IsTrue, IfOk, IfErr};
ghost use Rattle.sqlite_store.specs.FileStore.{view};
ghost use Rattle.sqlite.specs.State.{HasCleanDisk};
ghost use Rattle.sqlite.specs.Held.{IsNew};
ghost use Rattle.sqlite.specs.Opening.{is_open_error};
ghost use Rattle.sqlite.specs.Files.{file_state, image_of, IsOpened, IsBlankAs, Finds, IsCleanLeft};
ghost use Rattle.sqlite.specs.Files.{FailsToOpenFiles, LeavesFiles};
ghost use Rattle.goo_tables_rows.specs.Met.{IsInKeyOrder};

use sqlite::{Connection, Error, FileStore, Files, Leftover, Options};
use sqlite_disk::Disk;
use std::alloc::Global;

/// The database that the files hold, with the rows of each table in the order of their rowids.
///
/// # Errors
///
/// As `Connection::open_files`: the files hold no database, a call of a file failed, or memory was
/// refused.
pub fn open_ordered<D: Disk + Drop>(
    alloc: Global,
    files: Files<D>,
    options: Options,
) -> Result<Connection<FileStore<D>>, (Error, Leftover<D>)>
    requires log { IsTrue (D.Disk.is_usable files.log) }
    requires db { IsTrue (D.Disk.is_usable files.db) }
    ensures ordered { IfOk result
        (λ c. HasCleanDisk (file_state c) → IsInKeyOrder (file_state c).now) }
    ensures opened { IfOk result (λ c. HasCleanDisk (file_state c) → IsOpened c) }
    ensures found { IfOk result (λ c. HasCleanDisk (file_state c) → Finds files c) }
    ensures plain { IfOk result
        (λ c. HasCleanDisk (file_state c) → IsBlankAs false (image_of D.Disk files)
        → (view c.store).has_sums ≡ false) }
    ensures fresh { IfOk result IsNew }
    ensures guarded { IfOk result (λ c. HasCleanDisk (file_state c) → (file_state c).IsShielded) }
    ensures named { IfErr result (λ e. IsTrue (is_open_error e.0)) }
    ensures cause { IfErr result (λ e. IsCleanLeft e.1 → FailsToOpenFiles files e.1 e.0) }
    ensures unharmed { IfErr result (λ e. IsCleanLeft e.1 → LeavesFiles files e.1) }
{
    Connection::open_files(alloc, files, options)
}
