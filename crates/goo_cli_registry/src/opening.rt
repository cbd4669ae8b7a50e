//! A registry opened, over a database or over files.
ghost use Rattle.std.specs.Prelude.{◌≡◌, ◌≢◌, ◌⊎◌, false, IsTrue, IfOk, IfErr, IsErrAnd, Err};
ghost use Rattle.sqlite.specs.Files.{file_state, image_of, Finds, HoldsDatabase, IsCleanLeft};
ghost use Rattle.sqlite.specs.Files.{IsOpened, LeavesFiles};
ghost use Rattle.sqlite.specs.Held.{IsNew, state as view};
ghost use Rattle.sqlite.specs.State.{HasCleanDisk};
ghost use Rattle.sqlite.specs.Tree.{Trees};
ghost use Rattle.goo_tables_rows.specs.Columns.{no_schema};
ghost use Rattle.goo_tables_rows.specs.Met.{IsInKeyOrder};
ghost use Rattle.goo_store.specs.Seen.{seen_by};
ghost use Rattle.goo_store_opening.specs.Versions.{state_held};
ghost use Rattle.goo_store_judge.specs.Moments.{OpensAsEither};
ghost use Rattle.goo_store_open.specs.Found.{IsOutside};
ghost use Rattle.goo_ranges_rows.specs.Rows.{AreRowsOf};
ghost use Rattle.goo_core_shelf.specs.Shelf.{IsReady};
ghost use Rattle.goo_spec.specs.Created.{created};
ghost use Rattle.goo_spec.specs.Sound.{IsSound};
ghost use Rattle.goo_spec.specs.State.{State};
ghost use Rattle.goo_cli_registry.specs.Closings.{LeavesRegistry};
ghost use Rattle.goo_cli_registry.specs.Openings.{failure_of_opening, IsBlamed, IsFault};
ghost use Rattle.goo_cli_registry.specs.Openings.{IsOfOpening, MayBegin};
ghost use Rattle.goo_cli_registry.specs.Refusals.{TellsWhy};
ghost use Rattle.goo_cli_ending.specs.declared.ending.Ending.TheVariants.{Failed};

use crate::renewal_line::RenewalLine;
use goo_cli::Opening;
use goo_cli_disk::file_fault::word_for;
use goo_cli_ending::Failure;
use goo_store::sql_shelf::SqlShelf;
use goo_store_open::connecting::open_ordered;
use goo_store_open::fault::OpenFault;
use goo_types::fault::Fault;
use sqlite::{Alter, Connection, Error, ErrorCode, FileStore, Files, Leftover, Options};
use sqlite_disk::Disk;
use std::alloc::Global;
use std::io::Write;

/// How many pages the log of a file takes before they go to the database. Of 1,024 bytes each they
/// are as many bytes as the thousand pages of 4,096 bytes after which SQLite does so by itself.
const LOG_PAGES: usize = 4_000;

/// How a registry in files is kept. `seed` is what the salts of a new log begin with.
pub fn file_options(seed: u64) -> Options
    ensures seed { result.seed ≡ seed }
    ensures memory { (result.cache_pages ≡ 2000) × (result.spill_pages ≡ 2000) }
    ensures log { result.checkpoint_frames ≡ 4000 }
{
    Options {
        checkpoint_frames: LOG_PAGES,
        ..Options::new(seed)
    }
}

/// The database that files hold, or a new one where they are empty.
///
/// # Errors
///
/// What is left of the files, with `Memory` where memory was refused, and `Store` where a call of a
/// file failed or they hold no database.
pub fn open_database<D: Disk + Drop>(
    alloc: Global,
    files: Files<D>,
    options: Options,
) -> Result<Connection<FileStore<D>>, (Fault, Leftover<D>)>
    requires log { IsTrue (D.Disk.is_usable files.log) }
    requires db { IsTrue (D.Disk.is_usable files.db) }
    ensures fresh { IfOk result IsNew }
    ensures ordered { IfOk result
        (λ conn. HasCleanDisk (file_state conn) → IsInKeyOrder (file_state conn).now) }
    ensures opened { IfOk result (λ conn. HasCleanDisk (file_state conn) → IsOpened conn) }
    ensures found { IfOk result (λ conn. HasCleanDisk (file_state conn) → Finds files conn) }
    ensures store { IfErr result (λ e. e.0 ≡ Fault.Store → IsCleanLeft e.1 → IsBlamed files e.1) }
    ensures unharmed { IfErr result (λ e. IsCleanLeft e.1 → LeavesFiles files e.1) }
{
    match open_ordered(alloc, files, options) {
        Ok(conn) => Ok(conn),
        Err((error, left)) => Err((word_for(error), left)),
    }
}

/// Why there is no registry to run. A new one is made in an empty database alone, so none is there
/// already. The number of a version that is read here is told only of tables that are not those of
/// that version.
pub fn failure_of(fault: OpenFault) -> Failure
    ensures { result ≡ failure_of_opening fault }
{
    match fault {
        OpenFault::Memory => Failure::Memory,
        OpenFault::NotARegistry => Failure::NotARegistry,
        OpenFault::Version(version) if version == 1 || version == 2 => Failure::Damaged,
        OpenFault::Version(version) => Failure::Version(version),
        OpenFault::Damaged => Failure::Damaged,
        OpenFault::AlreadyThere | OpenFault::Store => Failure::Store,
    }
}

/// A new registry in an empty database, as `--memory` and `init` ask for.
///
/// # Errors
///
/// As `SqlShelf::create`: the database, unchanged. After a crash that follows, the new registry may
/// be there.
pub fn begin<S: Alter>(
    alloc: Global,
    conn: Connection<S>,
    opening: Opening,
) -> Result<SqlShelf<S>, (Connection<S>, OpenFault)>
    requires outside { conn.in_transaction ≡ false }
    ensures state { IfOk result
        (λ shelf. (seen_by shelf).defects ≡ 0
        → (seen_by shelf).state ≡ created opening.code opening.today opening.next_serial) }
    ensures sound { IfOk result
        (λ shelf. (seen_by shelf).defects ≡ 0 → IsSound (seen_by shelf).state) }
    ensures rows_fit { IfOk result
        (λ shelf. (seen_by shelf).defects ≡ 0
        → AreRowsOf (seen_by shelf).state.at (seen_by shelf).rows) }
    ensures ready { IfOk result (λ shelf. IsReady (seen_by shelf)) }
    ensures outside { IfErr result (λ e. e.0.in_transaction ≡ false) }
    ensures there { IfErr result (λ e. e.1 ≡ OpenFault.AlreadyThere → e.0 ≡ conn) }
    ensures taken { (view S.Store conn).now.schema ≢ no_schema
        → IsErrAnd result (λ e. e.1 ≡ OpenFault.AlreadyThere) }
    ensures untaken { (view S.Store conn).now.schema ≡ no_schema
        → IfErr result (λ e. e.1 ≢ OpenFault.AlreadyThere) }
    ensures words { IfErr result (λ e. (e.1 ≡ OpenFault.AlreadyThere) ⊎ IsOutside e.1) }
    ensures clean { IfErr result
        (λ e. HasCleanDisk (view S.Store e.0) → HasCleanDisk (view S.Store conn)) }
    ensures crash { IfErr result
        (λ e. HasCleanDisk (view S.Store e.0) → (db : Trees) → (view S.Store e.0).may_leave db
        → (view S.Store conn).may_leave db ⊎ MayBegin opening (view S.Store conn) db) }
{
    let _code = opening.code.get();
    let _serial = opening.next_serial.get();
    let _day = opening.today.text();
    SqlShelf::create(
        alloc,
        conn,
        opening.code,
        opening.next_serial,
        opening.today,
    )
}

/// The registry that files hold. One of version 1 becomes one of version 2, which `line` tells
/// before. `seed` is what the salts of a new log begin with.
///
/// # Errors
///
/// What is left of the files, with why there is no registry. What they held is unharmed; where a
/// fault came in the course of a renewal, a crash that follows may find the registry renewed.
///
/// `again`, `never_foreign`: files that hold what a crash left of a registry are opened with the
/// state that a shelf says a crash finds, one of two at most, or refused for a fault of the store
/// or want of memory: never as another word on them. `why`: what the files hold decides the word.
pub fn open_registry<D: Disk + Drop, T: Write>(
    alloc: Global,
    files: Files<D>,
    seed: u64,
    line: &mut RenewalLine<'_, T>,
) -> Result<SqlShelf<FileStore<D>>, (Failure, Leftover<D>)>
    requires log { IsTrue (D.Disk.is_usable files.log) }
    requires db { IsTrue (D.Disk.is_usable files.db) }
    ensures state { IfOk result
        (λ shelf. (db : Trees) → HoldsDatabase (image_of D.Disk files) db
        → (seen_by shelf).defects ≡ 0
        → (seen_by shelf).state ≡ state_held db) }
    ensures sound { IfOk result
        (λ shelf. (seen_by shelf).defects ≡ 0 → IsSound (seen_by shelf).state) }
    ensures rows_fit { IfOk result
        (λ shelf. (seen_by shelf).defects ≡ 0
        → AreRowsOf (seen_by shelf).state.at (seen_by shelf).rows) }
    ensures ready { IfOk result (λ shelf. IsReady (seen_by shelf)) }
    ensures again { IfOk result
        (λ shelf. (db : Trees) → HoldsDatabase (image_of D.Disk files) db → (s t : State)
        → OpensAsEither db s t → (seen_by shelf).defects ≡ 0
        → ((seen_by shelf).state ≡ s) ⊎ ((seen_by shelf).state ≡ t)) }
    ensures never_foreign { IfErr result
        (λ e. IsCleanLeft e.1 → (db : Trees) → HoldsDatabase (image_of D.Disk files) db
        → (s t : State) → OpensAsEither db s t → IsFault e.0) }
    ensures word { IfErr result (λ e. IsOfOpening (Failed e.0)) }
    ensures why { IfErr result (λ e. IsCleanLeft e.1 → TellsWhy files e.1 e.0) }
    ensures unharmed { IfErr result (λ e. IsCleanLeft e.1 → LeavesRegistry files e.1) }
{
    match open_database(alloc, files, file_options(seed)) {
        Ok(conn) => match SqlShelf::open_observed(alloc, conn, line) {
            Ok(shelf) => Ok(shelf),
            Err((conn, fault)) => Err((failure_of(fault), Leftover::Store(conn.into_store()))),
        },
        Err((fault, left)) => Err((Failure::from(fault), left)),
    }
}
