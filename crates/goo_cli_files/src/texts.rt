//! The commands `declare`, `statement` and `audit`, over files.
ghost use Rattle.std.specs.Prelude.{◌≡◌, [], None, IsTrue};
ghost use Rattle.std.specs.FinMap.{get};
ghost use Rattle.std.specs.Io.Buffered.{writer_buffer, writer_contents};
ghost use Rattle.std.specs.Io.KnownBytes.{Keeps};
ghost use Rattle.sqlite.specs.Files.{image_of, HoldsDatabase};
ghost use Rattle.sqlite.specs.Tree.{Trees};
ghost use Rattle.goo_store_opening.specs.Versions.{state_held};
ghost use Rattle.goo_files.specs.Texts.{IsStatement, IsAuditText};
ghost use Rattle.goo_files.specs.Writes.{Began, Wrote};
ghost use Rattle.goo_cli_ending.specs.Endings.{status_of};
ghost use Rattle.goo_cli_registry.specs.Closings.{HasSpareLog, IfRefused, IsClean};
ghost use Rattle.goo_cli_registry.specs.Durable.{IfOpened, IsInFile, IsUnbegun, IsUnopened, MayOpen};
ghost use Rattle.goo_cli_registry.specs.Finds.{Begins, HasState};
ghost use Rattle.goo_cli_registry.specs.Refusals.{IsTurnedAway};
ghost use Rattle.goo_cli_texts.specs.Declaring.{DeclaresRows};
ghost use Rattle.goo_cli_texts.specs.Endings.{IsOfImport, IsOfText};

use goo_cli_ending::Ending;
use goo_cli_registry::closing::{Left, close_registry};
use goo_cli_registry::opening::open_registry;
use goo_cli_registry::renewal_line::RenewalLine;
use goo_cli_texts::{ProgressLine, declare, show_audit, show_statement};
use goo_registry::Registry;
use goo_types::account_no::AccountNo;
use sqlite::Files;
use sqlite_disk::Disk;
use std::alloc::Global;
use std::io::{BufWriter, Read, Write};

/// Imports the declarations of a CSV file into the registry that files hold, writes the report, and
/// closes the registry. `progress` tells how far the import is, `line` if the registry is of
/// version 1. What is said holds so long as the files returned what was written, and `db` is the
/// database that they held.
///
/// - `runs`: what the reader gave, and the first of its rows ([`declare`]), from the state that the
///   files held. The database file alone holds what these rows come to, after a crash too, where the
///   log could be copied into it; else the next opening finds that, or one row more at most.
/// - `begins`: what the files held is sound, so that what a registry promises holds of these rows. Where
///   they hold what a crash left of a registry, it is the state that the crash is said to leave, one
///   of two at most.
/// - `words`: it ends as an import does.
/// - `refused`, `turned_away`: where there is no registry, the word for what the files hold is told, or a
///   fault of the store or want of memory; nothing was read or written, and no harm came to what the
///   files held, after a crash too: but for a registry of version 1, the same registry in version 2 may
///   be found then.
/// - `flushed`: with status 0 nothing is left in the writer's buffer.
/// - `copied`: a log that is said to be copied into the database file is.
pub fn declare_in_files<D: Disk + Drop, R: Read, W: Write + Drop, T: Write, E: Write>(
    alloc: Global,
    files: Files<D>,
    seed: u64,
    reader: &mut R,
    writer: &mut BufWriter<W>,
    progress: &mut ProgressLine<T>,
    line: &mut RenewalLine<'_, E>,
) -> (Ending, Left<D>)
    requires log { IsTrue (D.Disk.is_usable files.log) }
    requires db { IsTrue (D.Disk.is_usable files.db) }
    ensures runs { IsClean result.1 → (db : Trees) → HoldsDatabase (image_of D.Disk files) db
        → IfOpened result.1 (DeclaresRows result.0 (state_held db)
        (writer_contents W.contents writer.old) (writer_contents W.contents writer.new)
        (IsInFile result.1) (MayOpen result.1) (R.remaining reader.old) (R.remaining reader.new)) }
    ensures begins { IsClean result.1 → (db : Trees) → HoldsDatabase (image_of D.Disk files) db
        → IfOpened result.1 (Begins db) }
    ensures words { IfOpened result.1 (IsOfImport result.0) }
    ensures refused { IfRefused result.1
        (λ _. IsUnbegun result.0 (writer_contents W.contents writer.old)
        (writer_contents W.contents writer.new) (R.remaining reader.old)
        (R.remaining reader.new)) }
    ensures turned_away { IsClean result.1 → IfRefused result.1 (IsTurnedAway files result.0) }
    ensures flushed { status_of result.0 ≡ 0 → writer_buffer writer.new ≡ [] }
    ensures copied { HasSpareLog result.1 }
{
    match open_registry(alloc, files, seed, line) {
        Ok(shelf) => {
            let mut registry = Registry::new(shelf);
            let ending = declare(alloc, &mut registry, reader, writer, progress);
            (ending, close_registry(registry.into_shelf()))
        }
        Err((failure, left)) => (Ending::Failed(failure), Left::Refused(left)),
    }
}

/// Writes the statement of an account of the registry that files hold, and closes the registry.
/// What is said holds so long as the files returned what was written, and `db` is the database that
/// they held.
///
/// - `shown`, `flushed`: status 0 only where the whole statement is written, and nothing is left in
///   the writer's buffer.
/// - `unknown`, `silent`: status 1 only where there is no such account, and nothing is written
///   then.
/// - `begun`: what is written with status 3 is nothing, or a beginning of the statement.
/// - `kept`: whatever the status, the registry stays as it was: where the log could be copied, the
///   file alone holds what both held, and else the next opening finds it, after a crash too, and
///   nothing else.
/// - `words`: it ends as a text does.
/// - `refused`, `turned_away`: as for [`declare_in_files`]; nothing is read.
/// - `copied`: a log that is said to be copied into the database file is.
pub fn statement_in_files<D: Disk + Drop, W: Write + Drop, E: Write>(
    alloc: Global,
    files: Files<D>,
    seed: u64,
    account: AccountNo,
    writer: &mut BufWriter<W>,
    line: &mut RenewalLine<'_, E>,
) -> (Ending, Left<D>)
    requires log { IsTrue (D.Disk.is_usable files.log) }
    requires db { IsTrue (D.Disk.is_usable files.db) }
    ensures shown { IsClean result.1 → (db : Trees) → HoldsDatabase (image_of D.Disk files) db
        → status_of result.0 ≡ 0
        → Wrote (writer_contents W.contents writer.old) (writer_contents W.contents writer.new)
        (IsStatement (state_held db) account) }
    ensures unknown { IsClean result.1 → (db : Trees) → HoldsDatabase (image_of D.Disk files) db
        → status_of result.0 ≡ 1 → get (state_held db).accounts account ≡ None }
    ensures silent { IsClean result.1 → status_of result.0 ≡ 1
        → Keeps (writer_contents W.contents writer.old) (writer_contents W.contents writer.new) }
    ensures begun { IsClean result.1 → (db : Trees) → HoldsDatabase (image_of D.Disk files) db
        → status_of result.0 ≡ 3
        → Began (writer_contents W.contents writer.old) (writer_contents W.contents writer.new)
        (IsStatement (state_held db) account) }
    ensures words { IfOpened result.1 (IsOfText result.0) }
    ensures refused { IfRefused result.1
        (λ _. IsUnopened result.0 (writer_contents W.contents writer.old)
        (writer_contents W.contents writer.new)) }
    ensures flushed { status_of result.0 ≡ 0 → writer_buffer writer.new ≡ [] }
    ensures kept { IsClean result.1 → (db : Trees) → HoldsDatabase (image_of D.Disk files) db
        → HasState (state_held db) result.1 }
    ensures turned_away { IsClean result.1 → IfRefused result.1 (IsTurnedAway files result.0) }
    ensures copied { HasSpareLog result.1 }
{
    match open_registry(alloc, files, seed, line) {
        Ok(shelf) => {
            let mut registry = Registry::new(shelf);
            let ending = show_statement(&mut registry, account, writer);
            (ending, close_registry(registry.into_shelf()))
        }
        Err((failure, left)) => (Ending::Failed(failure), Left::Refused(left)),
    }
}

/// Writes the audit of the registry that files hold, and closes the registry, as
/// [`statement_in_files`] does a statement.
pub fn audit_in_files<D: Disk + Drop, W: Write + Drop, E: Write>(
    alloc: Global,
    files: Files<D>,
    seed: u64,
    writer: &mut BufWriter<W>,
    line: &mut RenewalLine<'_, E>,
) -> (Ending, Left<D>)
    requires log { IsTrue (D.Disk.is_usable files.log) }
    requires db { IsTrue (D.Disk.is_usable files.db) }
    ensures shown { IsClean result.1 → (db : Trees) → HoldsDatabase (image_of D.Disk files) db
        → status_of result.0 ≡ 0
        → Wrote (writer_contents W.contents writer.old) (writer_contents W.contents writer.new)
        (IsAuditText (state_held db)) }
    ensures silent { IsClean result.1 → status_of result.0 ≡ 1
        → Keeps (writer_contents W.contents writer.old) (writer_contents W.contents writer.new) }
    ensures begun { IsClean result.1 → (db : Trees) → HoldsDatabase (image_of D.Disk files) db
        → status_of result.0 ≡ 3
        → Began (writer_contents W.contents writer.old) (writer_contents W.contents writer.new)
        (IsAuditText (state_held db)) }
    ensures words { IfOpened result.1 (IsOfText result.0) }
    ensures refused { IfRefused result.1
        (λ _. IsUnopened result.0 (writer_contents W.contents writer.old)
        (writer_contents W.contents writer.new)) }
    ensures flushed { status_of result.0 ≡ 0 → writer_buffer writer.new ≡ [] }
    ensures kept { IsClean result.1 → (db : Trees) → HoldsDatabase (image_of D.Disk files) db
        → HasState (state_held db) result.1 }
    ensures turned_away { IsClean result.1 → IfRefused result.1 (IsTurnedAway files result.0) }
    ensures copied { HasSpareLog result.1 }
{
    match open_registry(alloc, files, seed, line) {
        Ok(shelf) => {
            let mut registry = Registry::new(shelf);
            let ending = show_audit(alloc, &mut registry, writer);
            (ending, close_registry(registry.into_shelf()))
        }
        Err((failure, left)) => (Ending::Failed(failure), Left::Refused(left)),
    }
}
