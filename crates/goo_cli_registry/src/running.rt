//! The command `run`.
ghost use Rattle.std.specs.Prelude.{◌≡◌, ◌⊎◌, ◌<◌, [], false, IsTrue, ⊤};
ghost use Rattle.std.specs.Io.Buffered.{writer_buffer, writer_contents};
ghost use Rattle.sqlite.specs.Files.{image_of, HoldsDatabase};
ghost use Rattle.sqlite.specs.Held.{state as view};
ghost use Rattle.sqlite.specs.Tree.{Trees};
ghost use Rattle.sqlite_trees.specs.View.{doubt};
ghost use Rattle.goo_store_opening.specs.Versions.{state_held};
ghost use Rattle.goo_store_judge.specs.Moments.{IsWell};
ghost use Rattle.goo_spec.specs.Created.{created};
ghost use Rattle.goo_spec.specs.Sound.{IsSound};
ghost use Rattle.goo_registry.specs.Desks.{seen_of};
ghost use Rattle.goo_cli_ending.specs.Endings.{status_of, IsOfLines, IsToldOf};
ghost use Rattle.goo_cli_ending.specs.Runs.{HasState, MayFind, RunsInput};
ghost use Rattle.goo_cli_registry.specs.Durable.{IfOpened, IsInFile, IsUnbegun, MayOpen};
ghost use Rattle.goo_cli_registry.specs.Finds.{Begins};
ghost use Rattle.goo_cli_registry.specs.Openings.{IsRun};
ghost use Rattle.goo_cli_registry.specs.Closings.{HasSpareLog, IfRefused, IsClean};
ghost use Rattle.goo_cli_registry.specs.Refusals.{IsTurnedAway};

use crate::closing::{Left, close_registry};
use crate::in_memory::open_in_memory;
use crate::opening::{begin, failure_of, open_registry};
use crate::renewal_line::RenewalLine;
use goo_cli::Opening;
use goo_cli_ending::{Ending, Failure, answer_input};
use goo_core_shelf::shelf::Shelf;
use goo_registry::Registry;
use sqlite::{Alter, Connection, Files};
use sqlite_disk::Disk;
use std::alloc::Global;
use std::io::{BufWriter, Read, Write};

/// Answers the lines of an input by a registry, and hands back what keeps its records. What is said
/// holds so long as that returned what was written.
pub fn answer_by<S: Shelf, R: Read, W: Write + Drop>(
    alloc: Global,
    registry: Registry<S>,
    reader: &mut R,
    writer: &mut BufWriter<W>,
) -> (Ending, S)
    ensures runs { (S.seen result.1).corruptions ≡ 0
        → RunsInput result.0 (S.seen registry.shelf).state (writer_contents W.contents writer.old)
        (writer_contents W.contents writer.new) (HasState result.0 (seen_of (S.seen result.1)))
        (MayFind (seen_of (S.seen registry.shelf)) (S.seen result.1).leaves)
        (R.remaining reader.old) (R.remaining reader.new) }
    ensures words { IsOfLines result.0 }
    ensures flushed { status_of result.0 < 2 → writer_buffer writer.new ≡ [] }
    ensures told { (S.seen registry.shelf).refusals ≡ 0
        → IsToldOf result.0 (S.seen result.1).refusals }
    ensures corruptions_stay { (S.seen result.1).corruptions ≡ 0
        → (S.seen registry.shelf).corruptions ≡ 0 }
{
    let mut registry = registry;
    let ending = answer_input(alloc, &mut registry, reader, writer);
    (ending, registry.into_shelf())
}

/// Answers the lines of an input by a new registry in an empty database, and hands the database
/// back.
pub fn answer_by_tables<S: Alter, R: Read, W: Write + Drop>(
    alloc: Global,
    conn: Connection<S>,
    opening: Opening,
    reader: &mut R,
    writer: &mut BufWriter<W>,
) -> (Ending, Connection<S>)
    requires outside { conn.in_transaction ≡ false }
    ensures runs { doubt (view S.Store result.1).is_clean ≡ 0
        → RunsInput result.0 (created opening.code opening.today opening.next_serial)
        (writer_contents W.contents writer.old) (writer_contents W.contents writer.new) (λ _. ⊤)
        (λ _ _. ⊤) (R.remaining reader.old) (R.remaining reader.new)
        ⊎ IsUnbegun result.0 (writer_contents W.contents writer.old)
        (writer_contents W.contents writer.new) (R.remaining reader.old) (R.remaining reader.new) }
    ensures words { IsOfLines result.0 }
    ensures flushed { status_of result.0 < 2 → writer_buffer writer.new ≡ [] }
    ensures run { IsRun result.0 → IsWell (view S.Store result.1) }
{
    match begin(alloc, conn, opening) {
        Ok(shelf) => {
            let (ending, shelf) = answer_by(alloc, Registry::new(shelf), reader, writer);
            (ending, shelf.into_connection())
        }
        Err((conn, fault)) => (Ending::Failed(failure_of(fault)), conn),
    }
}

/// Answers the lines of an input by a new registry whose records are tables in memory, and are gone
/// when the program ends.
///
/// - `runs`: what the reader gave, and the first of its lines, all of them with status 0 and 1
///   ([`answer_input`]); or no registry could be made, for a fault that is told, and nothing was
///   read or written.
/// - `sound`: the new registry is sound, so that what a registry promises holds of these lines.
/// - `words`: it ends as a run of lines does.
/// - `flushed`: with status 0 and 1 nothing is left in the writer's buffer.
pub fn run_in_memory<R: Read, W: Write + Drop>(
    alloc: Global,
    opening: Opening,
    reader: &mut R,
    writer: &mut BufWriter<W>,
) -> Ending
    ensures runs { RunsInput result (created opening.code opening.today opening.next_serial)
        (writer_contents W.contents writer.old) (writer_contents W.contents writer.new) (λ _. ⊤)
        (λ _ _. ⊤) (R.remaining reader.old) (R.remaining reader.new)
        ⊎ IsUnbegun result (writer_contents W.contents writer.old)
        (writer_contents W.contents writer.new) (R.remaining reader.old) (R.remaining reader.new) }
    ensures sound { IsSound (created opening.code opening.today opening.next_serial) }
    ensures words { IsOfLines result }
    ensures flushed { status_of result < 2 → writer_buffer writer.new ≡ [] }
{
    let _code = opening.code.get();
    let _serial = opening.next_serial.get();
    let conn = match open_in_memory(alloc) {
        Ok(conn) => conn,
        Err(failure) => return Ending::Failed(failure),
    };
    let (ending, _conn) = answer_by_tables(alloc, conn, opening, reader, writer);
    ending
}

/// Answers the lines of an input by the registry that files hold, and closes it; `line` tells if it
/// is of version 1. What is said holds so long as the files returned what was written, and `db` is
/// the database that they held.
///
/// - `runs`: what the reader gave, and the first of its lines, all of them with status 0 and 1
///   ([`answer_input`]), from the state that the files held. The database file alone holds what
///   these lines come to, after a crash too, where the log could be copied into it; else the next
///   opening finds that, or one line more at most.
/// - `begins`: what the files held is sound, so that what a registry promises holds of these lines. Where
///   they hold what a crash left of a registry, it is the state that the crash is said to leave, one
///   of two at most.
/// - `words`: it ends as a run of lines does.
/// - `refused`, `turned_away`: where there is no registry to run, the word for what the files hold is
///   told, or a fault of the store or want of memory; nothing was read or written, and no harm came to
///   what the files held, after a crash too: but for a registry of version 1, the same registry in
///   version 2 may be found then.
/// - `flushed`: with status 0 and 1 nothing is left in the writer's buffer.
/// - `copied`: a log that is said to be copied into the database file is.
pub fn run_in_files<D: Disk + Drop, R: Read, W: Write + Drop, T: Write>(
    alloc: Global,
    files: Files<D>,
    seed: u64,
    reader: &mut R,
    writer: &mut BufWriter<W>,
    line: &mut RenewalLine<'_, T>,
) -> (Ending, Left<D>)
    requires log { IsTrue (D.Disk.is_usable files.log) }
    requires db { IsTrue (D.Disk.is_usable files.db) }
    ensures runs { IsClean result.1 → (db : Trees) → HoldsDatabase (image_of D.Disk files) db
        → IfOpened result.1 (RunsInput result.0 (state_held db)
        (writer_contents W.contents writer.old) (writer_contents W.contents writer.new)
        (IsInFile result.1) (MayOpen result.1) (R.remaining reader.old) (R.remaining reader.new)) }
    ensures begins { IsClean result.1 → (db : Trees) → HoldsDatabase (image_of D.Disk files) db
        → IfOpened result.1 (Begins db) }
    ensures words { IfOpened result.1 (IsOfLines result.0) }
    ensures refused { IfRefused result.1
        (λ _. IsUnbegun result.0 (writer_contents W.contents writer.old)
        (writer_contents W.contents writer.new) (R.remaining reader.old)
        (R.remaining reader.new)) }
    ensures turned_away { IsClean result.1 → IfRefused result.1 (IsTurnedAway files result.0) }
    ensures flushed { status_of result.0 < 2 → writer_buffer writer.new ≡ [] }
    ensures copied { HasSpareLog result.1 }
{
    match open_registry(alloc, files, seed, line) {
        Ok(shelf) => {
            let (ending, shelf) = answer_by(alloc, Registry::new(shelf), reader, writer);
            (ending, close_registry(shelf))
        }
        Err((failure, left)) => (Ending::Failed(failure), Left::Refused(left)),
    }
}
