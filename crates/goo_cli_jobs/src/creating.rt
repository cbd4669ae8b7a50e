//! The command `init`.
ghost use Rattle.std.specs.Prelude.{◌≡◌, ◌≢◌, ◌⊎◌, [], IsTrue, IfOk, IfErr, OnOk};
ghost use Rattle.std.specs.Io.Buffered.{writer_buffer, writer_contents};
ghost use Rattle.std.specs.Io.KnownBytes.{Appends, Keeps};
ghost use Rattle.goo_spec.specs.Created.{created};
ghost use Rattle.goo_cli_ending.specs.Endings.{status_of};
ghost use Rattle.goo_cli_registry.specs.Openings.{ending_of_opening, IsOfInit, ready_text};
ghost use Rattle.goo_cli_registry.specs.Closings.{HasSpareLog, HoldState, IfWhole, IsClean, IsMade};
ghost use Rattle.goo_cli_registry.specs.Closings.{Spares, SparesOrMakes, is_whole};
ghost use Rattle.goo_cli_registry.specs.Refusals.{IsVacant, TellsMaking};

use goo_cli::Opening;
use goo_cli_ending::{Ending, Failure, NotDone};
use goo_cli_registry::closing::{Left, close_registry};
use goo_cli_registry::opening::{begin, failure_of, file_options, open_database};
use goo_store_open::fault::OpenFault;
use goo_types::registry_code::RegistryCode;
use sqlite::{Files, Leftover};
use sqlite_disk::Disk;
use std::alloc::Global;
use std::io::{self, BufWriter, Write};

/// How the program ends where no registry was made.
fn ending_of(fault: OpenFault) -> Ending
    ensures { result ≡ ending_of_opening fault }
{
    match fault {
        OpenFault::AlreadyThere => Ending::Denied(NotDone::AlreadyThere),
        other => Ending::Failed(failure_of(other)),
    }
}

/// Makes a registry in files that hold none, and closes it.
///
/// # Errors
///
/// How the program ends where none was made.
fn create_registry<D: Disk + Drop>(
    alloc: Global,
    files: Files<D>,
    seed: u64,
    opening: Opening,
) -> Result<Left<D>, (Ending, Left<D>)>
    requires log { IsTrue (D.Disk.is_usable files.log) }
    requires db { IsTrue (D.Disk.is_usable files.db) }
    ensures made { IfOk result
        (λ left. IfWhole left
        (λ files. HoldState D.Disk files
        (created opening.code opening.today opening.next_serial))) }
    ensures words { IfErr result (λ e. (e.0 ≡ Ending.Denied NotDone.AlreadyThere)
        ⊎ ((e.0 ≡ Ending.Failed Failure.Store) ⊎ (e.0 ≡ Ending.Failed Failure.Memory))) }
    ensures vacant { IfOk result (λ left. IsVacant D.Disk files) }
    ensures tells { IfErr result (λ e. IsClean e.1 → TellsMaking files e.0 e.1) }
    ensures held { IfOk result
        (λ left. IsClean left
        → SparesOrMakes files (created opening.code opening.today opening.next_serial) left) }
    ensures left { IfErr result
        (λ e. IsClean e.1
        → SparesOrMakes files (created opening.code opening.today opening.next_serial) e.1) }
    ensures there { IfErr result
        (λ e. e.0 ≡ Ending.Denied NotDone.AlreadyThere → IsClean e.1 → Spares files e.1) }
    ensures copied { IfOk result HasSpareLog }
    ensures uncopied { IfErr result (λ e. HasSpareLog e.1) }
{
    let conn = match open_database(alloc, files, file_options(seed)) {
        Ok(conn) => conn,
        Err((fault, left)) => {
            return Err((Ending::Failed(Failure::from(fault)), Left::Parts(left)));
        }
    };
    match begin(alloc, conn, opening) {
        Ok(shelf) => Ok(close_registry(shelf)),
        Err((conn, fault)) => {
            let left = Leftover::Store(conn.into_store());
            match fault {
                OpenFault::AlreadyThere => Err((ending_of(fault), Left::Refused(left))),
                _ => Err((ending_of(fault), Left::Parts(left))),
            }
        }
    }
}

/// Says that a registry of this code is ready.
fn say_ready<W: Write + Drop>(writer: &mut BufWriter<W>, code: RegistryCode) -> io::Result<()>
    ensures said { OnOk result
        (Appends (writer_contents W.contents writer.old) (writer_contents W.contents writer.new)
        (ready_text code)) }
    ensures flushed { OnOk result (writer_buffer writer.new ≡ []) }
{
    let code = code.get();
    let (tens, ones) = (b'0' + code / 10, b'0' + code % 10);
    writer.write_all(&[b'r', b'e', b'a', b'd', b'y', b' ', tens, ones, b'\n'])?;
    writer.flush()
}

/// Says that a registry of this code is ready, where its file alone is the whole of it.
fn announce<D: Disk + Drop, W: Write + Drop>(
    left: Left<D>,
    code: RegistryCode,
    writer: &mut BufWriter<W>,
) -> (Ending, Left<D>)
    ensures left { result.1 ≡ left }
    ensures whole { status_of result.0 ≡ 0 → IsTrue (is_whole left) }
    ensures unready { IsTrue (is_whole left)
        ⊎ Keeps (writer_contents W.contents writer.old) (writer_contents W.contents writer.new) }
    ensures said { status_of result.0 ≡ 0
        → Appends (writer_contents W.contents writer.old) (writer_contents W.contents writer.new)
        (ready_text code) }
    ensures flushed { status_of result.0 ≡ 0 → writer_buffer writer.new ≡ [] }
    ensures words { status_of result.0 ≢ 1 }
    ensures told { IsOfInit result.0 }
{
    let is_whole = left.is_whole();
    if !is_whole {
        return (Ending::Failed(Failure::Store), left);
    }
    match say_ready(writer, code) {
        Ok(()) => (Ending::Done, left),
        Err(_) => (Ending::Failed(Failure::Write), left),
    }
}

/// Makes a new registry in files that hold none, closes it, and says that it is ready.
///
/// - `made`: status 0 only where the database file alone holds a new registry with this code, this
///   date and this next serial, after a crash too.
/// - `said`, `flushed`: with status 0 `ready` and the code are written, and nothing is left in the
///   writer's buffer.
/// - `unready`: nothing is written before the registry is there.
/// - `there`: status 1 only where the database has tables already, of a registry or of another
///   program, and then no harm came to what the files held.
/// - `words`, `tells`: it ends as the making of a registry does. It tells that one is there just where the
///   database has a table, an index or a view, and a fault of the store where it has none, or where a
///   call failed or the files hold no database.
/// - `left`: whatever the status, no harm came to what the files held, or a new registry with these
///   three values is there.
/// - `copied`: a log that is said to be copied into the database file is.
///
/// What is said of the files holds so long as they returned what was written.
pub fn init_in_files<D: Disk + Drop, W: Write + Drop>(
    alloc: Global,
    files: Files<D>,
    seed: u64,
    opening: Opening,
    writer: &mut BufWriter<W>,
) -> (Ending, Left<D>)
    requires log { IsTrue (D.Disk.is_usable files.log) }
    requires db { IsTrue (D.Disk.is_usable files.db) }
    ensures made { status_of result.0 ≡ 0
        → IsMade result.1 (created opening.code opening.today opening.next_serial) }
    ensures unready { IsMade result.1 (created opening.code opening.today opening.next_serial)
        ⊎ Keeps (writer_contents W.contents writer.old) (writer_contents W.contents writer.new) }
    ensures said { status_of result.0 ≡ 0
        → Appends (writer_contents W.contents writer.old) (writer_contents W.contents writer.new)
        (ready_text opening.code) }
    ensures flushed { status_of result.0 ≡ 0 → writer_buffer writer.new ≡ [] }
    ensures there { status_of result.0 ≡ 1 → (result.0 ≡ Ending.Denied NotDone.AlreadyThere)
        × (IsClean result.1 → Spares files result.1) }
    ensures words { IsOfInit result.0 }
    ensures tells { IsClean result.1 → TellsMaking files result.0 result.1 }
    ensures left { IsClean result.1
        → SparesOrMakes files (created opening.code opening.today opening.next_serial) result.1 }
    ensures copied { HasSpareLog result.1 }
{
    let code = opening.code;
    match create_registry(alloc, files, seed, opening) {
        Ok(left) => announce(left, code, writer),
        Err((ending, left)) => (ending, left),
    }
}
