//! The command `serve`.
ghost use Rattle.std.specs.Prelude.{◌≡◌, [], false, IsTrue};
ghost use Rattle.std.specs.Io.Buffered.{writer_buffer, writer_contents};
ghost use Rattle.sqlite.specs.Files.{image_of, HoldsDatabase};
ghost use Rattle.sqlite.specs.Held.{state as view};
ghost use Rattle.sqlite.specs.Tree.{Trees};
ghost use Rattle.goo_spec.specs.Created.{created};
ghost use Rattle.goo_store_opening.specs.Versions.{state_held};
ghost use Rattle.goo_store_judge.specs.Moments.{moment};
ghost use Rattle.goo_desk_server.specs.Runs.{KeepsPromise};
ghost use Rattle.goo_cli_ending.specs.Endings.{status_of};
ghost use Rattle.goo_cli_files.specs.ServerEndings.{IsCounted, IsOfServer};
ghost use Rattle.goo_cli_files.specs.ServesConnections.{IsAnnounced, IsUnserved};
ghost use Rattle.goo_cli_files.specs.ServesConnections.{ServesConnections, ServesNew};
ghost use Rattle.goo_cli_registry.specs.Closings.{HasSpareLog, HoldsSome, IfRefused, IsClean};
ghost use Rattle.goo_cli_registry.specs.Refusals.{IsTurnedAway};
ghost use Rattle.goo_cli_registry.specs.Openings.{IsRun};
ghost use Rattle.goo_cli_registry.specs.Durable.{IfOpened};
ghost use Rattle.goo_cli_files.specs.Durable.{IsLeftToFind};

use crate::serve_registry::serve_registry;
use goo_cli::{Opening, Serving};
use goo_cli_ending::Ending;
use goo_cli_registry::closing::{Left, close_registry};
use goo_cli_registry::opening::{begin, failure_of, open_registry};
use goo_cli_registry::renewal_line::RenewalLine;
use goo_desk_server::Listener;
use goo_registry::Registry;
use sqlite::{Alter, Connection, Files};
use sqlite_disk::Disk;
use std::alloc::Global;
use std::io::{BufWriter, Write};

/// Serves so many connections by a new registry in a database that is empty, and hands the database
/// back.
///
/// - `promised`: what a registry promises after any list of requests holds of the new registry, the
///   requests that the connections left applied, and what the database holds then. A fault of the
///   records, and want of memory, may have kept the registry from being made.
/// - `serves`: what each connection was sent, as of `serve` of `goo_desk_server`, by that registry;
///   or none was accepted.
pub fn serve_new<S: Alter, L: Listener, W: Write + Drop>(
    alloc: Global,
    conn: Connection<S>,
    opening: Opening,
    serving: Serving,
    listener: &mut L,
    writer: &mut BufWriter<W>,
) -> (Ending, Connection<S>)
    requires outside { conn.in_transaction ≡ false }
    ensures words { IsOfServer result.0 }
    ensures announced { status_of result.0 ≡ 0
        → IsAnnounced serving.port (L.clients listener.new).at
        (writer_contents W.contents writer.old) (writer_contents W.contents writer.new) }
    ensures flushed { status_of result.0 ≡ 0 → writer_buffer writer.new ≡ [] }
    ensures counted { IsCounted result.0 (L.clients listener.old).accepted
        (L.clients listener.new).accepted serving.count }
    ensures serves { (moment (view S.Store result.1) false).corruptions ≡ 0
        → ServesNew (L.clients listener.old) (L.clients listener.new)
        (created opening.code opening.today opening.next_serial) }
    ensures promised { IsRun result.0 → (moment (view S.Store result.1) false).corruptions ≡ 0
        → (moment (view S.Store result.1) false).defects ≡ 0
        → KeepsPromise (L.clients listener.old).sends (L.clients listener.old).accepted
        (L.clients listener.new).accepted
        (created opening.code opening.today opening.next_serial)
        (moment (view S.Store result.1) false).state }
{
    match begin(alloc, conn, opening) {
        Ok(shelf) => {
            let mut registry = Registry::new(shelf);
            let ending = serve_registry(alloc, &mut registry, serving, listener, writer);
            (ending, registry.into_shelf().into_connection())
        }
        Err((conn, fault)) => (Ending::Failed(failure_of(fault)), conn),
    }
}

/// Serves so many connections of a listener by the registry that files hold, and closes it; `line`
/// tells if it is of version 1. What is said holds so long as the files returned what was written,
/// and `db` is the database that they held.
///
/// - `announced`, `flushed`: status 0 only where it listens at that port of this machine, and the
///   line that tells so is written, with nothing left in the writer's buffer.
/// - `serves`: what each connection was sent, as of `serve` of `goo_desk_server`; and where the log
///   could not be copied, the next opening finds, after a crash too, what the connections leave; of
///   the last one's requests perhaps those alone that stand after a fault.
/// - `counted`: status 0 just where as many connections were accepted as asked for, unless the
///   records failed at the last one; never more are.
/// - `promised`: what a registry promises after any list of requests holds of what the files held,
///   the requests that the connections left applied, and what the file alone holds then, where the
///   log could be copied. The bytes of each connection are those that its client sent, where the
///   listener tells them.
/// - `words`: it ends as a server does, where a registry was opened.
/// - `refused`, `turned_away`: where there is none, the word for what the files hold is told, or a fault
///   of the store or want of memory; nothing was written, no port was asked for, and no harm came to
///   what the files held, after a crash too: but for a registry of version 1, the same registry in
///   version 2 may be found then.
/// - `copied`: a log that is said to be copied into the database file is.
pub fn serve_in_files<D: Disk + Drop, L: Listener, W: Write + Drop, E: Write>(
    alloc: Global,
    files: Files<D>,
    seed: u64,
    serving: Serving,
    listener: &mut L,
    writer: &mut BufWriter<W>,
    line: &mut RenewalLine<'_, E>,
) -> (Ending, Left<D>)
    requires log { IsTrue (D.Disk.is_usable files.log) }
    requires db { IsTrue (D.Disk.is_usable files.db) }
    ensures words { IfOpened result.1 (IsOfServer result.0) }
    ensures refused { IfRefused result.1
        (λ _. IsUnserved result.0 (writer_contents W.contents writer.old)
        (writer_contents W.contents writer.new) (L.clients listener.old)
        (L.clients listener.new)) }
    ensures announced { status_of result.0 ≡ 0
        → IsAnnounced serving.port (L.clients listener.new).at
        (writer_contents W.contents writer.old) (writer_contents W.contents writer.new) }
    ensures flushed { status_of result.0 ≡ 0 → writer_buffer writer.new ≡ [] }
    ensures counted { IsCounted result.0 (L.clients listener.old).accepted
        (L.clients listener.new).accepted serving.count }
    ensures promised { IsClean result.1 → (db : Trees) → HoldsDatabase (image_of D.Disk files) db
        → HoldsSome result.1
        (KeepsPromise (L.clients listener.old).sends (L.clients listener.old).accepted
        (L.clients listener.new).accepted (state_held db)) }
    ensures turned_away { IsClean result.1 → IfRefused result.1 (IsTurnedAway files result.0) }
    ensures copied { HasSpareLog result.1 }
    ensures serves { IsClean result.1 → (db : Trees) → HoldsDatabase (image_of D.Disk files) db
        → IfOpened result.1 (ServesConnections (L.clients listener.old) (L.clients listener.new)
        (state_held db) (IsLeftToFind result.1)) }
{
    match open_registry(alloc, files, seed, line) {
        Ok(shelf) => {
            let mut registry = Registry::new(shelf);
            let ending = serve_registry(alloc, &mut registry, serving, listener, writer);
            (ending, close_registry(registry.into_shelf()))
        }
        Err((failure, left)) => (Ending::Failed(failure), Left::Refused(left)),
    }
}
