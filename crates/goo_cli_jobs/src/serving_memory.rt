//! The command `serve` over a registry in memory.
ghost use Rattle.std.specs.Prelude.{◌≡◌, []};
ghost use Rattle.std.specs.Io.Buffered.{writer_buffer, writer_contents};
ghost use Rattle.goo_spec.specs.Created.{created};
ghost use Rattle.goo_cli_ending.specs.Endings.{status_of};
ghost use Rattle.goo_cli_files.specs.ServerEndings.{IsCounted, IsOfServer};
ghost use Rattle.goo_cli_files.specs.ServesConnections.{IsAnnounced, ServesNew};

use goo_cli::{Opening, Serving};
use goo_cli_ending::Ending;
use goo_cli_files::serve_new;
use goo_cli_registry::in_memory::open_in_memory;
use goo_desk_server::Listener;
use std::alloc::Global;
use std::io::{BufWriter, Write};

/// Serves so many connections of a listener by a new registry whose records are tables in memory,
/// and are gone when the program ends.
///
/// - `announced`, `flushed`: status 0 only where it listens at that port of this machine, and the
///   line that tells so is written, with nothing left in the writer's buffer.
/// - `counted`: status 0 just where as many connections were accepted as asked for, unless the
///   records failed at the last one; never more are.
/// - `serves`: what each connection was sent, as of `serve` of `goo_desk_server`, by the registry
///   that the opening names; or none was accepted.
/// - `words`: it ends as a server does.
pub fn serve_in_memory<L: Listener, W: Write + Drop>(
    alloc: Global,
    opening: Opening,
    serving: Serving,
    listener: &mut L,
    writer: &mut BufWriter<W>,
) -> Ending
    ensures words { IsOfServer result }
    ensures announced { status_of result ≡ 0
        → IsAnnounced serving.port (L.clients listener.new).at
        (writer_contents W.contents writer.old) (writer_contents W.contents writer.new) }
    ensures flushed { status_of result ≡ 0 → writer_buffer writer.new ≡ [] }
    ensures counted { IsCounted result (L.clients listener.old).accepted
        (L.clients listener.new).accepted serving.count }
    ensures serves { ServesNew (L.clients listener.old) (L.clients listener.new)
        (created opening.code opening.today opening.next_serial) }
{
    let conn = match open_in_memory(alloc) {
        Ok(conn) => conn,
        Err(failure) => return Ending::Failed(failure),
    };
    let (ending, _conn) = serve_new(alloc, conn, opening, serving, listener, writer);
    ending
}
