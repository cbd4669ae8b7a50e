//! A registry over any shelf, served over HTTP.
ghost use Rattle.std.specs.Prelude.{◌≡◌, []};
ghost use Rattle.std.specs.Io.Buffered.{writer_buffer, writer_contents};
ghost use Rattle.goo_cli_ending.specs.Endings.{status_of};
ghost use Rattle.goo_spec.specs.Sound.{IsSound};
ghost use Rattle.goo_desk_server.specs.Runs.{KeepsPromise};
ghost use Rattle.goo_registry.specs.Desks.{seen_of};
ghost use Rattle.goo_cli_files.specs.ServesConnections.{IsAnnounced, ServesTo};
ghost use Rattle.goo_cli_files.specs.ServerEndings.{ending_of_server, IsCounted, IsOfServer};

use goo_cli::Serving;
use goo_cli_ending::{Ending, Failure};
use goo_core_shelf::shelf::Shelf;
use goo_desk_server::{Listener, ServerFault, serve};
use goo_registry::Registry;
use std::alloc::Global;
use std::io::{BufWriter, Write};

/// How the program ends where a server ended.
fn ending_of(served: Result<(), ServerFault>) -> Ending
    ensures value { result ≡ ending_of_server served }
    ensures words { IsOfServer result }
{
    match served {
        Ok(()) => Ending::Done,
        Err(ServerFault::Write) => Ending::Failed(Failure::Write),
        Err(ServerFault::Accept) => Ending::Failed(Failure::Read),
        Err(ServerFault::Store) => Ending::Failed(Failure::Store),
        Err(ServerFault::Memory) => Ending::Failed(Failure::Memory),
    }
}

/// Serves so many connections of a listener by a registry, one after another. Where the port can't
/// be had, that is a fault of what is read.
///
/// - `announced`, `flushed`: status 0 only where it listens at that port of this machine, and the
///   line that tells so is written, with nothing left in the writer's buffer.
/// - `counted`: status 0 just where as many connections were accepted as asked for, unless the
///   records failed at the last one; never more are.
/// - `serves`, `promised`: as of [`serve`].
/// - `words`: it ends as a server does.
pub(crate) fn serve_registry<S: Shelf, L: Listener, W: Write + Drop>(
    alloc: Global,
    registry: &mut Registry<S>,
    serving: Serving,
    listener: &mut L,
    writer: &mut BufWriter<W>,
) -> Ending
    ensures words { IsOfServer result }
    ensures announced { status_of result ≡ 0
        → IsAnnounced serving.port (L.clients listener.new).at
        (writer_contents W.contents writer.old) (writer_contents W.contents writer.new) }
    ensures flushed { status_of result ≡ 0 → writer_buffer writer.new ≡ [] }
    ensures counted { IsCounted result (L.clients listener.old).accepted
        (L.clients listener.new).accepted serving.count }
    ensures serves { ServesTo (L.clients listener.old) (L.clients listener.new)
        (seen_of (S.seen registry.old.shelf)) (seen_of (S.seen registry.new.shelf))
        (S.seen registry.new.shelf).leaves }
    ensures promised { IsSound (S.seen registry.old.shelf).state
        → (S.seen registry.new.shelf).corruptions ≡ 0 → (S.seen registry.new.shelf).defects ≡ 0
        → KeepsPromise (L.clients listener.old).sends (L.clients listener.old).accepted
        (L.clients listener.new).accepted
        (S.seen registry.old.shelf).state (S.seen registry.new.shelf).state }
{
    if listener.listen(serving.port).is_err() {
        return Ending::Failed(Failure::Read);
    }
    let served = serve(
        alloc,
        registry,
        listener,
        serving.port,
        serving.count,
        writer,
    );
    ending_of(served)
}
