//! A listener's connections, one after another.
ghost use Rattle.std.specs.Prelude.{◌≡◌, ◌++◌, ◌||◌, [], codes, decimal, OnOk};
ghost use Rattle.std.specs.Io.Buffered.{writer_buffer, writer_contents};
ghost use Rattle.std.specs.Io.KnownBytes.{Appends};
ghost use Rattle.goo_spec.specs.Sound.{IsSound};
ghost use Rattle.goo_desk_backend.specs.Tables.{ImportsAreRuns};
ghost use Rattle.goo_desk_server.specs.Connects.{IsLatest};
ghost use Rattle.goo_desk_server.specs.Runs.{KeepsPromise};
ghost use Rattle.goo_desk_server.specs.Serving.{IsEnded, IsNext, ServesAll};

use crate::apology::unread;
use crate::connection::serve_by_routes;
use crate::serve_fault::ServeFault;
use crate::server_fault::ServerFault;
use arrayvec::ArrayString;
use goo_desk_backend::Backend;
use goo_desk_listener::{Inlet, Listener, Outlet};
use goo_desk_routes::Routes;
use goo_files_streams::{WriteFault, write_whole};
use itoa::Buffer;
use std::alloc::Global;
use std::io::{BufWriter, Write};

/// The line that tells where a server listens.
fn listening(port: u16) -> ArrayString<64>
    ensures { result.bytes ≡ codes "listening 127.0.0.1:" ++ (decimal port ++ codes "\n") }
{
    let mut digits = Buffer::new();
    let mut line = ArrayString::new();
    line.push_str("listening 127.0.0.1:");
    line.push_str(digits.format(port));
    line.push_str("\n");
    line
}

/// Tells where a server listens, at once.
fn announce<W: Write + Drop>(port: u16, writer: &mut BufWriter<W>) -> Result<(), WriteFault>
    ensures announced { OnOk result
        (Appends (writer_contents W.contents writer.old) (writer_contents W.contents writer.new)
        (codes "listening 127.0.0.1:" ++ (decimal port ++ codes "\n"))) }
    ensures flushed { OnOk result (writer_buffer writer.new ≡ []) }
{
    write_whole(writer, listening(port).as_str().as_bytes())?;
    match writer.flush() {
        Ok(()) => Ok(()),
        Err(_) => Err(WriteFault),
    }
}

/// Serves a connection that was accepted. Whatever is wrong with the client ends this connection
/// alone. Where there is no room to read the request, the client is told 503.
fn serve_accepted<D: Backend, R: Inlet, W: Outlet>(
    alloc: Global,
    routes: &Routes,
    desk: &mut D,
    reader: &mut R,
    writer: &mut W,
) -> Result<(), ServerFault>
    ensures latest { IsLatest D.shows D.imports D.begins (R.remaining reader.old)
        (W.contents writer.old) (record {
          held = W.contents writer.new;
          failed = R.failed reader.new || W.failed writer.new;
        }) (D.seen desk.old) (D.seen desk.new) (D.leaves desk.old) (D.leaves desk.new) }
    ensures ended { IsEnded result (D.seen desk.old) (D.seen desk.new) }
{
    match serve_by_routes(alloc, routes, desk, reader, writer) {
        Ok(_) => Ok(()),
        Err(ServeFault::Read) => Ok(()),
        Err(ServeFault::Write) => Ok(()),
        Err(ServeFault::Memory) => {
            let _ = writer.send(unread().as_str().as_bytes());
            Ok(())
        }
        Err(ServeFault::Store) => Err(ServerFault::Store),
    }
}

/// Accepts a connection, serves it and gives it back.
fn serve_next<D: Backend, L: Listener>(
    alloc: Global,
    routes: &Routes,
    desk: &mut D,
    listener: &mut L,
) -> Result<(), ServerFault>
    ensures { IsNext D.shows D.imports D.begins (L.clients listener.old)
        (L.clients listener.new) (D.seen desk.old) (D.seen desk.new) (D.leaves desk.old)
        (D.leaves desk.new) result }
{
    let Ok((mut reader, mut writer)) = listener.accept() else {
        return Err(ServerFault::Accept);
    };
    let served = serve_accepted(alloc, routes, desk, &mut reader, &mut writer);
    listener.close(reader, writer);
    served
}

/// Serves so many connections in turn.
fn serve_all<D: Backend, L: Listener>(
    alloc: Global,
    routes: &Routes,
    desk: &mut D,
    listener: &mut L,
    count: u32,
) -> Result<(), ServerFault>
    ensures { ServesAll D.shows D.imports D.begins (L.clients listener.old)
        (L.clients listener.new) (D.seen desk.old) (D.seen desk.new) (D.leaves desk.new) count
        result }
{
    for _ in 0..count {
        serve_next(alloc, routes, desk, listener)?;
    }
    Ok(())
}

/// Tells on `writer` at which port of 127.0.0.1 it listens, and flushes that; then serves `count`
/// connections of a listener, one after another. A connection that fails, or that a deadline cuts
/// off, ends alone.
///
/// - `serves`: each connection was sent the whole answer to its own bytes, and nothing else, once a
///   crash finds the state that this leaves, or a 503; only where a call of its streams failed, a
///   beginning of it. It leaves the registry as answering its bytes leaves it, or as it was. However
///   the server ends, a crash finds what the connections leave; of the last one's requests perhaps
///   those alone that stand after a fault. It ends well only once as many were accepted as asked
///   for; after a fault fewer were, or the records failed at the last one.
/// - `promised`: what a registry promises after any list of requests holds of those that the
///   connections left applied. The bytes of each connection are those that its client sent, where
///   the listener tells them.
///
/// # Errors
///
/// See [`ServerFault`]: after each of them no more connections are served.
pub fn serve<D: Backend, L: Listener, W: Write + Drop>(
    alloc: Global,
    desk: &mut D,
    listener: &mut L,
    port: u16,
    count: u32,
    writer: &mut BufWriter<W>,
) -> Result<(), ServerFault>
    ensures announced { OnOk result
        (Appends (writer_contents W.contents writer.old) (writer_contents W.contents writer.new)
        (codes "listening 127.0.0.1:" ++ (decimal port ++ codes "\n"))) }
    ensures flushed { OnOk result (writer_buffer writer.new ≡ []) }
    ensures serves { ServesAll D.shows D.imports D.begins (L.clients listener.old)
        (L.clients listener.new) (D.seen desk.old) (D.seen desk.new) (D.leaves desk.new) count
        result }
    ensures promised { ImportsAreRuns D.imports D.begins → IsSound (D.seen desk.old).state
        → (D.seen desk.new).corruptions ≡ 0 → (D.seen desk.new).defects ≡ 0
        → KeepsPromise (L.clients listener.old).sends (L.clients listener.old).accepted
        (L.clients listener.new).accepted (D.seen desk.old).state (D.seen desk.new).state }
{
    // Before it tells that it listens: want of memory ends it here, and no connection waits.
    let Ok(routes) = Routes::new(alloc) else {
        return Err(ServerFault::Memory);
    };
    match announce(port, writer) {
        Ok(()) => serve_all(alloc, &routes, desk, listener, count),
        Err(_) => Err(ServerFault::Write),
    }
}
