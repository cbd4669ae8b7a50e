//! Serving one connection.
ghost use Rattle.std.specs.Prelude.{◌≡◌, ◌||◌};
ghost use Rattle.goo_desk_heads.specs.Heads.{Begins};
ghost use Rattle.goo_desk_server.specs.ConnectionEnds.{SendsReply, Serves, ServesHeard};

use crate::apology::apology;
use crate::reading::read_decided;
use crate::serve_fault::ServeFault;
use goo_desk_answers::answer_by_routes;
use goo_desk_backend::Backend;
use goo_desk_heads::Front;
use goo_desk_listener::{Inlet, Outlet};
use goo_desk_responses::Status;
use goo_desk_routes::Routes;
use goo_types::fault::Fault;
use std::alloc::Global;

/// A connection that was answered.
#[derive(Debug, Clone, Copy, PartialEq, Eq, Drop)]
pub struct Served {
    /// The status that was answered.
    pub status: Status,
}

/// Sends a reply of this status.
fn send_reply<W: Outlet>(writer: &mut W, status: Status, text: &[u8]) -> Result<Served, ServeFault>
    ensures { SendsReply (W.contents writer.old) (W.contents writer.new) (W.failed writer.new)
        status text.now result }
{
    writer.send(text)?;
    Ok(Served { status })
}

/// Answers these bytes, which begin with what is known.
fn serve_bytes<D: Backend, W: Outlet>(
    alloc: Global,
    routes: &Routes,
    desk: &mut D,
    bytes: &[u8],
    front: &Front,
    writer: &mut W,
) -> Result<Served, ServeFault>
    requires { Begins bytes.now front.now }
    ensures { Serves D.shows D.imports D.begins bytes.now (D.seen desk.old) (D.seen desk.new)
        (W.contents writer.old) (W.contents writer.new) (W.failed writer.new) (D.leaves desk.old)
        (D.leaves desk.new) result }
{
    match answer_by_routes(alloc, routes, desk, bytes, front) {
        Ok(answer) => send_reply(writer, answer.status, &answer.bytes),
        Err(Fault::Memory) => send_reply(
            writer,
            Status::Unavailable,
            apology(bytes, front).as_str().as_bytes(),
        ),
        Err(Fault::Store) => {
            let _ = writer.send(apology(bytes, front).as_str().as_bytes());
            Err(ServeFault::Store)
        }
    }
}

/// Reads a request until it is decided, and answers it by the routes of the registry. The caller
/// closes the connection.
///
/// `serves`: of the client's own bytes the whole answer is sent, or a fault's 503; only where a call
/// of the streams failed, a beginning of it or nothing. Want of memory in answering is answered 503.
/// An answer is sent only once a crash finds the state that it leaves. However it ends, a crash
/// finds the state that some of the bytes' requests lead to.
///
/// # Errors
///
/// See [`ServeFault`].
pub fn serve_by_routes<D: Backend, R: Inlet, W: Outlet>(
    alloc: Global,
    routes: &Routes,
    desk: &mut D,
    reader: &mut R,
    writer: &mut W,
) -> Result<Served, ServeFault>
    ensures serves { ServesHeard D.shows D.imports D.begins (R.remaining reader.old)
        (D.seen desk.old) (D.seen desk.new) (W.contents writer.old) (W.contents writer.new)
        (R.failed reader.new || W.failed writer.new) (D.leaves desk.old) (D.leaves desk.new)
        result }
{
    let arrived = read_decided(alloc, reader)?;
    serve_bytes(alloc, routes, desk, &arrived.bytes, &arrived.front, writer)
}

/// As [`serve_by_routes`], with routes that are made for it alone.
///
/// # Errors
///
/// See [`ServeFault`].
pub fn serve_one<D: Backend, R: Inlet, W: Outlet>(
    alloc: Global,
    desk: &mut D,
    reader: &mut R,
    writer: &mut W,
) -> Result<Served, ServeFault>
    ensures serves { ServesHeard D.shows D.imports D.begins (R.remaining reader.old)
        (D.seen desk.old) (D.seen desk.new) (W.contents writer.old) (W.contents writer.new)
        (R.failed reader.new || W.failed writer.new) (D.leaves desk.old) (D.leaves desk.new)
        result }
{
    let Ok(routes) = Routes::new(alloc) else {
        return Err(ServeFault::Memory);
    };
    serve_by_routes(alloc, &routes, desk, reader, writer)
}
