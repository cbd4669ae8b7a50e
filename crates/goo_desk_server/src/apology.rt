//! What is sent in place of an answer after a fault.
ghost use Rattle.std.specs.Prelude.{◌≡◌};
ghost use Rattle.goo_desk_heads.specs.Heads.{Begins};
ghost use Rattle.goo_desk_heads.specs.Requests.{seen as parts_seen};
ghost use Rattle.goo_desk_server.specs.ConnectionServed.{asks_for_head as asks_stated};
ghost use Rattle.goo_desk_server.specs.ConnectionServed.{IsApology, unread_text};

use arrayvec::ArrayString;
use goo_desk_heads::{Front, Received, RefusedHead, is_for_head, request_in};
use goo_desk_responses::{ROOM, Status, fixed_response};

/// Whether a head alone is asked for.
fn asks_for_head(request: &Result<Received<'_>, RefusedHead>) -> bool
    ensures { result ≡ asks_stated (parts_seen request.now) }
{
    match request {
        Ok(request) => is_for_head(request.method),
        Err(refused) => refused.is_head,
    }
}

/// What is sent in place of an answer after a fault. It takes no memory.
pub(crate) fn apology(bytes: &[u8], front: &Front) -> ArrayString<ROOM>
    requires { Begins bytes.now front.now }
    ensures { IsApology bytes.now result.bytes }
{
    let for_head = asks_for_head(&request_in(bytes, front));
    fixed_response(Status::Unavailable, None, for_head)
}

/// What is sent where there was no room to read a request, whoever asks. It takes no memory.
pub(crate) fn unread() -> ArrayString<ROOM>
    ensures { result.bytes ≡ unread_text }
{
    fixed_response(Status::Unavailable, None, false)
}
