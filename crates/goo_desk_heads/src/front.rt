//! Whether bytes begin with a head.
ghost use Rattle.std.specs.Prelude.{◌≡◌};
ghost use Rattle.goo_desk_heads.specs.Heads.{Begins, HasBegun};

use crate::fields::{body_length, sole_value};
use crate::refusal::HeadFault;
use httparse::Status;
use httparse::spans::{EMPTY_HEADER_SPAN, Span, parse_request};

/// The most bytes of a head.
pub const MOST_HEAD: usize = 8_192;

/// The most fields in a head.
pub const MOST_FIELDS: usize = 32;

/// What a head asks for, by where it stands among the bytes that begin with it. So it is told once,
/// and not again of the bytes and more.
#[derive(Clone, Copy, Drop)]
pub struct Head {
    /// Where the method is.
    pub method: Span,
    /// Where the target is.
    pub target: Span,
    /// Where the value of `GOO-Caller` is, where that field is there once.
    pub caller: Option<Span>,
    /// At how many bytes the head ends.
    pub end: usize,
    /// How many bytes of body follow the head, or why it is refused.
    pub length: Result<u64, HeadFault>,
}

/// What bytes begin with.
#[derive(Clone, Copy, Drop)]
pub enum Front {
    /// No head so far, and fewer bytes than a head may have.
    Unfinished,
    /// No head, whatever follows.
    Refused,
    /// This head.
    Head(Head),
}

/// What bytes begin with.
pub fn front_of(bytes: &[u8]) -> Front
    ensures { Begins bytes.now result }
{
    let mut headers = [EMPTY_HEADER_SPAN; MOST_FIELDS];
    let front = &bytes[..bytes.len().min(MOST_HEAD)];
    match parse_request(front, &mut headers) {
        Ok(Status::Complete(head)) => {
            let fields = &headers[..head.headers];
            Front::Head(Head {
                method: head.method,
                target: head.path,
                caller: sole_value(front, fields, "goo-caller"),
                end: head.len,
                length: body_length(head.version, front, fields),
            })
        }
        Ok(Status::Partial) => {
            if bytes.len() < MOST_HEAD {
                Front::Unfinished
            } else {
                Front::Refused
            }
        }
        Err(_) => Front::Refused,
    }
}

/// What bytes begin with, where so much is known of fewer of them. A head is parsed once.
pub fn front_after(known: Front, bytes: &[u8]) -> Front
    requires { HasBegun bytes.now known }
    ensures { Begins bytes.now result }
{
    match known {
        Front::Unfinished => front_of(bytes),
        Front::Refused => Front::Refused,
        Front::Head(head) => Front::Head(head),
    }
}
