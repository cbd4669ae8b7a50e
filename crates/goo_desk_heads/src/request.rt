//! The request that all the bytes of a stream are, or why they are refused.
ghost use Rattle.std.specs.Prelude.{◌≡◌, ◌<◌, ◌≤◌, ◌+◌, length, drop, IfNone, IfSome, IsUtf8};
ghost use Rattle.std.specs.Prelude.{option_map};
ghost use Rattle.httparse.specs.Spans.{IsWithin, span_bytes};
ghost use Rattle.goo_desk_heads.specs.Requests.{Decides, seen, IsSure, IsWaiting, refused_as};
ghost use Rattle.goo_desk_heads.specs.Requests.{whole_request, is_for_head as is_for_head_stated};
ghost use Rattle.goo_desk_heads.specs.Heads.{Begins, most_head};
ghost use Rattle.goo_desk_heads.specs.Fields.{most_body};

use crate::front::{Front, Head, front_of};
use crate::refusal::HeadFault;
use httparse::spans::Span;

/// The parts of a whole request.
#[derive(Clone, Copy, Drop)]
pub struct Received<'b> {
    /// The method.
    pub method: &'b [u8],
    /// The target.
    pub target: &'b str,
    /// The value of `GOO-Caller`, where that field is there once.
    pub caller: Option<&'b [u8]>,
    /// The body.
    pub body: &'b [u8],
}

/// A request that is refused before its target is looked at.
#[derive(Debug, Clone, Copy, PartialEq, Eq, Drop)]
pub struct RefusedHead {
    /// Why.
    pub why: HeadFault,
    /// Whether it was a request for a head alone.
    pub is_head: bool,
}

/// A request that is refused, with the method that it has.
fn refuse(method: &[u8], why: HeadFault) -> RefusedHead
    ensures { result ≡ refused_as method.now why }
{
    RefusedHead {
        why,
        is_head: is_for_head(method),
    }
}

/// Whether the answer to a method leaves its body off.
pub fn is_for_head(method: &[u8]) -> bool
    ensures { result ≡ is_for_head_stated method.now }
{
    method == b"HEAD".as_slice()
}

/// Bytes that are a text.
fn text_of(bytes: &[u8]) -> &str
    requires { IsUtf8 bytes.now }
    ensures { result.now ≡ bytes.now }
{
    str::from_utf8(bytes).unwrap()
}

/// The bytes of a value, where there is one.
fn value_of(bytes: &[u8], value: Option<Span>) -> Option<&[u8]>
    requires { IfSome value (IsWithin (length bytes.now)) }
    ensures { option_map (λ found. found.now) result ≡ option_map (span_bytes bytes.now) value }
{
    match value {
        Some(value) => Some(value.of(bytes)),
        None => None,
    }
}

/// The request of a head, once its body has come.
fn whole<'b>(bytes: &'b [u8], head: &Head) -> Result<Received<'b>, RefusedHead>
    requires method { IsWithin (length bytes.now) head.now.method }
    requires target { IsWithin (length bytes.now) head.now.target }
    requires text { IsUtf8 (span_bytes bytes.now head.now.target) }
    requires caller { IfSome head.now.caller (IsWithin (length bytes.now)) }
    requires end { head.now.end ≤ length bytes.now }
    ensures { seen result
        ≡ whole_request (span_bytes bytes.now head.now.method)
        (span_bytes bytes.now head.now.target)
        (option_map (span_bytes bytes.now) head.now.caller) (drop head.now.end bytes.now)
        head.now.length }
{
    let method = head.method.of(bytes);
    let rest = &bytes[head.end..];
    let length = match head.length {
        Ok(length) => length,
        Err(why) => return Err(refuse(method, why)),
    };
    if (rest.len() as u64) < length {
        return Err(refuse(method, HeadFault::BadRequest));
    }
    Ok(Received {
        method,
        target: text_of(head.target.of(bytes)),
        caller: value_of(bytes, head.caller),
        body: &rest[..length as usize],
    })
}

/// The request at the front of all the bytes of a stream, which is known, or why it is refused.
///
/// # Errors
///
/// As for [`read_request`].
pub fn request_in<'b>(bytes: &'b [u8], front: &Front) -> Result<Received<'b>, RefusedHead>
    requires { Begins bytes.now front.now }
    ensures { Decides bytes.now (seen result) }
{
    match front {
        Front::Unfinished | Front::Refused => Err(RefusedHead {
            why: HeadFault::BadRequest,
            is_head: false,
        }),
        Front::Head(head) => whole(bytes, head),
    }
}

/// The request at the front of all the bytes of a stream, or why it is refused.
///
/// # Errors
///
/// `BadRequest` where the bytes don't begin with a head. Else the first of these that holds:
/// `BadRequest` for HTTP/1.1 without `Host` or for a second `Host` (RFC 9112, section 3.2),
/// `NotImplemented` for a `Transfer-Encoding`, `BadRequest` for a second `Content-Length` or one
/// that isn't 1 to 19 digits, `TooLarge` for a length above [`MOST_BODY`](crate::MOST_BODY),
/// `BadRequest` where fewer bytes follow than the length.
pub fn read_request(bytes: &[u8]) -> Result<Received<'_>, RefusedHead>
    ensures { Decides bytes.now (seen result) }
{
    request_in(bytes, &front_of(bytes))
}

/// At how many bytes those of a stream that begins with these are looked at next, where what these
/// begin with is known. `None` where the bytes that may follow these change nothing: all bytes that
/// begin with these are then read, or refused, as these are.
///
/// - `waits`: where they may change it, no head has come yet, and a byte more may end it; or not
///   all of its body, which ends at this length.
pub fn bytes_wanted(bytes: &[u8], front: &Front) -> Option<usize>
    requires { Begins bytes.now front.now }
    ensures sure { IfNone result (IsSure bytes.now) }
    ensures waits { IfSome result (λ wanted. IsWaiting bytes.now wanted) }
    ensures later { IfSome result (λ wanted. length bytes.now < wanted) }
    ensures small { IfSome result (λ wanted. wanted ≤ most_head + most_body) }
{
    match front {
        Front::Unfinished => Some(bytes.len() + 1),
        Front::Refused => None,
        Front::Head(head) => match head.length {
            Ok(length) => {
                let wanted = head.end + length as usize;
                if wanted <= bytes.len() {
                    None
                } else {
                    Some(wanted)
                }
            }
            Err(_) => None,
        },
    }
}
