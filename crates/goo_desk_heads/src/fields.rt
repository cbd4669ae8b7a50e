//! The fields of a head that tell how long the body is and who calls. A request of HTTP/1.1 without
//! `Host`, and any with two, is refused (RFC 9112, section 3.2), and so is a transfer coding
//! (section 6.1).
ghost use Rattle.std.specs.Prelude.{◌≡◌, ◌≤◌, length, map, All, option_map, IfOk, IfSome};
ghost use Rattle.std.specs.List.{list_all};
ghost use Rattle.std.specs.Char.{is_ascii_digit};
ghost use Rattle.httparse.specs.Spans.{IsHeaderWithin, IsWithin, header_bytes, span_bytes};
ghost use Rattle.goo_desk_heads.specs.Fields.{Occurs, values_of, same_name};
ghost use Rattle.goo_desk_heads.specs.Fields.{length_in as length_stated};
ghost use Rattle.goo_desk_heads.specs.Fields.{body_length as body_length_stated, sole, most_body};

use crate::occurrence::Occurrence;
use crate::refusal::HeadFault;
use httparse::spans::{HeaderSpan, Span};

/// The most bytes of a body.
pub const MOST_BODY: u64 = 1_048_576;

/// Whether a field has this name, in letters of either case.
fn is_named(name: &[u8], wanted: &str) -> bool
    ensures { result ≡ same_name name.now wanted.now }
{
    name.eq_ignore_ascii_case(wanted.as_bytes())
}

/// How often a field occurs, and where its value is where that is once.
fn field_value(buf: &[u8], headers: &[HeaderSpan], wanted: &str) -> Occurrence
    requires { All (IsHeaderWithin (length buf.now)) headers.now }
    ensures { Occurs buf.now
        (values_of wanted.now (map (header_bytes buf.now) headers.now)) result }
{
    let mut found = Occurrence::Absent;
    for header in headers {
        if is_named(header.name.of(buf), wanted) {
            found = match found {
                Occurrence::Absent => Occurrence::Once(header.value),
                Occurrence::Once(_) | Occurrence::Repeated => Occurrence::Repeated,
            };
        }
    }
    found
}

/// Where the value of a field is that occurs just once.
///
/// Two fields are none: a front door that adds its own caller must not be outvoted by another.
pub(crate) fn sole_value(buf: &[u8], headers: &[HeaderSpan], wanted: &str) -> Option<Span>
    requires { All (IsHeaderWithin (length buf.now)) headers.now }
    ensures value { option_map (span_bytes buf.now) result
        ≡ sole (values_of wanted.now (map (header_bytes buf.now) headers.now)) }
    ensures within { IfSome result (IsWithin (length buf.now)) }
{
    match field_value(buf, headers, wanted) {
        Occurrence::Absent => None,
        Occurrence::Once(value) => Some(value),
        Occurrence::Repeated => None,
    }
}

/// Whether each byte is a digit.
fn is_digits(text: &[u8]) -> bool
    ensures { result ≡ list_all is_ascii_digit text.now }
{
    text.iter().all(|byte| byte.is_ascii_digit())
}

/// The length that a value of `Content-Length` states.
fn length_in(value: &[u8]) -> Result<u64, HeadFault>
    ensures value { result ≡ length_stated value.now }
    ensures few { IfOk result (λ length. length ≤ most_body) }
{
    if value.is_empty() || value.len() > 19 || !is_digits(value) {
        return Err(HeadFault::BadRequest);
    }
    let Ok(text) = str::from_utf8(value) else {
        return Err(HeadFault::BadRequest);
    };
    match text.parse::<u64>() {
        Ok(stated) if stated <= MOST_BODY => Ok(stated),
        Ok(_) => Err(HeadFault::TooLarge),
        Err(_) => Err(HeadFault::BadRequest),
    }
}

/// The length of the body that follows a head, or why the head is refused.
#[tactic(auto, unfolding(crate::specs::Fields::body_length))]
pub(crate) fn body_length(minor: u8, buf: &[u8], headers: &[HeaderSpan]) -> Result<u64, HeadFault>
    requires { All (IsHeaderWithin (length buf.now)) headers.now }
    ensures value { result ≡ body_length_stated minor (map (header_bytes buf.now) headers.now) }
    ensures few { IfOk result (λ length. length ≤ most_body) }
{
    match field_value(buf, headers, "host") {
        Occurrence::Repeated => return Err(HeadFault::BadRequest),
        Occurrence::Absent if minor == 1 => return Err(HeadFault::BadRequest),
        Occurrence::Absent | Occurrence::Once(_) => {}
    }
    match field_value(buf, headers, "transfer-encoding") {
        Occurrence::Absent => {}
        Occurrence::Once(_) | Occurrence::Repeated => return Err(HeadFault::NotImplemented),
    }
    match field_value(buf, headers, "content-length") {
        Occurrence::Absent => Ok(0),
        Occurrence::Once(value) => length_in(value.of(buf)),
        Occurrence::Repeated => Err(HeadFault::BadRequest),
    }
}
