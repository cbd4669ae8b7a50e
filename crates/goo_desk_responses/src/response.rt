//! Responses, written at the end of a text that takes no memory.
ghost use Rattle.std.specs.Prelude.{◌≡◌, ◌++◌, ◌∷◌, [], ◌+◌, ◌≤◌, ◌<◌, ◌^◌, codes, decimal, length};
ghost use Rattle.std.specs.Prelude.{false, IfOk};
ghost use Rattle.arrayvec.specs.ArrayString.{array_string_len};
ghost use Rattle.goo_desk_responses.specs.Responses.{Response, allow_line as allow_line_stated};
ghost use Rattle.goo_desk_responses.specs.Responses.{head_text, response_text, fixed, response_of};

use crate::content::Content;
use crate::status::Status;
use arrayvec::ArrayString;
use goo_desk_heads::Method;
use itoa::Buffer;
use std::alloc::{AllocError, Global};

/// Room for a head and the text of an outcome.
pub const ROOM: usize = 512;

/// The line that names the method of a route.
fn allow_line(allow: Option<Method>) -> &'static str
    ensures value { result.now ≡ allow_line_stated allow }
    ensures short { length result.now ≤ 13 }
{
    match allow {
        None => "",
        Some(Method::Get) => "Allow: GET\r\n",
        Some(Method::Post) => "Allow: POST\r\n",
    }
}

/// Writes a number of up to twenty digits.
fn push_integer(out: &mut ArrayString<ROOM>, integer: u64)
    requires { array_string_len out.old + 20 ≤ 512 }
    ensures bytes { out.new.bytes ≡ out.old.bytes ++ decimal integer }
    ensures len { array_string_len out.new ≤ array_string_len out.old + 20 }
{
    let mut digits = Buffer::new();
    out.push_str(digits.format(integer));
}

/// Writes a text between two others.
fn push_line(out: &mut ArrayString<ROOM>, before: &str, text: &str)
    requires { array_string_len out.old + length before.now + length text.now + 2 ≤ 512 }
    ensures bytes { out.new.bytes ≡ out.old.bytes ++ (before.now ++ text.now ++ codes "\r\n") }
    ensures len { array_string_len out.new
        ≤ array_string_len out.old + length before.now + length text.now + 2 }
{
    out.push_str(before);
    out.push_str(text);
    out.push_str("\r\n");
}

/// Writes a number and a text behind it.
fn push_counted(out: &mut ArrayString<ROOM>, before: &str, number: u64, after: &str)
    requires { array_string_len out.old + length before.now + 20 + length after.now ≤ 512 }
    ensures bytes { out.new.bytes ≡ out.old.bytes ++ (before.now ++ decimal number ++ after.now) }
    ensures len { array_string_len out.new
        ≤ array_string_len out.old + length before.now + 20 + length after.now }
{
    out.push_str(before);
    push_integer(out, number);
    out.push_str(after);
}

/// The head of a response whose body has `length` bytes.
#[tactic(auto, unfolding(crate::specs::Responses::head_text))]
fn head(status: Status, content: Content, allow: Option<Method>, length: u64) -> ArrayString<ROOM>
    ensures bytes { result.bytes ≡ head_text status content allow length }
    ensures len { array_string_len result ≤ 256 }
{
    let mut out = ArrayString::new();
    push_counted(&mut out, "HTTP/1.1 ", u64::from(status.code()), " ");
    push_line(&mut out, "", status.phrase());
    push_line(&mut out, "Content-Type: ", content.media_type());
    out.push_str(allow_line(allow));
    push_counted(
        &mut out,
        "Content-Length: ",
        length,
        "\r\nConnection: close\r\n\r\n",
    );
    out
}

/// A response with a body of at most 256 bytes. It takes no memory.
pub fn short_response(status: Status, content: Content, body: &str) -> ArrayString<ROOM>
    requires { length body.now ≤ 256 }
    ensures { result.bytes ≡ response_text false (response_of status content body.now) }
{
    let mut out = head(status, content, None, body.len() as u64);
    out.push_str(body);
    out
}

/// A response that says no more than its status, and where `allow` is given, the method of the
/// route. The body is left off where it is asked for its head alone. It takes no memory.
pub fn fixed_response(status: Status, allow: Option<Method>, for_head: bool) -> ArrayString<ROOM>
    ensures { result.bytes ≡ response_text for_head (fixed status allow) }
{
    let phrase = status.phrase();
    let mut out = head(status, Content::Text, allow, phrase.len() as u64 + 1);
    if !for_head {
        out.push_str(phrase);
        out.push_str("\n");
    }
    out
}

/// A response with a body of any length. The head goes into the body's own memory, so that a long
/// text is held once.
///
/// # Errors
///
/// `AllocError` where memory for it was refused.
pub fn long_response(status: Status, content: Content, body: Vec<u8>) -> Result<Vec<u8>, AllocError>
    ensures { IfOk result
        (λ bytes. bytes.items ≡ response_text false (response_of status content body.items)) }
{
    let head = head(status, content, None, body.len() as u64);
    let mut bytes = body;
    bytes.extend_from_slice(head.as_str().as_bytes())?;
    bytes.rotate_right(head.len());
    Ok(bytes)
}
