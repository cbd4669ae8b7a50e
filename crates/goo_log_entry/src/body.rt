//! A body in a line: as text, or in base64.
ghost use Rattle.std.specs.Prelude.{◌≡◌, ◌++◌, ℕ, List, MatchOption, IfOk, OnOk, true, false, length};
ghost use Rattle.base64.specs.Engines.{standard};
ghost use Rattle.base64.specs.GeneralPurpose.{IsBytes, encode_of};
ghost use Rattle.json.specs.Print.{quoted};
ghost use Rattle.json.specs.Value.{value_view};
ghost use Rattle.goo_log_entry.specs.Body.{is_plain};
ghost use Rattle.goo_log_entry.specs.Read.{IsBodyIn};
ghost use Rattle.goo_log_entry.specs.Tokens.{body_tokens};

use crate::members::push_text;
use base64::DecodeAllocError;
use base64::engine::general_purpose::STANDARD;
use json::{Value, Writer};
use std::alloc::{AllocError, Global};

/// The bytes of a body that is text whatever its length in JSON.
const SHORT: usize = 4_096;

/// The bytes of a text in quotes.
#[tactic(auto, unfolding(json::specs::Print::print_from))]
fn quoted_len(alloc: Global, text: &str) -> Result<usize, AllocError>
    ensures { IfOk result (λ n. n ≡ length (quoted text.now)) }
{
    let mut writer = Writer::new(Vec::new(alloc));
    writer.string(text)?;
    Ok(writer.into_inner().len())
}

/// A body as text, where it is written so.
#[tactic(auto, unfolding(crate::specs::Body::is_plain))]
fn plain_text(alloc: Global, body: &[u8]) -> Result<Option<&str>, AllocError>
    ensures { IfOk result
        (λ found. MatchOption found (is_plain body.now ≡ false)
        (λ text. (text.now ≡ body.now) × (is_plain body.now ≡ true))) }
{
    let Ok(text) = str::from_utf8(body) else {
        return Ok(None);
    };
    if body.len() < SHORT {
        return Ok(Some(text));
    }
    if quoted_len(alloc, text)? > body.len() + body.len() / 3 {
        return Ok(None);
    }
    Ok(Some(text))
}

/// Adds the body.
pub(crate) fn push_body(alloc: Global, writer: &mut Writer, body: &[u8]) -> Result<(), AllocError>
    ensures tokens { OnOk result (writer.new.tokens ≡ writer.old.tokens ++ body_tokens body.now) }
    ensures before { writer.new.before ≡ writer.old.before }
{
    if let Some(text) = plain_text(alloc, body)? {
        return push_text(writer, "body", text);
    }
    let text = STANDARD.encode(alloc, body)?;
    push_text(writer, "body64", text.as_str())
}

/// The bytes of a text.
fn bytes_of(alloc: Global, text: &str) -> Result<Vec<u8>, AllocError>
    ensures { IfOk result (λ bytes. bytes.items ≡ text.now) }
{
    let mut bytes = Vec::new(alloc);
    bytes.extend_from_slice(text.as_bytes())?;
    Ok(bytes)
}

/// The bytes that a text in base64 stands for; none where it is no such text.
fn decoded(alloc: Global, text: &str) -> Result<Vec<u8>, AllocError>
    ensures { (body : List ℕ) → IsBytes body → text.now ≡ encode_of standard body
        → IfOk result (λ bytes. bytes.items ≡ body) }
{
    match STANDARD.decode(alloc, text.as_bytes()) {
        Ok(bytes) => Ok(bytes),
        Err(DecodeAllocError::OutOfMemory) => Err(AllocError),
        Err(_) => Ok(Vec::new(alloc)),
    }
}

/// The body, in a member of either name; empty where there is none.
pub(crate) fn body_at(alloc: Global, value: &Value<'_>) -> Result<Vec<u8>, AllocError>
    ensures { IfOk result (λ bytes. IsBodyIn bytes.items (value_view value.now)) }
{
    if let Some(text) = value.get("body").and_then(Value::as_str) {
        return bytes_of(alloc, text);
    }
    if let Some(text) = value.get("body64").and_then(Value::as_str) {
        return decoded(alloc, text);
    }
    Ok(Vec::new(alloc))
}
