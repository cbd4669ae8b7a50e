//! The one text of an entry, written and read.
ghost use Rattle.std.specs.Prelude.{◌≡◌, ◌≢◌, Some, None, IfOk, IfErr, OnOk};
ghost use Rattle.std.specs.Str.{IsUtf8, bytes_eq};
ghost use Rattle.json.specs.Json.{Json, document};
ghost use Rattle.json.specs.Print.{print};
ghost use Rattle.json.specs.Value.{value_view};
ghost use Rattle.goo_log_entry.specs.Contents.{EntryContents, IsEntry, entry_contents};
ghost use Rattle.goo_log_entry.specs.Read.{IsSenderIn, IsRequestIn, IsStated};
ghost use Rattle.goo_log_entry.specs.Text.{entry_text};
ghost use Rattle.goo_log_entry.specs.Tokens.{with_place, with_user, with_sender, with_request};
ghost use Rattle.goo_log_entry.specs.Tokens.{entry_tokens};
ghost use Rattle.goo_log_entry.specs.declared.text_fault.TextFault.TheVariants as fault;

use crate::body::{body_at, push_body};
use crate::entry::{Entry, HttpRequest, Sender};
use crate::members::{number_at, push_number, push_optional, push_text, text_at};
use crate::text_fault::TextFault;
use json::{Error, Scratch, Value, Writer};
use std::alloc::{AllocError, Global};

/// Adds the members that say which entry it is.
fn push_place(writer: &mut Writer, entry: &Entry) -> Result<(), AllocError>
    ensures tokens { OnOk result (writer.new.tokens
        ≡ with_place writer.old.tokens (entry_contents entry.now)) }
    ensures before { writer.new.before ≡ writer.old.before }
{
    push_number(writer, "n", entry.number)?;
    push_text(writer, "prev", entry.before.as_str())?;
    push_text(writer, "time", entry.time.as_str())?;
    push_text(writer, "host", entry.host.as_str())
}

/// Adds the members that say who signed in, and how.
fn push_user(writer: &mut Writer, entry: &Entry) -> Result<(), AllocError>
    ensures tokens { OnOk result (writer.new.tokens
        ≡ with_user writer.old.tokens (entry_contents entry.now)) }
    ensures before { writer.new.before ≡ writer.old.before }
{
    push_text(writer, "user", entry.sender.user.as_str())?;
    push_optional(writer, "way", &entry.sender.way)?;
    push_optional(writer, "confirmed", &entry.sender.confirmed)
}

/// Adds the members that say who sent it.
fn push_sender(writer: &mut Writer, entry: &Entry) -> Result<(), AllocError>
    ensures tokens { OnOk result (writer.new.tokens
        ≡ with_sender writer.old.tokens (entry_contents entry.now)) }
    ensures before { writer.new.before ≡ writer.old.before }
{
    push_user(writer, entry)?;
    push_text(writer, "address", entry.sender.address.as_str())?;
    push_text(writer, "role", entry.sender.role.as_str())?;
    push_text(writer, "caller", entry.sender.caller.as_str())
}

/// Adds the members that say what was asked.
fn push_request(alloc: Global, writer: &mut Writer, entry: &Entry) -> Result<(), AllocError>
    ensures tokens { OnOk result (writer.new.tokens
        ≡ with_request writer.old.tokens (entry_contents entry.now)) }
    ensures before { writer.new.before ≡ writer.old.before }
{
    push_text(writer, "method", entry.request.method.as_str())?;
    push_text(writer, "route", entry.request.route.as_str())?;
    push_text(writer, "version", entry.version.as_str())?;
    push_text(writer, "id", entry.id.as_str())?;
    push_body(alloc, writer, entry.request.body.as_slice())
}

/// The text of an entry.
fn written(alloc: Global, entry: &Entry) -> Result<Vec<u8>, AllocError>
    ensures text { IfOk result
        (λ text. text.items ≡ print (entry_tokens (entry_contents entry.now))) }
    ensures utf8 { IfOk result (λ text. IsUtf8 text.items) }
{
    let mut writer = Writer::new(Vec::new(alloc));
    writer.begin_object()?;
    push_place(&mut writer, entry)?;
    push_sender(&mut writer, entry)?;
    push_request(alloc, &mut writer, entry)?;
    writer.end_object()?;
    Ok(writer.into_inner())
}

/// The text of an entry, and no other.
///
/// # Errors
///
/// `AllocError` where memory was refused.
pub fn text_of_entry(alloc: Global, entry: &Entry) -> Result<Vec<u8>, AllocError>
    ensures text { IfOk result (λ text. text.items ≡ entry_text (entry_contents entry.now)) }
    ensures utf8 { IfOk result (λ text. IsUtf8 text.items) }
{
    written(alloc, entry)
}

/// The sender that an object's members state.
fn sender_in(alloc: Global, value: &Value<'_>) -> Result<Sender, AllocError>
    ensures { IfOk result (λ sender. IsSenderIn sender (value_view value.now)) }
{
    Ok(Sender {
        user: text_at(alloc, value, "user")?,
        way: text_at(alloc, value, "way")?,
        confirmed: text_at(alloc, value, "confirmed")?,
        address: text_at(alloc, value, "address")?,
        role: text_at(alloc, value, "role")?,
        caller: text_at(alloc, value, "caller")?,
    })
}

/// The request that an object's members state.
fn request_in(alloc: Global, value: &Value<'_>) -> Result<HttpRequest, AllocError>
    ensures { IfOk result (λ request. IsRequestIn request (value_view value.now)) }
{
    Ok(HttpRequest {
        method: text_at(alloc, value, "method")?,
        route: text_at(alloc, value, "route")?,
        body: body_at(alloc, value)?,
    })
}

/// The entry that an object's members state; what is missing is empty.
fn entry_in(alloc: Global, value: &Value<'_>) -> Result<Entry, AllocError>
    ensures { IfOk result (λ entry. IsStated (entry_contents entry) (value_view value.now)) }
{
    let sender = sender_in(alloc, value)?;
    let request = request_in(alloc, value)?;
    Ok(Entry {
        number: number_at(value, "n"),
        before: text_at(alloc, value, "prev")?,
        time: text_at(alloc, value, "time")?,
        host: text_at(alloc, value, "host")?,
        sender,
        request,
        version: text_at(alloc, value, "version")?,
        id: text_at(alloc, value, "id")?,
    })
}

/// The entry that a text states, in whatever form.
fn stated_entry(alloc: Global, text: &str) -> Result<Entry, TextFault>
    ensures ok { IfOk result (λ entry. (j : Json) × (document text.now ≡ Some j)
        × IsStated (entry_contents entry) j) }
    ensures err { IfErr result (λ f. f ≢ fault.Memory → document text.now ≡ None) }
{
    let mut scratch = Scratch::new(alloc);
    match Value::parse(alloc, text, &mut scratch) {
        Ok(value) => Ok(entry_in(alloc, &value)?),
        Err(Error::Invalid) => Err(TextFault::Form),
        Err(_) => Err(TextFault::Memory),
    }
}

/// Whether these are the same bytes.
pub(crate) fn is_same(text: &str, again: &[u8]) -> bool
    ensures { result ≡ bytes_eq text.now again.now }
{
    text.as_bytes() == again
}

/// The entry, where the text is its own.
fn in_form(alloc: Global, entry: Entry, text: &str) -> Result<Entry, TextFault>
    ensures ok { IfOk result (λ e. text.now ≡ entry_text (entry_contents e)) }
    ensures err { IfErr result (λ f. f ≢ fault.Memory
        → text.now ≢ entry_text (entry_contents entry)) }
{
    let again = text_of_entry(alloc, &entry)?;
    if is_same(text, again.as_slice()) {
        Ok(entry)
    } else {
        Err(TextFault::Form)
    }
}

/// The entry whose text this is.
///
/// # Errors
///
/// `Form` where it is the text of no entry; `Memory` where memory was refused.
pub fn read_entry(alloc: Global, text: &str) -> Result<Entry, TextFault>
    ensures ok { IfOk result (λ entry. text.now ≡ entry_text (entry_contents entry)) }
    ensures err { IfErr result (λ f. f ≢ fault.Memory
        → (e : EntryContents) → IsEntry e → text.now ≢ entry_text e) }
{
    match stated_entry(alloc, text) {
        Ok(entry) => in_form(alloc, entry, text),
        Err(fault) => Err(fault),
    }
}
