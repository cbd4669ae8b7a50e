//! A line of a journal, written and read.
ghost use Rattle.std.specs.Prelude.{◌≡◌, ◌≢◌, IfOk, IfErr};
ghost use Rattle.std.specs.Str.{IsUtf8};
ghost use Rattle.goo_log_entry.specs.Contents.{EntryContents, IsEntry, entry_contents};
ghost use Rattle.goo_log_entry.specs.Contents.{OutcomeContents, IsOutcome, outcome_contents};
ghost use Rattle.goo_log_entry.specs.Text.{entry_text, outcome_text};
ghost use Rattle.goo_log_entry.specs.declared.text_fault.TextFault.TheVariants as fault;
ghost use Rattle.goo_log_line.specs.Line.{LineContents, IsLine, entry_line, outcome_line};
ghost use Rattle.goo_log_line.specs.Line.{framed as framed_as, line_contents, line_text};

use crate::frame::{ENTRY, OUTCOME, framed, text_in};
use goo_log_entry::{
    Entry, Outcome, TextFault, read_entry, read_outcome, text_of_entry, text_of_outcome,
};
use goo_log_keyed::Key;
use std::alloc::{AllocError, Global};

/// What a line is.
#[derive(Drop)]
pub enum Line {
    Entry(Entry),
    Outcome(Outcome),
}

/// The line of an entry, without its line end.
///
/// # Errors
///
/// `AllocError` where memory was refused.
pub fn line_of_entry(alloc: Global, key: &Key, entry: &Entry) -> Result<Vec<u8>, AllocError>
    ensures text { IfOk result
        (λ line. line.items ≡ entry_line key.now (entry_contents entry.now)) }
    ensures utf8 { IfOk result (λ _. IsUtf8 (entry_text (entry_contents entry.now))) }
{
    let text = text_of_entry(alloc, entry)?;
    framed(alloc, ENTRY, key, text.as_slice())
}

/// The line of an outcome, without its line end.
///
/// # Errors
///
/// `AllocError` where memory was refused.
pub fn line_of_outcome(alloc: Global, key: &Key, outcome: &Outcome) -> Result<Vec<u8>, AllocError>
    ensures text { IfOk result
        (λ line. line.items ≡ outcome_line key.now (outcome_contents outcome.now)) }
    ensures utf8 { IfOk result (λ _. IsUtf8 (outcome_text (outcome_contents outcome.now))) }
{
    let text = text_of_outcome(alloc, outcome)?;
    framed(alloc, OUTCOME, key, text.as_slice())
}

/// The entry whose text these bytes are.
fn entry_in(alloc: Global, text: &[u8]) -> Result<Entry, TextFault>
    ensures ok { IfOk result (λ entry. text.now ≡ entry_text (entry_contents entry)) }
    ensures err { IfErr result (λ f. f ≢ fault.Memory
        → (e : EntryContents) → IsEntry e → IsUtf8 (entry_text e) → text.now ≢ entry_text e) }
{
    match str::from_utf8(text) {
        Ok(text) => read_entry(alloc, text),
        Err(_) => Err(TextFault::Form),
    }
}

/// The outcome whose text these bytes are.
fn outcome_in(alloc: Global, text: &[u8]) -> Result<Outcome, TextFault>
    ensures ok { IfOk result (λ outcome. text.now ≡ outcome_text (outcome_contents outcome)) }
    ensures err { IfErr result (λ f. f ≢ fault.Memory
        → (o : OutcomeContents) → IsOutcome o → IsUtf8 (outcome_text o)
        → text.now ≢ outcome_text o) }
{
    match str::from_utf8(text) {
        Ok(text) => read_outcome(alloc, text),
        Err(_) => Err(TextFault::Form),
    }
}

/// What a line is, where it is the entry's line that frames this text.
fn entry_framed(alloc: Global, key: &Key, line: &[u8], text: &[u8]) -> Result<Line, TextFault>
    requires { line.now ≡ framed_as ENTRY.now key.now text.now }
    ensures ok { IfOk result (λ is. line.now ≡ line_text key.now (line_contents is)) }
    ensures err { IfErr result (λ f. f ≢ fault.Memory
        → (l : LineContents) → IsLine l → line.now ≢ line_text key.now l) }
{
    match entry_in(alloc, text) {
        Ok(entry) => Ok(Line::Entry(entry)),
        Err(fault) => Err(fault),
    }
}

/// What a line is, where it is the outcome's line that frames this text.
fn outcome_framed(alloc: Global, key: &Key, line: &[u8], text: &[u8]) -> Result<Line, TextFault>
    requires { line.now ≡ framed_as OUTCOME.now key.now text.now }
    ensures ok { IfOk result (λ is. line.now ≡ line_text key.now (line_contents is)) }
    ensures err { IfErr result (λ f. f ≢ fault.Memory
        → (l : LineContents) → IsLine l → line.now ≢ line_text key.now l) }
{
    match outcome_in(alloc, text) {
        Ok(outcome) => Ok(Line::Outcome(outcome)),
        Err(fault) => Err(fault),
    }
}

/// What a line is, without its line end.
///
/// # Errors
///
/// `Form` where it is the line of no entry and of no outcome under this key; `Memory` where memory
/// was refused.
pub fn read_line(alloc: Global, key: &Key, line: &[u8]) -> Result<Line, TextFault>
    ensures ok { IfOk result (λ is. line.now ≡ line_text key.now (line_contents is)) }
    ensures err { IfErr result (λ f. f ≢ fault.Memory
        → (l : LineContents) → IsLine l → line.now ≢ line_text key.now l) }
{
    if let Some(text) = text_in(alloc, ENTRY, key, line)? {
        return entry_framed(alloc, key, line, text);
    }
    if let Some(text) = text_in(alloc, OUTCOME, key, line)? {
        return outcome_framed(alloc, key, line, text);
    }
    Err(TextFault::Form)
}
