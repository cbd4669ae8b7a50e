//! A line is taken where it comes next.
ghost use Rattle.std.specs.Prelude.{◌≡◌, ◌≢◌, true, false, Some, None, Err, IfOk, IfErr, OnErr};
ghost use Rattle.hex.specs.Hex.{encode_lower};
ghost use Rattle.sha2.specs.Sha256.{sha256};
ghost use Rattle.goo_log_entry.specs.Contents.{entry_contents, outcome_contents};
ghost use Rattle.goo_log_line.specs.Line.{LineContents, IsLine, line_contents, line_text};
ghost use Rattle.goo_log_line.specs.Line.LineContents.{AnEntry, AnOutcome};
ghost use Rattle.goo_log_journal.specs.Place.{after_line, comes_next, is_concluded};
ghost use Rattle.goo_log_journal.specs.Place.{with_entry, with_outcome};
ghost use Rattle.goo_log_journal.specs.Read.{place_of};
ghost use Rattle.goo_log_journal.specs.declared.line_fault.LineFault.TheVariants as fault;

use crate::line_fault::LineFault;
use crate::reading::Reading;
use goo_log_entry::{Entry, Outcome, TextFault};
use goo_log_keyed::Key;
use goo_log_line::{Line, read_line};
use std::alloc::Global;

/// Takes an entry, of which this is the line.
fn take_entry(
    reading: &mut Reading,
    alloc: Global,
    entry: Entry,
    line: &[u8],
) -> Result<Line, LineFault>
    ensures is { IfOk result (λ is. line_contents is ≡ AnEntry (entry_contents entry)) }
    ensures next { IfOk result
        (λ _. comes_next (entry_contents entry) (place_of reading.old) ≡ true) }
    ensures added { IfOk result (λ _. place_of reading.new
        ≡ with_entry (encode_lower (sha256 line.now)) (entry_contents entry)
        (place_of reading.old)) }
    ensures order { result ≡ Err fault.Order
        → comes_next (entry_contents entry) (place_of reading.old) ≡ false }
    ensures form { result ≢ Err fault.Form }
    ensures same { OnErr result (place_of reading.new ≡ place_of reading.old) }
{
    if !reading.comes_next(&entry) {
        return Err(LineFault::Order);
    }
    match reading.add_entry(alloc, &entry, line) {
        Ok(()) => Ok(Line::Entry(entry)),
        Err(_) => Err(LineFault::Memory),
    }
}

/// Takes an outcome that is that of the first entry that waits.
fn conclude(reading: &mut Reading, alloc: Global, outcome: Outcome) -> Result<Line, LineFault>
    requires { is_concluded (outcome_contents outcome) (place_of reading.old).chain
        (place_of reading.old).waiting ≡ true }
    ensures is { IfOk result (λ is. line_contents is ≡ AnOutcome (outcome_contents outcome)) }
    ensures added { IfOk result (λ _. place_of reading.new
        ≡ with_outcome (outcome_contents outcome) (place_of reading.old)) }
    ensures memory { IfErr result (λ f. f ≡ fault.Memory) }
    ensures same { OnErr result (place_of reading.new ≡ place_of reading.old) }
{
    match reading.add_outcome(alloc, &outcome) {
        Ok(()) => Ok(Line::Outcome(outcome)),
        Err(_) => Err(LineFault::Memory),
    }
}

/// Takes an outcome.
fn take_outcome(reading: &mut Reading, alloc: Global, outcome: Outcome) -> Result<Line, LineFault>
    ensures is { IfOk result (λ is. line_contents is ≡ AnOutcome (outcome_contents outcome)) }
    ensures next { IfOk result
        (λ _. is_concluded (outcome_contents outcome) (place_of reading.old).chain
        (place_of reading.old).waiting ≡ true) }
    ensures added { IfOk result (λ _. place_of reading.new
        ≡ with_outcome (outcome_contents outcome) (place_of reading.old)) }
    ensures order { result ≡ Err fault.Order
        → is_concluded (outcome_contents outcome) (place_of reading.old).chain
        (place_of reading.old).waiting ≡ false }
    ensures form { result ≢ Err fault.Form }
    ensures same { OnErr result (place_of reading.new ≡ place_of reading.old) }
{
    match reading.is_concluded(alloc, &outcome) {
        Ok(true) => conclude(reading, alloc, outcome),
        Ok(false) => Err(LineFault::Order),
        Err(_) => Err(LineFault::Memory),
    }
}

/// Takes a line, without its line end.
///
/// # Errors
///
/// `Form` where it is no line under this key; `Order` where it is one that does not come next;
/// `Memory` where memory was refused. The place stays then.
pub fn take(reading: &mut Reading, alloc: Global, key: &Key, line: &[u8]) -> Result<Line, LineFault>
    ensures text { IfOk result (λ is. line.now ≡ line_text key.now (line_contents is)) }
    ensures after { IfOk result
        (λ is. after_line key.now (place_of reading.old) (line_contents is)
        ≡ Some (place_of reading.new)) }
    ensures form { result ≡ Err fault.Form
        → (l : LineContents) → IsLine l → line.now ≢ line_text key.now l }
    ensures order { result ≡ Err fault.Order
        → (l : LineContents) × (line.now ≡ line_text key.now l)
        × (after_line key.now (place_of reading.old) l ≡ None) }
    ensures same { OnErr result (place_of reading.new ≡ place_of reading.old) }
{
    match read_line(alloc, key, line) {
        Ok(Line::Entry(entry)) => take_entry(reading, alloc, entry, line),
        Ok(Line::Outcome(outcome)) => take_outcome(reading, alloc, outcome),
        Err(TextFault::Form) => Err(LineFault::Form),
        Err(TextFault::Memory) => Err(LineFault::Memory),
    }
}
