//! The one text of an outcome, written and read.
ghost use Rattle.std.specs.Prelude.{◌≡◌, ◌≢◌, Some, None, IfOk, IfErr, codes};
ghost use Rattle.std.specs.Str.{IsUtf8};
ghost use Rattle.json.specs.Json.{Json, document};
ghost use Rattle.json.specs.Print.{print};
ghost use Rattle.json.specs.Value.{value_view};
ghost use Rattle.goo_log_entry.specs.Contents.{OutcomeContents, IsOutcome, outcome_contents};
ghost use Rattle.goo_log_entry.specs.Read.{IsNumberIn, IsStatedOutcome};
ghost use Rattle.goo_log_entry.specs.Text.{outcome_text};
ghost use Rattle.goo_log_entry.specs.Tokens.{outcome_tokens};
ghost use Rattle.goo_log_entry.specs.declared.text_fault.TextFault.TheVariants as fault;

use crate::body::{body_at, push_body};
use crate::entry_text::is_same;
use crate::members::{number_at, push_number, push_text, text_at};
use crate::outcome::Outcome;
use crate::text_fault::TextFault;
use json::{Error, Scratch, Value, Writer};
use std::alloc::{AllocError, Global};

/// The text of an outcome.
fn written(alloc: Global, outcome: &Outcome) -> Result<Vec<u8>, AllocError>
    ensures text { IfOk result
        (λ text. text.items ≡ print (outcome_tokens (outcome_contents outcome.now))) }
    ensures utf8 { IfOk result (λ text. IsUtf8 text.items) }
{
    let mut writer = Writer::new(Vec::new(alloc));
    writer.begin_object()?;
    push_number(&mut writer, "n", outcome.number)?;
    push_number(&mut writer, "status", u64::from(outcome.status))?;
    push_body(alloc, &mut writer, outcome.body.as_slice())?;
    push_text(&mut writer, "chain", outcome.chain.as_str())?;
    writer.end_object()?;
    Ok(writer.into_inner())
}

/// The text of an outcome, and no other.
///
/// # Errors
///
/// `AllocError` where memory was refused.
pub fn text_of_outcome(alloc: Global, outcome: &Outcome) -> Result<Vec<u8>, AllocError>
    ensures text { IfOk result (λ text. text.items ≡ outcome_text (outcome_contents outcome.now)) }
    ensures utf8 { IfOk result (λ text. IsUtf8 text.items) }
{
    written(alloc, outcome)
}

/// A status in an object; 0 where there is none.
fn status_in(value: &Value<'_>) -> u16
    ensures { IsNumberIn 16 result (codes "status") (value_view value.now) }
{
    u16::try_from(number_at(value, "status")).unwrap_or(0)
}

/// The outcome that an object's members state; what is missing is empty.
fn outcome_in(alloc: Global, value: &Value<'_>) -> Result<Outcome, AllocError>
    ensures { IfOk result
        (λ outcome. IsStatedOutcome (outcome_contents outcome) (value_view value.now)) }
{
    Ok(Outcome {
        number: number_at(value, "n"),
        status: status_in(value),
        body: body_at(alloc, value)?,
        chain: text_at(alloc, value, "chain")?,
    })
}

/// The outcome that a text states, in whatever form.
fn stated_outcome(alloc: Global, text: &str) -> Result<Outcome, TextFault>
    ensures ok { IfOk result (λ outcome. (j : Json) × (document text.now ≡ Some j)
        × IsStatedOutcome (outcome_contents outcome) j) }
    ensures err { IfErr result (λ f. f ≢ fault.Memory → document text.now ≡ None) }
{
    let mut scratch = Scratch::new(alloc);
    match Value::parse(alloc, text, &mut scratch) {
        Ok(value) => Ok(outcome_in(alloc, &value)?),
        Err(Error::Invalid) => Err(TextFault::Form),
        Err(_) => Err(TextFault::Memory),
    }
}

/// The outcome, where the text is its own.
fn in_form(alloc: Global, outcome: Outcome, text: &str) -> Result<Outcome, TextFault>
    ensures ok { IfOk result (λ o. text.now ≡ outcome_text (outcome_contents o)) }
    ensures err { IfErr result (λ f. f ≢ fault.Memory
        → text.now ≢ outcome_text (outcome_contents outcome)) }
{
    let again = text_of_outcome(alloc, &outcome)?;
    if is_same(text, again.as_slice()) {
        Ok(outcome)
    } else {
        Err(TextFault::Form)
    }
}

/// The outcome whose text this is.
///
/// # Errors
///
/// `Form` where it is the text of no outcome; `Memory` where memory was refused.
pub fn read_outcome(alloc: Global, text: &str) -> Result<Outcome, TextFault>
    ensures ok { IfOk result (λ outcome. text.now ≡ outcome_text (outcome_contents outcome)) }
    ensures err { IfErr result (λ f. f ≢ fault.Memory
        → (o : OutcomeContents) → IsOutcome o → text.now ≢ outcome_text o) }
{
    match stated_outcome(alloc, text) {
        Ok(outcome) => in_form(alloc, outcome, text),
        Err(fault) => Err(fault),
    }
}
