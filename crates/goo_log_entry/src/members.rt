//! Members of an object, written and read.
ghost use Rattle.std.specs.Prelude.{◌≡◌, ◌++◌, [], ◌∷◌, IfOk, OnOk, decimal, string_bytes};
ghost use Rattle.json.specs.Token.{key, number, string};
ghost use Rattle.json.specs.Value.{value_view};
ghost use Rattle.goo_log_entry.specs.Read.{text_in, IsNumberIn};
ghost use Rattle.goo_log_entry.specs.Tokens.{text_tokens, optional_tokens};

use json::{Value, Writer};
use std::alloc::{AllocError, Global};

/// Adds a member whose value is a text.
pub(crate) fn push_text(writer: &mut Writer, name: &str, text: &str) -> Result<(), AllocError>
    ensures tokens { OnOk result (writer.new.tokens
        ≡ writer.old.tokens ++ text_tokens name.now text.now) }
    ensures before { writer.new.before ≡ writer.old.before }
{
    writer.key(name)?;
    writer.string(text)
}

/// Adds a member whose value is a text, unless it is empty.
pub(crate) fn push_optional(
    writer: &mut Writer,
    name: &str,
    text: &String,
) -> Result<(), AllocError>
    ensures tokens { OnOk result (writer.new.tokens
        ≡ writer.old.tokens ++ optional_tokens name.now (string_bytes text.now)) }
    ensures before { writer.new.before ≡ writer.old.before }
{
    if text.as_str().is_empty() {
        return Ok(());
    }
    push_text(writer, name, text.as_str())
}

/// Adds a member whose value is a number.
pub(crate) fn push_number(writer: &mut Writer, name: &str, n: u64) -> Result<(), AllocError>
    ensures tokens { OnOk result (writer.new.tokens
        ≡ writer.old.tokens ++ key name.now ∷ number (decimal n) ∷ []) }
    ensures before { writer.new.before ≡ writer.old.before }
{
    writer.key(name)?;
    writer.u64(n)
}

/// A member that is a text; empty where there is none.
pub(crate) fn text_at(alloc: Global, value: &Value<'_>, name: &str) -> Result<String, AllocError>
    ensures { IfOk result
        (λ text. string_bytes text ≡ text_in name.now (value_view value.now)) }
{
    let mut text = String::new(alloc);
    if let Some(found) = value.get(name).and_then(Value::as_str) {
        text.push_str(found)?;
    }
    Ok(text)
}

/// A member that is a number; 0 where there is none.
pub(crate) fn number_at(value: &Value<'_>, name: &str) -> u64
    ensures { IsNumberIn 64 result name.now (value_view value.now) }
{
    match value.get(name) {
        Some(found) => found.as_u64().unwrap_or(0),
        None => 0,
    }
}
