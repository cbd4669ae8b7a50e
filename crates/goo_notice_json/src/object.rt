//! The members of an object that is being written. Each step takes them by value and hands them
//! back with one more, and where memory was refused it hands that on, so a writer is one straight
//! line.

ghost use Rattle.std.specs.Prelude.{◌≡◌, IfOk};
ghost use Rattle.serde_json.specs.Data.{number, unsigned, string, array, object, no_members};
ghost use Rattle.serde_json.specs.Data.{Members, put as with_member};
ghost use Rattle.serde_json.specs.View.{view, items_view, members_view};

use serde_json::{Map, Value, put};
use std::alloc::{AllocError, Global};

/// No members.
///
/// # Errors
///
/// `AllocError` is the error of the steps that follow; an object without members takes no memory.
pub fn nothing(alloc: Global) -> Result<Map<String, Value>, AllocError>
    ensures { IfOk result (λ new. members_view new.entries ≡ no_members) }
{
    Ok(Map::new(alloc))
}

/// The members with one more, a text.
///
/// # Errors
///
/// `AllocError` where memory was refused, here or at a step before. The members are dropped.
pub fn with_text(
    alloc: Global,
    members: Result<Map<String, Value>, AllocError>,
    key: &str,
    text: &str,
) -> Result<Map<String, Value>, AllocError>
    ensures { (ms : Members) → IfOk members (λ old. members_view old.entries ≡ ms)
        → IfOk result (λ new. members_view new.entries ≡ with_member key.now (string text.now) ms) }
{
    let mut members = members?;
    put(&mut members, alloc, key, Value::try_from_str(alloc, text)?)?;
    Ok(members)
}

/// The members with one more, a whole number.
///
/// # Errors
///
/// `AllocError` where memory was refused, here or at a step before. The members are dropped.
pub fn with_integer(
    alloc: Global,
    members: Result<Map<String, Value>, AllocError>,
    key: &str,
    integer: u64,
) -> Result<Map<String, Value>, AllocError>
    ensures { (ms : Members) → IfOk members (λ old. members_view old.entries ≡ ms)
        → IfOk result
        (λ new. members_view new.entries ≡ with_member key.now (number (unsigned integer)) ms) }
{
    let mut members = members?;
    put(&mut members, alloc, key, Value::from(integer))?;
    Ok(members)
}

/// The members with one more, an array.
///
/// # Errors
///
/// `AllocError` where memory was refused, here or at a step before. The members are dropped.
pub fn with_items(
    alloc: Global,
    members: Result<Map<String, Value>, AllocError>,
    key: &str,
    items: Vec<Value>,
) -> Result<Map<String, Value>, AllocError>
    ensures { (ms : Members) → IfOk members (λ old. members_view old.entries ≡ ms)
        → IfOk result
        (λ new. members_view new.entries
        ≡ with_member key.now (array (items_view items.items)) ms) }
{
    let mut members = members?;
    put(&mut members, alloc, key, Value::Array(items))?;
    Ok(members)
}

/// The object of some members.
///
/// # Errors
///
/// `AllocError` where memory was refused at a step before.
pub fn object_of(members: Result<Map<String, Value>, AllocError>) -> Result<Value, AllocError>
    ensures { (ms : Members) → IfOk members (λ old. members_view old.entries ≡ ms)
        → IfOk result (λ value. view value ≡ object ms) }
{
    Ok(Value::Object(members?))
}
