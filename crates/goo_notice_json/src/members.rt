//! The members of a JSON object, by their kinds.

ghost use Rattle.std.specs.Prelude.{◌≡◌, ℕ, ℤ};
ghost use Rattle.serde_json.specs.Find.{as_object};
ghost use Rattle.serde_json.specs.View.{view, items_view};
ghost use Rattle.goo_notice_json.specs.Faults.{Gives};
ghost use Rattle.goo_notice_json.specs.Members.{string_at, integer_at, items_at, member_at};
ghost use Rattle.goo_notice_json.specs.Members.{of_size};

use crate::value_fault::ValueFault;
use serde_json::{Number, Value};

/// The string at a key.
///
/// # Errors
///
/// `Shape` where the value is no object, lacks the key, or has no string there.
pub fn string_at<'a>(value: &'a Value, key: &str) -> Result<&'a str, ValueFault>
    ensures { Gives (λ s. s.now) result (string_at key.now (view value.now)) }
{
    value
        .get(key)
        .and_then(Value::as_str)
        .ok_or(ValueFault::Shape)
}

/// The integer at a key: a number that `serde_json` reads as a whole one, so not `1.0`, `1e0` or
/// `-0`.
///
/// # Errors
///
/// `Shape` where the value is no object, lacks the key, or has no such integer there.
pub fn integer_at(value: &Value, key: &str) -> Result<i128, ValueFault>
    ensures { Gives (λ n. n) result (integer_at key.now (view value.now)) }
{
    value
        .get(key)
        .and_then(Value::as_number)
        .and_then(Number::as_i128)
        .ok_or(ValueFault::Shape)
}

/// The items of the array at a key.
///
/// # Errors
///
/// `Shape` where the value is no object, lacks the key, or has no array there.
pub fn items_at<'a>(value: &'a Value, key: &str) -> Result<&'a Vec<Value>, ValueFault>
    ensures { Gives
        (λ items. items_view items.now.items) result (items_at key.now (view value.now)) }
{
    value
        .get(key)
        .and_then(Value::as_array)
        .ok_or(ValueFault::Shape)
}

/// Whatever stands at a key.
///
/// # Errors
///
/// `Shape` where the value is no object or lacks the key.
pub fn member_at<'a>(value: &'a Value, key: &str) -> Result<&'a Value, ValueFault>
    ensures { Gives (λ member. view member.now) result (member_at key.now (view value.now)) }
{
    value.get(key).ok_or(ValueFault::Shape)
}

/// The count of an object's members, where it is `size`. An object of `size` members that has
/// `size` given keys has no others.
///
/// # Errors
///
/// `Shape` where the value is no object, or has another count of members.
pub fn of_size(value: &Value, size: usize) -> Result<usize, ValueFault>
    ensures { Gives (λ n. n) result (of_size size (as_object (view value.now))) }
{
    match value.as_object() {
        Some(members) if members.len() == size => Ok(size),
        _ => Err(ValueFault::Shape),
    }
}
