//! JSON values (RFC 8259) from bytes.
ghost use Rattle.std.specs.Prelude.{◌≡◌, IfOk, option_map};
ghost use Rattle.serde_json.specs.View.{view};
ghost use Rattle.goo_notice_json.specs.Json.{json_in};

use serde_json::Value;
use std::alloc::{AllocError, Global};

/// The JSON value that bytes spell; None where they are no UTF-8 or `serde_json` has no reading of
/// them, as of more than 127 levels.
///
/// # Errors
///
/// `AllocError` where memory was refused.
pub fn json_value(alloc: Global, bytes: &[u8]) -> Result<Option<Value>, AllocError>
    ensures { IfOk result (λ value. option_map view value ≡ json_in bytes.now) }
{
    match Value::from_slice(alloc, bytes) {
        Ok(value) => Ok(Some(value)),
        Err(error) => {
            if error.is_memory() {
                Err(AllocError)
            } else {
                Ok(None)
            }
        }
    }
}
