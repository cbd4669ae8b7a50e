//! The request that a body states.
ghost use Rattle.std.specs.Prelude.{◌≡◌};
ghost use Rattle.serde_json.specs.View.{view};
ghost use Rattle.goo_notice_json.specs.Faults.{Gives};
ghost use Rattle.goo_desk_body.specs.Body.{request_of, body_of};
ghost use Rattle.goo_desk_body.specs.BodyFaults.{BodyGives};

use crate::body_fault::BodyFault;
use crate::command::command;
use goo_notice_json::json_bytes::json_value;
use goo_notice_json::members::string_at;
use goo_notice_json::value_fault::ValueFault;
use goo_types::holder_code::HolderCode;
use goo_types::key::Key;
use goo_types::request::Request;
use serde_json::Value;
use std::alloc::Global;

/// The request of a caller that a body's JSON value states.
#[tactic(auto, unfolding(crate::specs::Body::request_of))]
fn request(alloc: Global, caller: &HolderCode, body: &Value) -> Result<Request, ValueFault>
    ensures { Gives (λ r. r) result (request_of caller.now (view body.now)) }
{
    let key = string_at(body, "key")?;
    let command = command(alloc, body)?;
    Ok(Request {
        caller: *caller,
        key: Key::read(key.as_bytes())?,
        command,
    })
}

/// The request of a caller that the bytes of a body state: an object with `key`, `command` and just
/// the members of that command, in any order and with any white space.
///
/// # Errors
///
/// The first of these that holds: `NotJson` where the bytes are no JSON text; `Shape` where a key
/// is missing or too many, the command isn't one of the thirteen, or a value anywhere (also in the
/// notice of an import) is of another kind; `Field` where a value is refused by its reader, a range
/// isn't one, or a notice breaks its rules. `Memory` where an allocation is refused.
///
/// # Example
///
/// ```rust,ignore
/// let issuer = HolderCode::read(ISSUER.as_bytes())?;
/// let body = r#"{"command":"advance","day":"2025-04-05","key":"date"}"#;
/// let request = read_command(alloc, &issuer, body.as_bytes())?;
/// // request.key.text() is "date", and request.command is an Advance to 2025-04-05. The body without its last brace is
/// // refused as NotJson, without `day` as Shape, with the day "2025-02-29" as Field.
/// ```
#[tactic(auto, unfolding(crate::specs::Body::body_of))]
pub fn read_command(alloc: Global, caller: &HolderCode, body: &[u8]) -> Result<Request, BodyFault>
    ensures { BodyGives result (body_of caller.now body.now) }
{
    let value = json_value(alloc, body)?.ok_or(BodyFault::NotJson)?;
    Ok(request(alloc, caller, &value)?)
}
