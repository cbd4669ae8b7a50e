//! The text of a refusal.
ghost use Rattle.std.specs.Prelude.{◌≡◌, ◌++◌, ◌+◌, ◌≤◌, length};
ghost use Rattle.arrayvec.specs.ArrayString.{array_string_len};
ghost use Rattle.goo_types.specs.Refusal.{refusal_name};
ghost use Rattle.goo_desk_outcome.specs.Texts.{fault_text, refusal_text};

use crate::pushes::{ROOM, push_integer, push_number};
use arrayvec::ArrayString;
use goo_types::number::Number;
use goo_types::refusal::Refusal;

/// Writes the member with the certificate number at fault, where there is one.
fn push_fault(out: &mut ArrayString<ROOM>, number: Option<Number>)
    requires { array_string_len out.old + 30 ≤ 256 }
    ensures bytes { out.new.bytes ≡ out.old.bytes ++ fault_text number }
    ensures len { array_string_len out.new ≤ array_string_len out.old + 30 }
{
    match number {
        Some(number) => {
            out.push_str("\"number\":\"");
            push_number(out, number);
            out.push_str("\",");
        }
        None => out.push_str(""),
    }
}

/// Writes a refusal.
pub(crate) fn push_refusal(out: &mut ArrayString<ROOM>, refusal: &Refusal)
    requires { array_string_len out.old + 130 ≤ 256 }
    ensures bytes { out.new.bytes ≡ out.old.bytes ++ refusal_text refusal.now }
    ensures len { array_string_len out.new ≤ array_string_len out.old + 130 }
{
    let code = refusal.code();
    let name = refusal.name();
    let number = refusal.number();
    out.push_str("{\"code\":");
    push_integer(out, code as u64);
    out.push_str(",\"name\":\"");
    out.push_str(name);
    out.push_str("\",");
    push_fault(out, number);
    out.push_str("\"outcome\":\"refused\"}");
}
