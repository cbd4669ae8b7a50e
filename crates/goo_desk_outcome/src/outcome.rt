//! The text of an outcome.
ghost use Rattle.std.specs.Prelude.{◌≡◌};
ghost use Rattle.goo_desk_outcome.specs.Texts.{outcome_text};

use crate::pushes::ROOM;
use crate::refusal::push_refusal;
use crate::reply::push_reply;
use arrayvec::ArrayString;
use goo_types::outcome::Outcome;

/// The text of an outcome, without a line feed. It takes no memory.
pub fn outcome_text(outcome: Outcome) -> ArrayString<ROOM>
    ensures { result.bytes ≡ outcome_text outcome }
{
    let mut out = ArrayString::new();
    match outcome {
        Outcome::Accepted(reply) => {
            out.push_str("{\"outcome\":\"accepted\",\"reply\":");
            push_reply(&mut out, reply);
            out.push_str("}");
        }
        Outcome::Repeated(reply) => {
            out.push_str("{\"outcome\":\"repeated\",\"reply\":");
            push_reply(&mut out, reply);
            out.push_str("}");
        }
        Outcome::Refused(refusal) => push_refusal(&mut out, &refusal),
    }
    out
}
