//! The JSON object of a correction.
ghost use Rattle.std.specs.Prelude.{◌≡◌, IfOk};
ghost use Rattle.serde_json.specs.View.{view};
ghost use Rattle.goo_notice.specs.Correct.{first_text, last_text, correct_data, IsRangeIfAny};
ghost use Rattle.goo_notice.specs.Correct.{IsCorrect};

use arrayvec::ArrayString;
use goo_notice_json::object::{nothing, object_of, with_integer, with_text};
use goo_types::command::Correct;
use goo_types::range::Range;
use serde_json::Value;
use std::alloc::{AllocError, Global};

/// The texts of the first and the last number of a range, both empty where there is none.
fn ends_of(range: Option<Range>) -> (ArrayString<14>, ArrayString<14>)
    ensures first { result.0.bytes ≡ first_text range }
    ensures last { result.1.bytes ≡ last_text range }
    ensures limits { IsRangeIfAny range }
{
    match range {
        Some(range) => (range.first().text(), range.last().text()),
        None => (ArrayString::new(), ArrayString::new()),
    }
}

/// The JSON object of a correction.
pub(crate) fn correct_value(alloc: Global, command: &Correct) -> Result<Value, AllocError>
    ensures value { IfOk result (λ value. view value ≡ correct_data command.now) }
    ensures limits { IfOk result (λ _. IsCorrect command.now) }
{
    let (first, last) = ends_of(command.range);
    let first_day = command.first_day.text();
    let members = nothing(alloc);
    let members = with_text(alloc, members, "command", "correct");
    let members = with_text(alloc, members, "device", command.device.text());
    let members = with_text(alloc, members, "first", first.as_str());
    let members = with_text(alloc, members, "first_day", first_day.as_str());
    let members = with_text(alloc, members, "last", last.as_str());
    let members = with_integer(alloc, members, "less_wh", command.less.get());
    let members = with_text(alloc, members, "reason", command.reason.text());
    object_of(members)
}
