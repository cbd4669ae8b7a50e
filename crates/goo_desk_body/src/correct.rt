//! The body of a correction.
ghost use Rattle.std.specs.Prelude.{◌≡◌};
ghost use Rattle.serde_json.specs.View.{view};
ghost use Rattle.goo_notice_json.specs.Faults.{Gives};
ghost use Rattle.goo_notice.specs.Correct.{range_if_any, correct_of};

use goo_notice_json::fields::{range, wh};
use goo_notice_json::members::{integer_at, of_size, string_at};
use goo_notice_json::value_fault::ValueFault;
use goo_types::command::Correct;
use goo_types::day::Day;
use goo_types::gsrn::Gsrn;
use goo_types::name::Name;
use goo_types::range::Range;
use serde_json::Value;

/// The range between the numbers that two texts state; none where both texts are empty.
fn range_if_any(first: &str, last: &str) -> Result<Option<Range>, ValueFault>
    ensures { Gives (λ r. r) result (range_if_any first.now last.now) }
{
    if first.is_empty() && last.is_empty() {
        return Ok(None);
    }
    Ok(Some(range(first, last)?))
}

/// The correction that a body states.
#[tactic(auto, unfolding(goo_notice::specs::Correct::correct_of))]
pub(crate) fn correct(body: &Value) -> Result<Correct, ValueFault>
    ensures { Gives (λ c. c) result (correct_of 1 (view body.now)) }
{
    of_size(body, 8)?;
    let device = string_at(body, "device")?;
    let first = string_at(body, "first")?;
    let first_day = string_at(body, "first_day")?;
    let last = string_at(body, "last")?;
    let less = integer_at(body, "less_wh")?;
    let reason = string_at(body, "reason")?;
    Ok(Correct {
        device: Gsrn::read(device.as_bytes())?,
        first_day: Day::read(first_day.as_bytes())?,
        less: wh(less)?,
        range: range_if_any(first, last)?,
        reason: Name::read(reason.as_bytes())?,
    })
}
