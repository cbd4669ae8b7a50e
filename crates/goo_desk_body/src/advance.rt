//! The body of moving the date on.
ghost use Rattle.std.specs.Prelude.{◌≡◌};
ghost use Rattle.serde_json.specs.View.{view};
ghost use Rattle.goo_notice_json.specs.Faults.{Gives};
ghost use Rattle.goo_notice.specs.Advance.{advance_of};

use goo_notice_json::members::{of_size, string_at};
use goo_notice_json::value_fault::ValueFault;
use goo_types::command::Advance;
use goo_types::day::Day;
use serde_json::Value;

/// The advance of the date that a body states.
#[tactic(auto, unfolding(goo_notice::specs::Advance::advance_of))]
pub(crate) fn advance(body: &Value) -> Result<Advance, ValueFault>
    ensures { Gives (λ c. c) result (advance_of 1 (view body.now)) }
{
    of_size(body, 3)?;
    let day = string_at(body, "day")?;
    Ok(Advance {
        day: Day::read(day.as_bytes())?,
    })
}
