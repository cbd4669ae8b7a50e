//! The body of a declaration.
ghost use Rattle.std.specs.Prelude.{◌≡◌};
ghost use Rattle.serde_json.specs.View.{view};
ghost use Rattle.goo_notice_json.specs.Faults.{Gives};
ghost use Rattle.goo_notice.specs.Declare.{declare_of};

use goo_notice_json::fields::wh;
use goo_notice_json::members::{integer_at, of_size, string_at};
use goo_notice_json::value_fault::ValueFault;
use goo_types::command::Declare;
use goo_types::day::Day;
use goo_types::gsrn::Gsrn;
use serde_json::Value;

/// The declaration that a body states.
#[tactic(auto, unfolding(goo_notice::specs::Declare::declare_of))]
pub(crate) fn declare(body: &Value) -> Result<Declare, ValueFault>
    ensures { Gives (λ c. c) result (declare_of 1 (view body.now)) }
{
    of_size(body, 7)?;
    let aux = integer_at(body, "aux_wh")?;
    let device = string_at(body, "device")?;
    let first_day = string_at(body, "first_day")?;
    let gross = integer_at(body, "gross_wh")?;
    let last_day = string_at(body, "last_day")?;
    Ok(Declare {
        device: Gsrn::read(device.as_bytes())?,
        first_day: Day::read(first_day.as_bytes())?,
        last_day: Day::read(last_day.as_bytes())?,
        gross: wh(gross)?,
        aux: wh(aux)?,
    })
}
