//! The body of making a holder known.
ghost use Rattle.std.specs.Prelude.{◌≡◌};
ghost use Rattle.serde_json.specs.View.{view};
ghost use Rattle.goo_notice_json.specs.Faults.{Gives};
ghost use Rattle.goo_notice.specs.OpenHolder.{open_holder_of};

use goo_notice_json::members::{of_size, string_at};
use goo_notice_json::value_fault::ValueFault;
use goo_types::command::OpenHolder;
use goo_types::holder_code::HolderCode;
use goo_types::name::Name;
use serde_json::Value;

/// The opening of a holder that a body states.
#[tactic(auto, unfolding(goo_notice::specs::OpenHolder::open_holder_of))]
pub(crate) fn open_holder(body: &Value) -> Result<OpenHolder, ValueFault>
    ensures { Gives (λ c. c) result (open_holder_of 1 (view body.now)) }
{
    of_size(body, 4)?;
    let holder = string_at(body, "holder")?;
    let name = string_at(body, "name")?;
    Ok(OpenHolder {
        holder: HolderCode::read(holder.as_bytes())?,
        name: Name::read(name.as_bytes())?,
    })
}
