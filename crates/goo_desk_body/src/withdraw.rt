//! The body of a withdrawal.
ghost use Rattle.std.specs.Prelude.{◌≡◌};
ghost use Rattle.serde_json.specs.View.{view};
ghost use Rattle.goo_notice_json.specs.Faults.{Gives};
ghost use Rattle.goo_notice.specs.Withdraw.{withdraw_of};

use goo_notice_json::fields::range;
use goo_notice_json::members::{of_size, string_at};
use goo_notice_json::value_fault::ValueFault;
use goo_types::command::Withdraw;
use goo_types::name::Name;
use serde_json::Value;

/// The withdrawal that a body states.
#[tactic(auto, unfolding(goo_notice::specs::Withdraw::withdraw_of))]
pub(crate) fn withdraw(body: &Value) -> Result<Withdraw, ValueFault>
    ensures { Gives (λ c. c) result (withdraw_of 1 (view body.now)) }
{
    of_size(body, 5)?;
    let first = string_at(body, "first")?;
    let last = string_at(body, "last")?;
    let reason = string_at(body, "reason")?;
    Ok(Withdraw {
        range: range(first, last)?,
        reason: Name::read(reason.as_bytes())?,
    })
}
