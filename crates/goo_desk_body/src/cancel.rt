//! The body of a cancellation.
ghost use Rattle.std.specs.Prelude.{◌≡◌};
ghost use Rattle.serde_json.specs.View.{view};
ghost use Rattle.goo_notice_json.specs.Faults.{Gives};
ghost use Rattle.goo_notice.specs.Cancel.{cancel_of};

use goo_notice_json::fields::{account_no, range};
use goo_notice_json::members::{integer_at, of_size, string_at};
use goo_notice_json::value_fault::ValueFault;
use goo_types::command::Cancel;
use goo_types::day::Day;
use goo_types::name::Name;
use serde_json::Value;

/// The cancellation that a body states.
#[tactic(auto, unfolding(goo_notice::specs::Cancel::cancel_of))]
pub(crate) fn cancel(body: &Value) -> Result<Cancel, ValueFault>
    ensures { Gives (λ c. c) result (cancel_of 1 (view body.now)) }
{
    of_size(body, 8)?;
    let account = integer_at(body, "account")?;
    let beneficiary = string_at(body, "beneficiary")?;
    let first = string_at(body, "first")?;
    let last = string_at(body, "last")?;
    let use_first = string_at(body, "use_first")?;
    let use_last = string_at(body, "use_last")?;
    Ok(Cancel {
        account: account_no(account)?,
        range: range(first, last)?,
        beneficiary: Name::read(beneficiary.as_bytes())?,
        use_first: Day::read(use_first.as_bytes())?,
        use_last: Day::read(use_last.as_bytes())?,
    })
}
