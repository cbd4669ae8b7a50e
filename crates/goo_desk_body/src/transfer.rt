//! The body of a transfer.
ghost use Rattle.std.specs.Prelude.{◌≡◌};
ghost use Rattle.serde_json.specs.View.{view};
ghost use Rattle.goo_notice_json.specs.Faults.{Gives};
ghost use Rattle.goo_notice.specs.Transfer.{transfer_of};

use goo_notice_json::fields::{account_no, range};
use goo_notice_json::members::{integer_at, of_size, string_at};
use goo_notice_json::value_fault::ValueFault;
use goo_types::command::Transfer;
use serde_json::Value;

/// The transfer that a body states.
#[tactic(auto, unfolding(goo_notice::specs::Transfer::transfer_of))]
pub(crate) fn transfer(body: &Value) -> Result<Transfer, ValueFault>
    ensures { Gives (λ c. c) result (transfer_of 1 (view body.now)) }
{
    of_size(body, 6)?;
    let first = string_at(body, "first")?;
    let giver = integer_at(body, "giver")?;
    let last = string_at(body, "last")?;
    let taker = integer_at(body, "taker")?;
    Ok(Transfer {
        giver: account_no(giver)?,
        taker: account_no(taker)?,
        range: range(first, last)?,
    })
}
