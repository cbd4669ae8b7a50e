//! The body of opening an account.
ghost use Rattle.std.specs.Prelude.{◌≡◌};
ghost use Rattle.serde_json.specs.View.{view};
ghost use Rattle.goo_notice_json.specs.Faults.{Gives};
ghost use Rattle.goo_notice.specs.OpenAccount.{open_account_of};

use goo_notice_json::members::{of_size, string_at};
use goo_notice_json::value_fault::ValueFault;
use goo_types::command::OpenAccount;
use goo_types::holder_code::HolderCode;
use serde_json::Value;

/// The opening of an account that a body states.
#[tactic(auto, unfolding(goo_notice::specs::OpenAccount::open_account_of))]
pub(crate) fn open_account(body: &Value) -> Result<OpenAccount, ValueFault>
    ensures { Gives (λ c. c) result (open_account_of 1 (view body.now)) }
{
    of_size(body, 3)?;
    let holder = string_at(body, "holder")?;
    Ok(OpenAccount {
        holder: HolderCode::read(holder.as_bytes())?,
    })
}
