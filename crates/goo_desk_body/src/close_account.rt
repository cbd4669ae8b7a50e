//! The body of closing an account.
ghost use Rattle.std.specs.Prelude.{◌≡◌};
ghost use Rattle.serde_json.specs.View.{view};
ghost use Rattle.goo_notice_json.specs.Faults.{Gives};
ghost use Rattle.goo_notice.specs.CloseAccount.{close_account_of};

use goo_notice_json::fields::account_no;
use goo_notice_json::members::{integer_at, of_size};
use goo_notice_json::value_fault::ValueFault;
use goo_types::command::CloseAccount;
use serde_json::Value;

/// The closing of an account that a body states.
#[tactic(auto, unfolding(goo_notice::specs::CloseAccount::close_account_of))]
pub(crate) fn close_account(body: &Value) -> Result<CloseAccount, ValueFault>
    ensures { Gives (λ c. c) result (close_account_of 1 (view body.now)) }
{
    of_size(body, 3)?;
    let account = integer_at(body, "account")?;
    Ok(CloseAccount {
        account: account_no(account)?,
    })
}
