//! The body of an export.
ghost use Rattle.std.specs.Prelude.{◌≡◌};
ghost use Rattle.serde_json.specs.View.{view};
ghost use Rattle.goo_notice_json.specs.Faults.{Gives};
ghost use Rattle.goo_notice.specs.Export.{export_of};

use goo_notice_json::fields::{account_no, range, registry_code};
use goo_notice_json::members::{integer_at, of_size, string_at};
use goo_notice_json::value_fault::ValueFault;
use goo_types::command::Export;
use serde_json::Value;

/// The export that a body states.
#[tactic(auto, unfolding(goo_notice::specs::Export::export_of))]
pub(crate) fn export(body: &Value) -> Result<Export, ValueFault>
    ensures { Gives (λ c. c) result (export_of 1 (view body.now)) }
{
    of_size(body, 7)?;
    let account = integer_at(body, "account")?;
    let first = string_at(body, "first")?;
    let giver = integer_at(body, "giver")?;
    let last = string_at(body, "last")?;
    let peer = integer_at(body, "peer")?;
    Ok(Export {
        giver: account_no(giver)?,
        peer: registry_code(peer)?,
        account: account_no(account)?,
        range: range(first, last)?,
    })
}
