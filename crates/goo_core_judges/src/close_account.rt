//! The checks of closing an account.
ghost use Rattle.std.specs.Prelude.{◌≡◌};
ghost use Rattle.goo_spec.specs.Checks.{first_refusal};
ghost use Rattle.goo_spec.specs.CloseAccount.{close_account_refusal, close_account_reply};
ghost use Rattle.goo_ranges_rows.specs.Rows.{AreRowsOf};
ghost use Rattle.goo_core_shelf.specs.Shelf.{Looks, IsReady};
ghost use Rattle.goo_core_judges.specs.CloseAccount.{entry_checks};
ghost use Rattle.goo_core_judges.specs.Verdict.{verdict_of};

use crate::verdict::Verdict;
use goo_core_reads::callers::{is_holder, is_issuer};
use goo_core_shelf::shelf::Shelf;
use goo_types::command::CloseAccount;
use goo_types::fault::Fault;
use goo_types::holder_code::HolderCode;
use goo_types::refusal::Refusal;
use goo_types::reply::Reply;

/// The checks of closing an account before the one over its certificates.
fn entry_refusal<S: Shelf>(
    shelf: &mut S,
    caller: &HolderCode,
    closing: &CloseAccount,
) -> Result<Option<Refusal>, Fault>
    ensures { Looks (S.seen shelf.old) (S.seen shelf.new) result
        (λ refusal. refusal
        ≡ first_refusal (entry_checks (S.seen shelf.old).state caller.now closing.now)) }
{
    let account = shelf.account(closing.account)?;
    if !is_issuer(caller) && !is_holder(caller, &account) {
        return Ok(Some(Refusal::NotAllowed));
    }
    let Some(account) = account else {
        return Ok(Some(Refusal::UnknownAccount));
    };
    if account.is_closed() {
        return Ok(Some(Refusal::AccountClosed));
    }
    Ok(None)
}

/// The checks of closing an account.
///
/// # Errors
///
/// `Store` where the shelf answers it, `Memory` where memory was refused. State and rows stay as
/// they are.
pub fn judge_close_account<S: Shelf>(
    shelf: &mut S,
    caller: &HolderCode,
    closing: &CloseAccount,
) -> Result<Verdict, Fault>
    requires { (S.seen shelf.old).defects ≡ 0
        → AreRowsOf (S.seen shelf.old).state.at (S.seen shelf.old).rows }
    ensures { Looks (S.seen shelf.old) (S.seen shelf.new) result
        (λ verdict. verdict
        ≡ verdict_of (close_account_refusal (S.seen shelf.old).state caller.now closing.now)
        (close_account_reply (S.seen shelf.old).state closing.now)) }
{
    if let Some(refusal) = entry_refusal(shelf, caller, closing)? {
        return Ok(Verdict::Fails(refusal));
    }
    let holds = shelf.holds(closing.account)?;
    if holds {
        return Ok(Verdict::Fails(Refusal::AccountNotEmpty));
    }
    Ok(Verdict::Passes(Reply::Done))
}
