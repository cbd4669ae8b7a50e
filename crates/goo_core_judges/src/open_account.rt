//! The checks of opening an account.
ghost use Rattle.std.specs.Prelude.{◌≡◌};
ghost use Rattle.goo_spec.specs.OpenAccount.{open_account_refusal, open_account_reply};
ghost use Rattle.goo_core_shelf.specs.Shelf.{Looks, IsReady};
ghost use Rattle.goo_core_judges.specs.Verdict.{verdict_of};

use crate::verdict::Verdict;
use goo_core_reads::callers::is_issuer;
use goo_core_shelf::shelf::Shelf;
use goo_types::account_no::AccountNo;
use goo_types::command::OpenAccount;
use goo_types::fault::Fault;
use goo_types::holder_code::HolderCode;
use goo_types::refusal::Refusal;
use goo_types::reply::Reply;

/// The checks of opening an account, and its number.
///
/// # Errors
///
/// `Store` where the shelf answers it, `Memory` where memory was refused. State and rows stay as
/// they are.
#[tactic(auto, unfolding(goo_spec::specs::OpenAccount::open_account_refusal, goo_spec::specs::OpenAccount::open_account_reply))]
pub fn judge_open_account<S: Shelf>(
    shelf: &mut S,
    caller: &HolderCode,
    opening: &OpenAccount,
) -> Result<Verdict, Fault>
    requires { IsReady (S.seen shelf.old) }
    ensures { Looks (S.seen shelf.old) (S.seen shelf.new) result
        (λ verdict. verdict
        ≡ verdict_of (open_account_refusal (S.seen shelf.old).state caller.now opening.now)
        (open_account_reply (S.seen shelf.old).state opening.now)) }
{
    if !is_issuer(caller) {
        return Ok(Verdict::Fails(Refusal::NotAllowed));
    }
    if shelf.holder(&opening.holder)?.is_none() {
        return Ok(Verdict::Fails(Refusal::UnknownHolder));
    }
    let counters = shelf.counters()?;
    let Some(account) = AccountNo::new(counters.account()) else {
        return Ok(Verdict::Fails(Refusal::NumbersExhausted));
    };
    Ok(Verdict::Passes(Reply::Account { account }))
}
