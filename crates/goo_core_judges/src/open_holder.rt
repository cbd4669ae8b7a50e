//! The checks of making a holder known.
ghost use Rattle.std.specs.Prelude.{◌≡◌};
ghost use Rattle.goo_spec.specs.OpenHolder.{open_holder_refusal, open_holder_reply};
ghost use Rattle.goo_core_shelf.specs.Shelf.{Looks, IsReady};
ghost use Rattle.goo_core_judges.specs.Verdict.{verdict_of};

use crate::verdict::Verdict;
use goo_core_reads::callers::is_issuer;
use goo_core_shelf::shelf::Shelf;
use goo_types::command::OpenHolder;
use goo_types::fault::Fault;
use goo_types::holder_code::HolderCode;
use goo_types::refusal::Refusal;
use goo_types::reply::Reply;

/// The checks of making a holder known.
///
/// # Errors
///
/// `Store` where the shelf answers it, `Memory` where memory was refused. State and rows stay as
/// they are.
#[tactic(auto, unfolding(goo_spec::specs::OpenHolder::open_holder_refusal, goo_spec::specs::OpenHolder::open_holder_reply))]
pub fn judge_open_holder<S: Shelf>(
    shelf: &mut S,
    caller: &HolderCode,
    opening: &OpenHolder,
) -> Result<Verdict, Fault>
    requires { IsReady (S.seen shelf.old) }
    ensures { Looks (S.seen shelf.old) (S.seen shelf.new) result
        (λ verdict. verdict
        ≡ verdict_of (open_holder_refusal (S.seen shelf.old).state caller.now opening.now)
        (open_holder_reply (S.seen shelf.old).state opening.now)) }
{
    if !is_issuer(caller) {
        return Ok(Verdict::Fails(Refusal::NotAllowed));
    }
    if shelf.holder(&opening.holder)?.is_some() || is_issuer(&opening.holder) {
        return Ok(Verdict::Fails(Refusal::HolderExists));
    }
    Ok(Verdict::Passes(Reply::Done))
}
