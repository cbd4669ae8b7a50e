//! The checks of making another registry known.
ghost use Rattle.std.specs.Prelude.{◌≡◌};
ghost use Rattle.goo_spec.specs.AddPeer.{add_peer_refusal, add_peer_reply};
ghost use Rattle.goo_core_shelf.specs.Shelf.{Looks, IsReady};
ghost use Rattle.goo_core_judges.specs.Verdict.{verdict_of};

use crate::verdict::Verdict;
use goo_core_reads::callers::is_issuer;
use goo_core_shelf::shelf::Shelf;
use goo_types::command::AddPeer;
use goo_types::fault::Fault;
use goo_types::holder_code::HolderCode;
use goo_types::refusal::Refusal;
use goo_types::reply::Reply;

/// The checks of making another registry known.
///
/// # Errors
///
/// `Store` where the shelf answers it, `Memory` where memory was refused. State and rows stay as
/// they are.
#[tactic(auto, unfolding(goo_spec::specs::AddPeer::add_peer_refusal, goo_spec::specs::AddPeer::add_peer_reply))]
pub fn judge_add_peer<S: Shelf>(
    shelf: &mut S,
    caller: &HolderCode,
    adding: &AddPeer,
) -> Result<Verdict, Fault>
    requires { IsReady (S.seen shelf.old) }
    ensures { Looks (S.seen shelf.old) (S.seen shelf.new) result
        (λ verdict. verdict
        ≡ verdict_of (add_peer_refusal (S.seen shelf.old).state caller.now adding.now)
        (add_peer_reply (S.seen shelf.old).state adding.now)) }
{
    if !is_issuer(caller) {
        return Ok(Verdict::Fails(Refusal::NotAllowed));
    }
    if shelf.peer(adding.peer)? || adding.peer == shelf.code()? {
        return Ok(Verdict::Fails(Refusal::PeerExists));
    }
    Ok(Verdict::Passes(Reply::Done))
}
