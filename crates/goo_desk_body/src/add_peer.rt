//! The body of making another registry known.
ghost use Rattle.std.specs.Prelude.{◌≡◌};
ghost use Rattle.serde_json.specs.View.{view};
ghost use Rattle.goo_notice_json.specs.Faults.{Gives};
ghost use Rattle.goo_notice.specs.AddPeer.{add_peer_of};

use goo_notice_json::fields::registry_code;
use goo_notice_json::members::{integer_at, of_size};
use goo_notice_json::value_fault::ValueFault;
use goo_types::command::AddPeer;
use serde_json::Value;

/// The addition of a peer that a body states.
#[tactic(auto, unfolding(goo_notice::specs::AddPeer::add_peer_of))]
pub(crate) fn add_peer(body: &Value) -> Result<AddPeer, ValueFault>
    ensures { Gives (λ c. c) result (add_peer_of 1 (view body.now)) }
{
    of_size(body, 3)?;
    let peer = integer_at(body, "peer")?;
    Ok(AddPeer {
        peer: registry_code(peer)?,
    })
}
