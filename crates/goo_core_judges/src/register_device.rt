//! The checks of registering a production device.
ghost use Rattle.std.specs.Prelude.{◌≡◌};
ghost use Rattle.goo_spec.specs.RegisterDevice.{register_device_refusal, register_device_reply};
ghost use Rattle.goo_core_shelf.specs.Shelf.{Looks, IsReady};
ghost use Rattle.goo_core_judges.specs.Verdict.{verdict_of};

use crate::verdict::Verdict;
use goo_core_reads::callers::is_issuer;
use goo_core_shelf::shelf::Shelf;
use goo_types::command::RegisterDevice;
use goo_types::fault::Fault;
use goo_types::holder_code::HolderCode;
use goo_types::refusal::Refusal;
use goo_types::reply::Reply;

/// The checks of registering a device.
///
/// # Errors
///
/// `Store` where the shelf answers it, `Memory` where memory was refused. State and rows stay as
/// they are.
#[tactic(auto, unfolding(goo_spec::specs::RegisterDevice::register_device_refusal, goo_spec::specs::RegisterDevice::register_device_reply))]
pub fn judge_register_device<S: Shelf>(
    shelf: &mut S,
    caller: &HolderCode,
    registration: &RegisterDevice,
) -> Result<Verdict, Fault>
    requires { IsReady (S.seen shelf.old) }
    ensures { Looks (S.seen shelf.old) (S.seen shelf.new) result
        (λ verdict. verdict
        ≡ verdict_of (register_device_refusal (S.seen shelf.old).state caller.now registration.now)
        (register_device_reply (S.seen shelf.old).state registration.now)) }
{
    if !is_issuer(caller) {
        return Ok(Verdict::Fails(Refusal::NotAllowed));
    }
    if shelf.device(&registration.device)?.is_some() {
        return Ok(Verdict::Fails(Refusal::DeviceExists));
    }
    let Some(account) = shelf.account(registration.account)? else {
        return Ok(Verdict::Fails(Refusal::UnknownAccount));
    };
    if account.is_closed() {
        return Ok(Verdict::Fails(Refusal::AccountClosed));
    }
    Ok(Verdict::Passes(Reply::Done))
}
