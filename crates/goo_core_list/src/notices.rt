//! Notices that are kept.
ghost use Rattle.std.specs.Prelude.{◌≡◌, Some, IfOk, IfErr};
ghost use Rattle.std.specs.Option.{option_copied};
ghost use Rattle.goo_types.specs.declared.fault.Fault.TheVariants.{Memory};
ghost use Rattle.goo_core_shelf.specs.Shelf.{arrival_of};

use goo_core_shelf::found::Arrival;
use goo_core_shelf::sent::Sent;
use goo_types::fault::Fault;
use goo_types::notice::Notice;
use std::alloc::Global;

/// Whether the notice kept for a sender and a number is this one or another.
fn arrival(kept: &Notice, notice: &Notice) -> Arrival
    ensures { result ≡ arrival_of (Some kept.now) notice.now }
{
    if kept.is(notice) {
        Arrival::Same
    } else {
        Arrival::Other
    }
}

/// What is kept for a notice's sender and number: nothing, this notice, or another one.
pub fn arrival_for(kept: Option<&Notice>, notice: &Notice) -> Arrival
    ensures { result ≡ arrival_of (option_copied kept.entry) notice.now }
{
    match kept {
        Some(kept) => arrival(kept, notice),
        None => Arrival::Absent,
    }
}

/// A copy of a notice that was sent, if one was.
///
/// # Errors
///
/// `Memory` where an allocation was refused.
pub fn copy_sent(alloc: Global, sent: Option<&Sent>) -> Result<Option<Sent>, Fault>
    ensures value { IfOk result (λ copy. copy ≡ option_copied sent.entry) }
    ensures memory { IfErr result (λ fault. fault ≡ Memory) }
{
    let Some(sent) = sent else {
        return Ok(None);
    };
    Ok(Some(Sent::new(sent.account(), sent.notice().copy(alloc)?)))
}
