//! The energy and the certificates of each device.

ghost use Rattle.std.specs.Prelude.{◌≡◌};
ghost use Rattle.goo_core_shelf.specs.Shelf.{Looks};
ghost use Rattle.goo_core_reads.specs.Reads.{IsAudit};

use crate::callers::is_issuer;
use crate::denial::Denial;
use goo_core_shelf::found::DeviceTotals;
use goo_core_shelf::shelf::Shelf;
use goo_types::fault::Fault;
use goo_types::holder_code::HolderCode;
use std::alloc::Global;

/// The energy and the certificates of each device, by device, or that they aren't shown. A registry
/// whose records fail answers nobody, so the code is looked up before the caller is turned away.
///
/// # Errors
///
/// `Store` where the shelf answers it, `Memory` where memory was refused. State and rows stay as
/// they are. Within an answer, `NotAllowed` to every caller but the issuing body.
pub fn find_totals<S: Shelf>(
    alloc: Global,
    shelf: &mut S,
    caller: &HolderCode,
) -> Result<Result<Vec<DeviceTotals>, Denial>, Fault>
    ensures { Looks (S.seen shelf.old) (S.seen shelf.new) result
        (IsAudit (S.seen shelf.old).state caller.now) }
{
    let _code = shelf.code()?;
    if !is_issuer(caller) {
        return Ok(Err(Denial::NotAllowed));
    }
    let totals = shelf.totals(alloc)?;
    Ok(Ok(totals))
}
