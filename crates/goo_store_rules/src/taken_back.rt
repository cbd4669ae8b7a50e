//! The withdrawals that corrections made, each with the device that it was of.

ghost use Rattle.std.specs.Prelude.{◌≡◌, IfOk};
ghost use Rattle.std.specs.BTreeSet.{contains};
ghost use Rattle.goo_store_rules.specs.Correcting.{device_act_cmp, AreTakenBack};

use goo_core_shelf::correct_record::CorrectRecord;
use goo_types::gsrn::Gsrn;
use std::alloc::{AllocError, Global};
use std::collections::BTreeSet;

/// The withdrawals that these corrections made.
///
/// # Errors
///
/// Where an allocation is refused.
pub fn withdrawals_of(
    alloc: Global,
    corrected: &[CorrectRecord],
) -> Result<BTreeSet<(Gsrn, u32)>, AllocError>
    ensures { IfOk result (AreTakenBack corrected.now) }
{
    let mut set = BTreeSet::new(alloc);
    for correction in corrected {
        if let Some(act) = correction.withdrawal {
            set.insert((correction.device, act.get()))?;
        }
    }
    Ok(set)
}

/// Whether one of them is of this device and has this number.
pub fn is_taken(withdrawals: &BTreeSet<(Gsrn, u32)>, device: &Gsrn, act: u32) -> bool
    ensures { result ≡ contains device_act_cmp withdrawals.now (device.now, act) }
{
    withdrawals.contains(&(*device, act))
}
