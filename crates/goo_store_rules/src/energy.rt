//! What is left of each device's declared energy.

ghost use Rattle.std.specs.Prelude.{◌≡◌, IfOk};
ghost use Rattle.goo_store_rules.specs.Summing.{left_at, KeepsEnergy};

use crate::sums::{sum_declared, sum_for, sum_lowered};
use goo_core_shelf::correct_record::CorrectRecord;
use goo_types::command::Declare;
use goo_types::gsrn::Gsrn;
use std::alloc::{AllocError, Global};
use std::collections::BTreeMap;

/// What devices declared, and what corrections took off it, in Wh.
#[derive(Drop)]
pub struct Energy {
    pub declared: BTreeMap<Gsrn, u128>,
    pub lowered: BTreeMap<Gsrn, u128>,
}

/// The energy of these declarations and corrections.
///
/// # Errors
///
/// Where an allocation is refused.
pub fn sum_energy(
    alloc: Global,
    declared: &[Declare],
    corrected: &[CorrectRecord],
) -> Result<Energy, AllocError>
    ensures { IfOk result (KeepsEnergy declared.now corrected.now) }
{
    Ok(Energy {
        declared: sum_declared(alloc, declared)?,
        lowered: sum_lowered(alloc, corrected)?,
    })
}

/// What is left of a device's declared energy.
pub fn left_for(energy: &Energy, device: &Gsrn) -> u128
    ensures { result ≡ left_at energy.now device.now }
{
    let lowered = sum_for(&energy.lowered, device);
    sum_for(&energy.declared, device).saturating_sub(lowered)
}
