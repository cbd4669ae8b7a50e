//! What each device declared, what was taken off it, and what it was issued, by sums that are kept
//! by device.
//!
//! Sums of energy have 128 bits: with corrections the certificates no longer bound what was
//! declared, and 73,000 periods of 10^15 Wh pass 64 bits.

ghost use Rattle.std.specs.Prelude.{◌≡◌, ℕ, ◌≤◌, ◌%◌, List, map, IfOk, IsOkUnless};
ghost use Rattle.goo_spec.specs.Energy.{certificate};
ghost use Rattle.goo_store_audit.specs.Counting.{IsBelow, all_numbers};
ghost use Rattle.goo_store_audit.specs.Summing.{total_in};
ghost use Rattle.goo_store_rules.specs.Summing.{sum_at};
ghost use Rattle.goo_store_values.specs.declared.statement_fault.StatementFault.TheVariants.{Memory};

use crate::tallies::DeviceTally;
use goo_core_shelf::found::DeviceTotals;
use goo_store_rules::sums::sum_for;
use goo_store_values::statement_fault::StatementFault;
use goo_types::gsrn::Gsrn;
use goo_types::limits::CERTIFICATE;
use std::alloc::Global;
use std::collections::BTreeMap;

/// What certificates leave over of so much energy, in Wh.
fn left_over(energy: u128) -> u64
    ensures { result ≡ energy % certificate }
{
    (energy % CERTIFICATE as u128) as u64
}

/// How many certificates are counted for a device.
fn count_for(counts: &BTreeMap<Gsrn, u128>, device: &Gsrn) -> u64
    requires { (q : List ℕ) → sum_at counts.now q ≤ all_numbers }
    ensures { result ≡ sum_at counts.now device.now }
{
    sum_for(counts, device) as u64
}

/// The energy and the certificates of a device, by these sums and counts.
fn total_of(
    declared: &BTreeMap<Gsrn, u128>,
    lowered: &BTreeMap<Gsrn, u128>,
    tally: &DeviceTally,
    device: &Gsrn,
) -> DeviceTotals
    requires { IsBelow all_numbers tally.now }
    ensures { result ≡ total_in declared.now lowered.now tally.now device.now }
{
    let declared_wh = sum_for(declared, device);
    let corrected_wh = sum_for(lowered, device);
    DeviceTotals {
        device: *device,
        declared_wh,
        corrected_wh,
        issued: count_for(&tally.issued, device),
        withdrawn_certificates: count_for(&tally.corrected, device),
        carry_wh: left_over(declared_wh.saturating_sub(corrected_wh)),
    }
}

/// The energy and the certificates of these devices, by these sums and counts.
pub fn totals_over(
    alloc: Global,
    devices: &[Gsrn],
    declared: &BTreeMap<Gsrn, u128>,
    lowered: &BTreeMap<Gsrn, u128>,
    tally: &DeviceTally,
) -> Result<Vec<DeviceTotals>, StatementFault>
    requires { IsBelow all_numbers tally.now }
    ensures value { IfOk result
        (λ totals. totals.items ≡ map (total_in declared.now lowered.now tally.now) devices.now) }
    ensures memory { IsOkUnless result Memory }
{
    let mut totals = Vec::new(alloc);
    for device in devices {
        totals.push(total_of(declared, lowered, tally, device))?;
    }
    Ok(totals)
}
