//! What corrections took off declarations, by device and first day.

ghost use Rattle.std.specs.Prelude.{◌≡◌, ℕ, ◌+◌, ◌<◌, ◌^◌, List, cond, nat_le, sum_by, IfOk, OnOk};
ghost use Rattle.std.specs.List.{list_all};
ghost use Rattle.goo_types.specs.Day.{CalendarDay};
ghost use Rattle.goo_spec.specs.Energy.{net as net_energy};
ghost use Rattle.goo_store_rules.specs.Correcting.{is_period, taken_at, less_at};
ghost use Rattle.goo_store_rules.specs.Production.{is_covered};

use crate::sums::net;
use goo_core_shelf::correct_record::CorrectRecord;
use goo_types::command::Declare;
use goo_types::day::Day;
use goo_types::gsrn::Gsrn;
use std::alloc::{AllocError, Global};
use std::collections::BTreeMap;

/// What was taken off a device's declaration that begins on a day, 0 where nothing was.
fn taken_off(sums: &BTreeMap<(Gsrn, Day), u128>, device: Gsrn, first_day: Day) -> u128
    ensures { result ≡ taken_at sums.now device first_day }
{
    match sums.get(&(device, first_day)) {
        Some(sum) => *sum,
        None => 0,
    }
}

/// Takes more off a device's declaration that begins on a day.
fn take_off(
    sums: &mut BTreeMap<(Gsrn, Day), u128>,
    device: Gsrn,
    first_day: Day,
    more: u128,
) -> Result<(), AllocError>
    requires { taken_at sums.old device first_day + more < 2 ^ 128 }
    ensures { OnOk result
        ((d : List ℕ) (first : CalendarDay)
        → taken_at sums.new d first
        ≡ taken_at sums.old d first + cond (is_period device first_day d first) more 0) }
{
    let sum = taken_off(sums, device, first_day) + more;
    sums.insert((device, first_day), sum)?;
    Ok(())
}

/// What these corrections took off each declaration.
fn sum_taken_off(
    alloc: Global,
    corrected: &[CorrectRecord],
) -> Result<BTreeMap<(Gsrn, Day), u128>, AllocError>
    ensures { IfOk result
        (λ sums. (device : List ℕ) (first_day : CalendarDay)
        → taken_at sums device first_day ≡ sum_by (less_at device first_day) corrected.now) }
{
    let mut sums = BTreeMap::new(alloc);
    for correction in corrected {
        take_off(
            &mut sums,
            correction.device,
            correction.first_day,
            u128::from(correction.less.get()),
        )?;
    }
    Ok(sums)
}

/// Whether no more was taken off a declaration than its net energy.
fn covers(declaration: &Declare, sums: &BTreeMap<(Gsrn, Day), u128>) -> bool
    ensures { result
        ≡ nat_le (taken_at sums.now declaration.now.device declaration.now.first_day)
        (net_energy declaration.now) }
{
    taken_off(sums, declaration.device, declaration.first_day) <= u128::from(net(declaration))
}

/// Whether that holds of each.
fn cover(declared: &[Declare], sums: &BTreeMap<(Gsrn, Day), u128>) -> bool
    ensures { result
        ≡ list_all
        (λ x. nat_le (taken_at sums.now x.device x.first_day) (net_energy x)) declared.now }
{
    declared.iter().all(|declaration| covers(declaration, sums))
}

/// Whether these corrections take no more off any of these declarations than its net energy.
///
/// # Errors
///
/// Where an allocation is refused.
pub fn cover_corrections(
    alloc: Global,
    declared: &[Declare],
    corrected: &[CorrectRecord],
) -> Result<bool, AllocError>
    ensures { IfOk result (λ yes. yes ≡ list_all (is_covered corrected.now) declared.now) }
{
    let sums = sum_taken_off(alloc, corrected)?;
    Ok(cover(declared, &sums))
}
