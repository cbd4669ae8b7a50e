//! What was issued for what devices declared, and what of it their corrections did not withdraw.

ghost use Rattle.std.specs.Prelude.{◌≡◌, ◌+◌, ◌<◌, ◌^◌, ◌-◌, ◌≤◌, ℕ, List, true, cond, map, sum_by};
ghost use Rattle.std.specs.Prelude.{is_some, IsSome, IfSome, IfOk, OnOk};
ghost use Rattle.std.specs.BTreeMap.{get, keys};
ghost use Rattle.std.specs.List.{list_all};
ghost use Rattle.std.specs.Ordering.{nat_cmp};
ghost use Rattle.goo_spec.specs.Energy.{is_taken_back};
ghost use Rattle.goo_spec.specs.State.{Correction};
ghost use Rattle.goo_tables_rows.specs.Rows.{Lot, lot_in};
ghost use Rattle.goo_spec_tables.specs.Places.{place_of};
ghost use Rattle.goo_spec_tables.specs.Readable.{is_lot};
ghost use Rattle.goo_store_rules.specs.Correcting.{AreTakenBack};
ghost use Rattle.goo_store_rules.specs.Production.{standing_by, is_due, AreDevicesOf};
ghost use Rattle.goo_store_rules.specs.Summing.{sum_at, left_at};

use crate::declares::gsrn_in;
use crate::energy::{Energy, left_for};
use crate::sums::{add_to, sum_for};
use crate::taken_back::is_taken;
use goo_store_receipts::numbers::CERTIFICATE;
use goo_tables_rows::lot::LotRow;
use goo_tables_rows::piece::PieceRow;
use goo_types::gsrn::Gsrn;
use goo_types::limits::SERIALS;
use std::alloc::{AllocError, Global};
use std::collections::{BTreeMap, BTreeSet};

/// Whether a lot of this number is there.
fn is_known(devices: &BTreeMap<u64, Gsrn>, id: u64) -> bool
    ensures { result ≡ is_some (get nat_cmp devices.now id) }
{
    devices.contains_key(&id)
}

/// The device of each lot, where each is the number of one.
///
/// # Errors
///
/// Where an allocation is refused.
pub fn devices_of_lots(
    alloc: Global,
    rows: &[LotRow],
) -> Result<Option<BTreeMap<u64, Gsrn>>, AllocError>
    ensures value { IfOk result (λ o. IfSome o (AreDevicesOf (map lot_in rows.now))) }
    ensures readable { list_all (λ row. is_lot (lot_in row)) rows.now ≡ true → IfOk result IsSome }
{
    let mut devices = BTreeMap::new(alloc);
    for row in rows {
        let Some(device) = gsrn_in(&row.device) else {
            return Ok(None);
        };
        if !is_known(&devices, row.id) {
            devices.insert(row.id, device)?;
        }
    }
    Ok(Some(devices))
}

/// How many certificates a row has.
fn count_in(row: &PieceRow) -> u128
    ensures value { result ≡ row.now.last + 1 - row.now.first }
    ensures small { result ≤ 2 ^ 64 }
{
    (u128::from(row.last) + 1).saturating_sub(u128::from(row.first))
}

/// The same, but for a row that a correction of this device withdrew.
fn standing_count(row: &PieceRow, device: &Gsrn, taken: &BTreeSet<(Gsrn, u32)>) -> u128
    ensures value { (cs : List Correction) → AreTakenBack cs taken.now
        → result
        ≡ cond (is_taken_back device.now cs (place_of row.now.kind row.now.account row.now.act)) 0
        (row.now.last + 1 - row.now.first) }
    ensures small { result ≤ 2 ^ 64 }
{
    if row.kind == 4 && is_taken(taken, device, row.act) {
        return 0;
    }
    count_in(row)
}

/// Adds a row's certificates to their device, where they are the own ones of the registry of this
/// code and no correction withdrew them.
fn add_issued(
    counts: &mut BTreeMap<Gsrn, u128>,
    own: u32,
    row: &PieceRow,
    devices: &BTreeMap<u64, Gsrn>,
    taken: &BTreeSet<(Gsrn, u32)>,
) -> Result<(), AllocError>
    requires { (q : List ℕ) → sum_at counts.old q + 2 ^ 64 < 2 ^ 128 }
    ensures added { OnOk result
        ((lots : List Lot) → AreDevicesOf lots devices.now → (cs : List Correction)
        → AreTakenBack cs taken.now → (q : List ℕ)
        → sum_at counts.new q ≡ sum_at counts.old q + standing_by own lots cs q row.now) }
    ensures small { OnOk result
        ((q : List ℕ) → sum_at counts.new q ≤ sum_at counts.old q + 2 ^ 64) }
{
    if row.first / SERIALS != u64::from(own) {
        return Ok(());
    }
    match devices.get(&row.lot) {
        Some(device) => add_to(counts, *device, standing_count(row, device, taken)),
        None => Ok(()),
    }
}

/// How many certificates of the registry of this code were issued to each device, but for those
/// that its corrections withdrew.
///
/// # Errors
///
/// Where an allocation is refused.
pub fn count_issued(
    alloc: Global,
    own: u32,
    rows: &[PieceRow],
    devices: &BTreeMap<u64, Gsrn>,
    taken: &BTreeSet<(Gsrn, u32)>,
) -> Result<BTreeMap<Gsrn, u128>, AllocError>
    ensures { IfOk result
        (λ counts. (lots : List Lot) → AreDevicesOf lots devices.now → (cs : List Correction)
        → AreTakenBack cs taken.now → (q : List ℕ)
        → sum_at counts q ≡ sum_by (standing_by own lots cs q) rows.now) }
{
    let mut counts = BTreeMap::new(alloc);
    for row in rows {
        add_issued(&mut counts, own, row, devices, taken)?;
    }
    Ok(counts)
}

/// Whether a device was issued what is due, by these counts and sums.
fn has_its_due(counts: &BTreeMap<Gsrn, u128>, energy: &Energy, device: &Gsrn) -> bool
    ensures { result ≡ is_due (sum_at counts.now) (left_at energy.now) device.now }
{
    sum_for(counts, device) == left_for(energy, device) / CERTIFICATE
}

/// Whether each device that has one of these sums was issued what is due. A device that has none is
/// not among what they add up.
pub fn are_due(sums: &BTreeMap<Gsrn, u128>, counts: &BTreeMap<Gsrn, u128>, energy: &Energy) -> bool
    ensures { result ≡ list_all (is_due (sum_at counts.now) (left_at energy.now)) (keys sums.now) }
{
    let mut devices = sums.keys();
    devices.all(|device| has_its_due(counts, energy, device))
}
