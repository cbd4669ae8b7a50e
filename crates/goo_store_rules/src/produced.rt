//! What devices declared, beside what their rows keep of it and what was issued for it.

ghost use Rattle.std.specs.Prelude.{◌≡◌, ◌↔◌, ℕ, List, true, map, pos, IsTrue, IfOk, sum_by};
ghost use Rattle.std.specs.List.{list_all};
ghost use Rattle.goo_tables_rows.specs.Beside.{beside};
ghost use Rattle.goo_tables_rows.specs.Rows.{Lot, device_in, lot_in};
ghost use Rattle.goo_types.specs.declared.command.Declare.{Declare as Declaration};
ghost use Rattle.goo_tables_rows.specs.declared.piece.PieceRow.{PieceRow as Row};
ghost use Rattle.goo_spec.specs.State.{Correction};
ghost use Rattle.goo_spec_tables.specs.Places.{piece_of};
ghost use Rattle.goo_spec_tables.specs.Readable.{is_device, is_lot};
ghost use Rattle.goo_store_rules.specs.Production.{standing_by, AreDevicesOf, AreIssuedWhenDue};
ghost use Rattle.goo_store_rules.specs.Production.{IsProductionAccepted, IsProductionKept};
ghost use Rattle.goo_store_rules.specs.Production.{IsCorrectedKept, KeepsProduction, pieces_in};
ghost use Rattle.goo_store_rules.specs.Summing.{sum_at, KeepsEnergy};

use crate::corrects::corrects_in;
use crate::declares::declares_in;
use crate::energy::{Energy, sum_energy};
use crate::issued::{are_due, count_issued, devices_of_lots};
use crate::lowered::cover_corrections;
use crate::periods::last_days;
use crate::progress::keep_progress;
use crate::taken_back::withdrawals_of;
use goo_core_shelf::correct_record::CorrectRecord;
use goo_store_open::rows::Production;
use goo_tables_rows::device::DeviceRow;
use goo_tables_rows::lot::LotRow;
use goo_tables_rows::piece::PieceRow;
use goo_types::command::Declare;
use goo_types::gsrn::Gsrn;
use std::alloc::{AllocError, Global};
use std::collections::BTreeMap;

/// Whether each device was issued what is due, by these sums of what was declared and of what was
/// issued. A device in neither declared nothing and was issued nothing.
fn have_due(energy: &Energy, counts: &BTreeMap<Gsrn, u128>) -> bool
    ensures { (own : ℕ) (lots : List Lot) (xs : List Declaration) (cs : List Correction)
        (rows : List Row)
        → ((q : List ℕ) → sum_at counts.now q ≡ sum_by (standing_by own lots cs q) rows)
        → KeepsEnergy xs cs energy.now
        → IsTrue result ↔ AreIssuedWhenDue own xs cs (map piece_of (beside lots rows)) }
{
    are_due(&energy.declared, counts, energy) && are_due(counts, counts, energy)
}

/// Whether each device was issued, by the registry of this code, what is due for its declarations
/// and corrections, whose sums are these.
///
/// # Errors
///
/// Where an allocation is refused.
fn were_issued_when_due(
    alloc: Global,
    own: u32,
    declared: &[Declare],
    corrected: &[CorrectRecord],
    energy: &Energy,
    lots: &[LotRow],
    pieces: &[PieceRow],
) -> Result<bool, AllocError>
    ensures { KeepsEnergy declared.now corrected.now energy.now
        → list_all (λ row. is_lot (lot_in row)) lots.now ≡ true
        → IfOk result
        (λ yes. IsTrue yes
        ↔ AreIssuedWhenDue own declared.now corrected.now
        (map piece_of (beside (map lot_in lots.now) pieces.now))) }
{
    let Some(devices) = devices_of_lots(alloc, lots)? else {
        return Ok(false);
    };
    let taken = withdrawals_of(alloc, corrected)?;
    let counts = count_issued(alloc, own, pieces, &devices, &taken)?;
    Ok(have_due(energy, &counts))
}

/// Whether each device's periods rise, its row keeps what they come to, and it was issued what is
/// due.
///
/// # Errors
///
/// Where an allocation is refused.
fn keeps_declared(
    alloc: Global,
    own: u32,
    declared: &[Declare],
    corrected: &[CorrectRecord],
    devices: &[DeviceRow],
    lots: &[LotRow],
    pieces: &[PieceRow],
) -> Result<bool, AllocError>
    ensures { list_all (λ row. is_device (pos 0, device_in row)) devices.now ≡ true
        → list_all (λ row. is_lot (lot_in row)) lots.now ≡ true
        → IfOk result
        (λ yes. IsTrue yes
        ↔ IsProductionKept own (map device_in devices.now) declared.now corrected.now
        (map piece_of (beside (map lot_in lots.now) pieces.now))) }
{
    let Some(ends) = last_days(alloc, declared)? else {
        return Ok(false);
    };
    let energy = sum_energy(alloc, declared, corrected)?;
    if !keep_progress(devices, &ends, &energy) {
        return Ok(false);
    }
    were_issued_when_due(alloc, own, declared, corrected, &energy, lots, pieces)
}

/// The same, and whether no declaration was lowered by more than its net energy.
///
/// # Errors
///
/// Where an allocation is refused.
fn keeps_corrected(
    alloc: Global,
    own: u32,
    declared: &[Declare],
    corrected: &[CorrectRecord],
    rows: &Production,
) -> Result<bool, AllocError>
    ensures { IsProductionAccepted rows.now
        → IfOk result
        (λ yes. IsTrue yes
        ↔ IsCorrectedKept own (map device_in rows.now.devices.items) declared.now corrected.now
        (pieces_in rows.now)) }
{
    if !cover_corrections(alloc, declared, corrected)? {
        return Ok(false);
    }
    keeps_declared(
        alloc,
        own,
        declared,
        corrected,
        &rows.devices,
        &rows.lots,
        &rows.pieces,
    )
}

/// The same of the rows that were read.
///
/// # Errors
///
/// Where an allocation is refused.
pub fn keeps_production(alloc: Global, own: u32, rows: &Production) -> Result<bool, AllocError>
    ensures { IsProductionAccepted rows.now
        → IfOk result (λ yes. IsTrue yes ↔ KeepsProduction own rows.now) }
{
    let Some(declared) = declares_in(alloc, &rows.declarations)? else {
        return Ok(false);
    };
    let Some(corrected) = corrects_in(alloc, &rows.corrections)? else {
        return Ok(false);
    };
    keeps_corrected(alloc, own, &declared, &corrected, rows)
}
