//! The certificates that each device was issued, added up row by row.

ghost use Rattle.std.specs.Prelude.{◌≡◌, ℕ, ◌+◌, ◌-◌, ◌≤◌, ◌<◌, ◌==◌, ◌&&◌, cond, List, [], ◌∷◌};
ghost use Rattle.std.specs.Prelude.{map, IfOk, IsOk, OnOk, IsOkUnless};
ghost use Rattle.std.specs.List.{list_any};
ghost use Rattle.goo_types.specs.Number.{code_of};
ghost use Rattle.goo_spec.specs.Energy.{withdrew};
ghost use Rattle.goo_spec.specs.State.{Correction};
ghost use Rattle.goo_store_audit.specs.Counting.{all_numbers, share_of, shares_of, end_of};
ghost use Rattle.goo_store_audit.specs.Counting.{AreAdded, AreCountable, IsBelow, IsShare};
ghost use Rattle.goo_store_rules.specs.Correcting.{AreTakenBack};
ghost use Rattle.goo_store_rules.specs.Summing.{sum_at};
ghost use Rattle.goo_store_values.specs.Passing.{Accepts, Passes};
ghost use Rattle.goo_store_values.specs.declared.statement_fault.StatementFault.TheVariants.{Memory};
ghost use Rattle.goo_tables_pages.specs.DevicePieces.{device_piece_in};

use goo_store_rules::sums::add_to;
use goo_store_rules::taken_back::is_taken;
use goo_store_values::statement_fault::StatementFault;
use goo_store_values::texts;
use goo_tables_pages::device_pieces::DevicePieceRow;
use goo_tables_rows::piece::PieceRow;
use goo_types::gsrn::Gsrn;
use goo_types::limits::SERIALS;
use goo_types::registry_code::RegistryCode;
use sqlite::Error;
use std::alloc::Global;
use std::collections::{BTreeMap, BTreeSet};

/// A number above all certificates' numbers.
const ALL_NUMBERS: u64 = 100_000_000_000_000;

/// The kind of a row whose certificates are withdrawn.
const WITHDRAWN: u32 = 4;

/// The certificates of each device in the rows that were counted.
#[derive(Drop)]
pub struct DeviceTally {
    /// How many were issued to it.
    pub issued: BTreeMap<Gsrn, u128>,
    /// How many of them its corrections withdrew.
    pub corrected: BTreeMap<Gsrn, u128>,
}

impl DeviceTally {
    /// No row is counted yet.
    pub fn none(alloc: Global) -> DeviceTally
        ensures issued { (q : List ℕ) → sum_at result.issued q ≡ 0 }
        ensures corrected { (q : List ℕ) → sum_at result.corrected q ≡ 0 }
        ensures below { IsBelow 0 result }
    {
        DeviceTally {
            issued: BTreeMap::new(alloc),
            corrected: BTreeMap::new(alloc),
        }
    }
}

/// The number after the last of a row, which must be a range that begins at `low` or later.
fn number_after(piece: &PieceRow, low: u64) -> Result<u64, StatementFault>
    ensures value { IfOk result
        (λ next. (next ≡ piece.now.last + 1) × (low ≤ piece.now.first)
        × (piece.now.first ≤ piece.now.last) × (next ≤ all_numbers)) }
    ensures accepts { low ≤ piece.now.first → piece.now.first ≤ piece.now.last
        → piece.now.last < all_numbers → IsOk result }
{
    if piece.first < low || piece.last < piece.first || piece.last >= ALL_NUMBERS {
        return Err(StatementFault::Refused);
    }
    Ok(piece.last + 1)
}

/// How many certificates of a row are a registry's own ones, where `next` is the number after the
/// last.
fn own_count(own: RegistryCode, piece: &PieceRow, next: u64) -> u64
    ensures value { result ≡ cond (code_of piece.now.first == own) (next - piece.now.first) 0 }
    ensures most { piece.now.first ≤ next → piece.now.first + result ≤ next }
{
    if piece.first / SERIALS == u64::from(own.get()) {
        next.saturating_sub(piece.first)
    } else {
        0
    }
}

/// How many certificates of a row of the device are a registry's own ones that its corrections
/// withdrew, where `next` is the number after the last.
fn back_count(
    own: RegistryCode,
    withdrawals: &BTreeSet<(Gsrn, u32)>,
    device: &Gsrn,
    piece: &PieceRow,
    next: u64,
) -> u64
    ensures value { (cs : List Correction) → AreTakenBack cs withdrawals.now
        → result ≡ cond ((piece.now.kind == 4) && list_any (withdrew device.now piece.now.act) cs)
        (cond (code_of piece.now.first == own) (next - piece.now.first) 0) 0 }
    ensures most { piece.now.first ≤ next → piece.now.first + result ≤ next }
{
    if piece.kind == WITHDRAWN && is_taken(withdrawals, device, piece.act) {
        own_count(own, piece, next)
    } else {
        0
    }
}

/// Counts a row, which must be a range that begins at `low` or later; the number after its last.
fn count_row(
    own: RegistryCode,
    withdrawals: &BTreeSet<(Gsrn, u32)>,
    row: &DevicePieceRow,
    low: u64,
    tally: &mut DeviceTally,
) -> Result<u64, StatementFault>
    requires { IsBelow low tally.old }
    ensures next { IfOk result
        (λ next. (next ≡ row.now.piece.last + 1) × (low + 1 ≤ next) × IsBelow next tally.new) }
    ensures added { OnOk result
        (AreAdded own withdrawals.now (share_of (device_piece_in row.now) ∷ [])
        tally.old tally.new) }
    ensures accepts { IsShare low (device_piece_in row.now) → IsOkUnless result Memory }
{
    let device = texts::gsrn(&row.device)?;
    let next = number_after(&row.piece, low)?;
    let issued = own_count(own, &row.piece, next);
    let corrected = back_count(own, withdrawals, &device, &row.piece, next);
    add_to(&mut tally.issued, device, u128::from(issued))?;
    add_to(&mut tally.corrected, device, u128::from(corrected))?;
    Ok(next)
}

/// Counts rows, which must be ranges that rise and begin at `low` or later; the number after the
/// last of them.
fn count_rows(
    own: RegistryCode,
    withdrawals: &BTreeSet<(Gsrn, u32)>,
    rows: &[DevicePieceRow],
    low: u64,
    tally: &mut DeviceTally,
) -> Result<u64, StatementFault>
    requires { IsBelow low tally.old }
    ensures next { IfOk result (λ next. next ≡ end_of low (shares_of rows.now)) }
    ensures added { OnOk result
        (AreAdded own withdrawals.now (shares_of rows.now) tally.old tally.new) }
    ensures below { IfOk result (λ next. (low ≤ next) × IsBelow next tally.new) }
    ensures accepts { AreCountable low (map device_piece_in rows.now) → IsOkUnless result Memory }
{
    let mut next = low;
    for row in rows {
        next = count_row(own, withdrawals, row, next, tally)?;
    }
    Ok(next)
}

/// Counts the rows that were found, which must be ranges that rise and begin at `low` or later; the
/// number after the last of them.
pub fn count_found(
    own: RegistryCode,
    withdrawals: &BTreeSet<(Gsrn, u32)>,
    found: Result<Vec<DevicePieceRow>, Error>,
    low: u64,
    tally: &mut DeviceTally,
) -> Result<u64, StatementFault>
    requires { IsBelow low tally.old }
    ensures value { Passes found result
        (λ rows next. (next ≡ end_of low (shares_of rows.items))
        × AreAdded own withdrawals.now (shares_of rows.items) tally.old tally.new) }
    ensures below { IfOk result (λ next. (low ≤ next) × IsBelow next tally.new) }
    ensures accepts { Accepts found result
        (λ rows. AreCountable low (map device_piece_in rows.items)) }
{
    count_rows(own, withdrawals, &found?, low, tally)
}
