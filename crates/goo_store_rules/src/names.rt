//! Whether every name that rows give is there.

ghost use Rattle.std.specs.Prelude.{◌≡◌, ◌&&◌, map, string_bytes, IfOk};
ghost use Rattle.std.specs.List.{list_all};
ghost use Rattle.goo_types.specs.Number.{code_of};
ghost use Rattle.goo_tables_rows.specs.Rows.{holder_in, account_in, device_in, declaration_in};
ghost use Rattle.goo_tables_rows.specs.Rows.{lot_in, withdrawal_in, notice_out_in};
ghost use Rattle.goo_store_rules.specs.WellKept.{has_holder, has_account, has_device, has_lot};
ghost use Rattle.goo_store_rules.specs.WellKept.{has_cancellation, has_withdrawal, has_sent};
ghost use Rattle.goo_store_rules.specs.WellKept.{has_lot_of, has_over, has_closed, act_in};
ghost use Rattle.goo_store_rules.specs.WellKept.{is_timely, has_declaration, is_declared};
ghost use Rattle.goo_store_rules.specs.WellKept.{is_withdrawn};

use crate::declared::{corrections_are_declared, own_lots_are_declared, periods_of};
use crate::in_turn::are_declared_in_turn;
use crate::marked::{closed_accounts, lot_origins, lots_over};
use crate::named::{
    account_numbers, cancellation_numbers, lot_numbers, sent_numbers, withdrawal_numbers,
};
use crate::named_texts::{corrected_devices, device_gsrns, devices_with_lots, holder_codes};
use crate::there::{
    ActNumbers, accounts_are_held, cancellations_have_accounts, carriers_have_devices,
    carriers_have_lots, corrections_are_withdrawn, declarations_have_devices,
    devices_have_accounts, notices_have_accounts, pieces_are_in_time, pieces_are_of_origins,
    pieces_have_accounts, pieces_have_acts,
};
use goo_store_receipts::cancellations::JudgedCancellation;
use goo_tables_rows::account::AccountRow;
use goo_tables_rows::correction::CorrectionRow;
use goo_tables_rows::declaration::DeclarationRow;
use goo_tables_rows::device::DeviceRow;
use goo_tables_rows::device_carrier::DeviceCarrierRow;
use goo_tables_rows::holder::HolderRow;
use goo_tables_rows::lot::LotRow;
use goo_tables_rows::lot_carrier::LotCarrierRow;
use goo_tables_rows::notice_out::NoticeOutRow;
use goo_tables_rows::piece::PieceRow;
use goo_tables_rows::withdrawal::WithdrawalRow;
use std::alloc::{AllocError, Global};

/// Whether each account's holder is there.
///
/// # Errors
///
/// Where an allocation is refused.
pub fn holders_are_there(
    alloc: Global,
    accounts: &[AccountRow],
    holders: &[HolderRow],
) -> Result<bool, AllocError>
    ensures { IfOk result
        (λ yes. yes
        ≡ list_all
        (λ row. has_holder (map holder_in holders.now) (string_bytes row.holder)) accounts.now) }
{
    let codes = holder_codes(alloc, holders)?;
    Ok(accounts_are_held(accounts, &codes))
}

/// Whether each declaration's device is there.
///
/// # Errors
///
/// Where an allocation is refused.
pub fn devices_are_there(
    alloc: Global,
    declarations: &[DeclarationRow],
    devices: &[DeviceRow],
) -> Result<bool, AllocError>
    ensures { IfOk result
        (λ yes. yes
        ≡ list_all
        (λ row. has_device (map device_in devices.now) (string_bytes row.device))
        declarations.now) }
{
    let gsrns = device_gsrns(alloc, devices)?;
    Ok(declarations_have_devices(declarations, &gsrns))
}

/// Whether the device of each carrier is there.
///
/// # Errors
///
/// Where an allocation is refused.
pub fn carried_devices_are_there(
    alloc: Global,
    carriers: &[DeviceCarrierRow],
    devices: &[DeviceRow],
) -> Result<bool, AllocError>
    ensures { IfOk result
        (λ yes. yes
        ≡ list_all
        (λ row. has_device (map device_in devices.now) (string_bytes row.gsrn)) carriers.now) }
{
    let gsrns = device_gsrns(alloc, devices)?;
    Ok(carriers_have_devices(carriers, &gsrns))
}

/// Whether the lot of each carrier is there.
///
/// # Errors
///
/// Where an allocation is refused.
pub fn carried_lots_are_there(
    alloc: Global,
    carriers: &[LotCarrierRow],
    lots: &[LotRow],
) -> Result<bool, AllocError>
    ensures { IfOk result
        (λ yes. yes ≡ list_all (λ row. has_lot (map lot_in lots.now) row.lot) carriers.now) }
{
    let numbers = lot_numbers(alloc, lots)?;
    Ok(carriers_have_lots(carriers, &numbers))
}

/// Whether the accounts of devices and pieces are there.
///
/// # Errors
///
/// Where an allocation is refused.
pub fn accounts_are_there(
    alloc: Global,
    accounts: &[AccountRow],
    devices: &[DeviceRow],
    pieces: &[PieceRow],
) -> Result<bool, AllocError>
    ensures { IfOk result
        (λ yes. yes
        ≡ (list_all
        (λ row. has_account (map account_in accounts.now) row.account) devices.now && list_all
        (λ row. has_account (map account_in accounts.now) row.account) pieces.now)) }
{
    let numbers = account_numbers(alloc, accounts)?;
    Ok(devices_have_accounts(devices, &numbers) && pieces_have_accounts(pieces, &numbers))
}

/// Whether the accounts of cancellations and of notices that were sent are there.
///
/// # Errors
///
/// Where an allocation is refused.
pub fn accounts_of_acts_are_there(
    alloc: Global,
    accounts: &[AccountRow],
    cancellations: &[JudgedCancellation],
    sent: &[NoticeOutRow],
) -> Result<bool, AllocError>
    ensures { IfOk result
        (λ yes. yes
        ≡ (list_all
        (λ row. has_account (map account_in accounts.now) row.account) cancellations.now && list_all
        (λ row. has_account (map account_in accounts.now) row.account) sent.now)) }
{
    let numbers = account_numbers(alloc, accounts)?;
    Ok(
        cancellations_have_accounts(cancellations, &numbers)
            && notices_have_accounts(sent, &numbers),
    )
}

/// Whether each act that a piece names is there.
///
/// # Errors
///
/// Where an allocation is refused.
pub fn acts_are_there(
    alloc: Global,
    pieces: &[PieceRow],
    cancellations: &[JudgedCancellation],
    withdrawals: &[WithdrawalRow],
    sent: &[NoticeOutRow],
) -> Result<bool, AllocError>
    ensures { IfOk result
        (λ yes. yes
        ≡ list_all
        (act_in (has_cancellation cancellations.now)
        (has_withdrawal (map withdrawal_in withdrawals.now))
        (has_sent (map notice_out_in sent.now))) pieces.now) }
{
    let acts = ActNumbers {
        cancellations: cancellation_numbers(alloc, cancellations)?,
        withdrawals: withdrawal_numbers(alloc, withdrawals)?,
        sent: sent_numbers(alloc, sent)?,
    };
    Ok(pieces_have_acts(pieces, &acts))
}

/// Whether each piece's lot is there, with the code of its certificates as its origin.
///
/// # Errors
///
/// Where an allocation is refused.
pub fn lots_are_there(
    alloc: Global,
    pieces: &[PieceRow],
    lots: &[LotRow],
) -> Result<bool, AllocError>
    ensures { IfOk result
        (λ yes. yes
        ≡ list_all
        (λ row. has_lot_of (code_of row.first) (map lot_in lots.now) row.lot) pieces.now) }
{
    let origins = lot_origins(alloc, lots)?;
    Ok(pieces_are_of_origins(pieces, &origins))
}

/// Whether held pieces are of lots that aren't over, in open accounts, and expired ones of lots
/// that are over.
///
/// # Errors
///
/// Where an allocation is refused.
pub fn places_are_in_time(
    alloc: Global,
    today: &str,
    pieces: &[PieceRow],
    lots: &[LotRow],
    accounts: &[AccountRow],
) -> Result<bool, AllocError>
    ensures { IfOk result
        (λ yes. yes
        ≡ list_all
        (is_timely (has_over today.now (map lot_in lots.now))
        (has_closed (map account_in accounts.now))) pieces.now) }
{
    let over = lots_over(alloc, today, lots)?;
    let closed = closed_accounts(alloc, accounts)?;
    Ok(pieces_are_in_time(pieces, &over, &closed))
}

/// Whether each lot of the registry of this code has a declaration of its device with its first
/// day. The declarations are looked up only where lots don't come in their order.
///
/// # Errors
///
/// Where an allocation is refused.
fn lots_have_declarations(
    alloc: Global,
    own: u32,
    lots: &[LotRow],
    declarations: &[DeclarationRow],
) -> Result<bool, AllocError>
    ensures { IfOk result
        (λ yes. yes
        ≡ list_all
        (λ row. is_declared (has_declaration (map declaration_in declarations.now)) own
        (lot_in row)) lots.now) }
{
    if are_declared_in_turn(own, lots, declarations) {
        return Ok(true);
    }
    let devices = devices_with_lots(alloc, lots)?;
    let periods = periods_of(alloc, &devices, declarations)?;
    own_lots_are_declared(own, lots, &periods)
}

/// Whether each correction has a declaration of its device with its first day. The declarations of
/// corrected devices alone are looked up.
///
/// # Errors
///
/// Where an allocation is refused.
fn corrections_have_declarations(
    alloc: Global,
    corrections: &[CorrectionRow],
    declarations: &[DeclarationRow],
) -> Result<bool, AllocError>
    ensures { IfOk result
        (λ yes. yes
        ≡ list_all
        (λ row. has_declaration (map declaration_in declarations.now) (string_bytes row.device)
        (string_bytes row.first_day)) corrections.now) }
{
    let devices = corrected_devices(alloc, corrections)?;
    let periods = periods_of(alloc, &devices, declarations)?;
    corrections_are_declared(corrections, &periods)
}

/// Whether each lot of the registry of this code, and each correction, has a declaration of its
/// device with its first day.
///
/// # Errors
///
/// Where an allocation is refused.
pub fn have_declarations(
    alloc: Global,
    own: u32,
    lots: &[LotRow],
    corrections: &[CorrectionRow],
    declarations: &[DeclarationRow],
) -> Result<bool, AllocError>
    ensures { IfOk result
        (λ yes. yes
        ≡ (list_all
        (λ row. is_declared (has_declaration (map declaration_in declarations.now)) own
        (lot_in row)) lots.now && list_all
        (λ row. has_declaration (map declaration_in declarations.now) (string_bytes row.device)
        (string_bytes row.first_day)) corrections.now)) }
{
    Ok(
        lots_have_declarations(alloc, own, lots, declarations)?
            && corrections_have_declarations(alloc, corrections, declarations)?,
    )
}

/// Whether each withdrawal that a correction names is there.
///
/// # Errors
///
/// Where an allocation is refused.
pub fn withdrawals_are_there(
    alloc: Global,
    corrections: &[CorrectionRow],
    withdrawals: &[WithdrawalRow],
) -> Result<bool, AllocError>
    ensures { IfOk result
        (λ yes. yes
        ≡ list_all
        (λ row. is_withdrawn (has_withdrawal (map withdrawal_in withdrawals.now)) row.withdrawal)
        corrections.now) }
{
    let numbers = withdrawal_numbers(alloc, withdrawals)?;
    Ok(corrections_are_withdrawn(corrections, &numbers))
}
