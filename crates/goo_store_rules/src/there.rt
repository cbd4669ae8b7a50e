//! Whether what rows name is there.

ghost use Rattle.std.specs.Prelude.{◌≡◌, ◌==◌, ◌||◌, string_bytes, if◌then◌else◌};
ghost use Rattle.std.specs.List.{list_all};
ghost use Rattle.std.specs.Ordering.{nat_cmp};
ghost use Rattle.goo_types.specs.Number.{code_of};
ghost use Rattle.std.specs.BTreeSet.{contains};
ghost use Rattle.goo_store_rules.specs.WellKept.{has_text, act_in, is_timely, pair_cmp};
ghost use Rattle.goo_store_rules.specs.WellKept.{is_withdrawn};

use crate::keys::has;
use goo_store_receipts::cancellations::JudgedCancellation;
use goo_tables_rows::account::AccountRow;
use goo_tables_rows::correction::CorrectionRow;
use goo_tables_rows::declaration::DeclarationRow;
use goo_tables_rows::device::DeviceRow;
use goo_tables_rows::device_carrier::DeviceCarrierRow;
use goo_tables_rows::lot_carrier::LotCarrierRow;
use goo_tables_rows::notice_out::NoticeOutRow;
use goo_tables_rows::piece::PieceRow;
use goo_types::limits::SERIALS;
use std::collections::BTreeSet;

/// The numbers of the acts that take certificates out of circulation.
#[derive(Drop)]
pub struct ActNumbers {
    pub cancellations: BTreeSet<u32>,
    pub withdrawals: BTreeSet<u32>,
    pub sent: BTreeSet<u32>,
}

/// Whether each account's holder is one of these.
pub fn accounts_are_held(rows: &[AccountRow], holders: &BTreeSet<String>) -> bool
    ensures { result ≡ list_all (λ row. has_text holders.now (string_bytes row.holder)) rows.now }
{
    rows.iter().all(|row| has(holders, &row.holder))
}

/// Whether each device's account is one of these.
pub fn devices_have_accounts(rows: &[DeviceRow], accounts: &BTreeSet<u32>) -> bool
    ensures { result ≡ list_all (λ row. contains nat_cmp accounts.now row.account) rows.now }
{
    rows.iter().all(|device| has(accounts, &device.account))
}

/// Whether each declaration's device is one of these.
pub fn declarations_have_devices(rows: &[DeclarationRow], devices: &BTreeSet<String>) -> bool
    ensures { result ≡ list_all (λ row. has_text devices.now (string_bytes row.device)) rows.now }
{
    rows.iter().all(|row| has(devices, &row.device))
}

/// Whether the device of each carrier is one of these.
pub fn carriers_have_devices(rows: &[DeviceCarrierRow], devices: &BTreeSet<String>) -> bool
    ensures { result ≡ list_all (λ row. has_text devices.now (string_bytes row.gsrn)) rows.now }
{
    rows.iter().all(|row| has(devices, &row.gsrn))
}

/// Whether the lot of each carrier is one of these.
pub fn carriers_have_lots(rows: &[LotCarrierRow], lots: &BTreeSet<u64>) -> bool
    ensures { result ≡ list_all (λ row. contains nat_cmp lots.now row.lot) rows.now }
{
    rows.iter().all(|row| has(lots, &row.lot))
}

/// Whether each piece's account is one of these.
pub fn pieces_have_accounts(rows: &[PieceRow], accounts: &BTreeSet<u32>) -> bool
    ensures { result ≡ list_all (λ row. contains nat_cmp accounts.now row.account) rows.now }
{
    rows.iter().all(|piece| has(accounts, &piece.account))
}

/// Whether each cancellation's account is one of these.
pub fn cancellations_have_accounts(rows: &[JudgedCancellation], accounts: &BTreeSet<u32>) -> bool
    ensures { result ≡ list_all (λ row. contains nat_cmp accounts.now row.account) rows.now }
{
    rows.iter()
        .all(|cancellation| has(accounts, &cancellation.account))
}

/// Whether the account of each notice that was sent is one of these.
pub fn notices_have_accounts(rows: &[NoticeOutRow], accounts: &BTreeSet<u32>) -> bool
    ensures { result ≡ list_all (λ row. contains nat_cmp accounts.now row.account) rows.now }
{
    rows.iter().all(|notice| has(accounts, &notice.account))
}

/// Whether the act that a piece names, if it names one, is there.
fn has_act(row: &PieceRow, acts: &ActNumbers) -> bool
    ensures { result
        ≡ act_in (contains nat_cmp acts.now.cancellations) (contains nat_cmp acts.now.withdrawals)
        (contains nat_cmp acts.now.sent) row.now }
{
    match row.kind {
        2 => has(&acts.cancellations, &row.act),
        4 => has(&acts.withdrawals, &row.act),
        5 => has(&acts.sent, &row.act),
        _ => true,
    }
}

/// Whether each act that pieces name is there.
pub fn pieces_have_acts(rows: &[PieceRow], acts: &ActNumbers) -> bool
    ensures { result
        ≡ list_all
        (act_in (contains nat_cmp acts.now.cancellations) (contains nat_cmp acts.now.withdrawals)
        (contains nat_cmp acts.now.sent)) rows.now }
{
    rows.iter().all(|row| has_act(row, acts))
}

/// Whether a piece may be in its place today.
fn is_in_time(row: &PieceRow, over: &BTreeSet<u64>, closed: &BTreeSet<u32>) -> bool
    ensures { result ≡ is_timely (contains nat_cmp over.now) (contains nat_cmp closed.now) row.now }
{
    match row.kind {
        1 => !has(over, &row.lot) && !has(closed, &row.account),
        3 => has(over, &row.lot),
        _ => true,
    }
}

/// Whether each piece may be in its place today: `over` has the lots that are over, `closed` the
/// accounts that are closed.
pub fn pieces_are_in_time(rows: &[PieceRow], over: &BTreeSet<u64>, closed: &BTreeSet<u32>) -> bool
    ensures { result
        ≡ list_all (is_timely (contains nat_cmp over.now) (contains nat_cmp closed.now)) rows.now }
{
    rows.iter().all(|row| is_in_time(row, over, closed))
}

/// Whether each piece's certificates have the code of their lot's origin: `lots` has the lots, each
/// with its origin.
pub fn pieces_are_of_origins(rows: &[PieceRow], lots: &BTreeSet<(u64, u64)>) -> bool
    ensures { result
        ≡ list_all (λ row. contains pair_cmp lots.now (row.lot, code_of row.first)) rows.now }
{
    rows.iter()
        .all(|row| has(lots, &(row.lot, row.first / SERIALS)))
}

/// Whether the withdrawal that each correction names, if it names one, is one of these.
pub fn corrections_are_withdrawn(rows: &[CorrectionRow], withdrawals: &BTreeSet<u32>) -> bool
    ensures { result
        ≡ list_all
        (λ row. is_withdrawn (contains nat_cmp withdrawals.now) row.withdrawal) rows.now }
{
    rows.iter().all(|row| row.withdrawal == 0 || has(withdrawals, &row.withdrawal))
}
