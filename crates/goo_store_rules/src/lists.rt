//! Rules that each row of a table keeps by itself.

ghost use Rattle.std.specs.Prelude.{◌≡◌, pos};
ghost use Rattle.std.specs.List.{list_all};
ghost use Rattle.goo_tables_rows.specs.Rows.{holder_in, account_in, device_in, declaration_in};
ghost use Rattle.goo_tables_rows.specs.Rows.{lot_in, withdrawal_in};
ghost use Rattle.goo_tables_rows.specs.Rows.{correction_in, notice_out_in, device_carrier_in};
ghost use Rattle.goo_tables_rows.specs.Rows.{lot_carrier_in};
ghost use Rattle.goo_spec_tables.specs.Readable.{is_holder, is_account, is_device, is_declaration};
ghost use Rattle.goo_spec_tables.specs.Readable.{is_lot, is_piece, is_peer};
ghost use Rattle.goo_spec_tables.specs.Readable.{is_withdrawal, is_correction};
ghost use Rattle.goo_spec_tables.specs.Readable.{is_device_carrier, is_lot_carrier};
ghost use Rattle.goo_store_rules.specs.WellKept.{is_no_issuer, is_another, covers_aux};
ghost use Rattle.goo_store_rules.specs.WellKept.{account_given, cancellation_given};
ghost use Rattle.goo_store_rules.specs.WellKept.{withdrawal_given, notice_given, is_issued};

use crate::values::{
    accepts_account, accepts_correction, accepts_declaration, accepts_device,
    accepts_device_carrier, accepts_holder, accepts_lot, accepts_lot_carrier, accepts_peer,
    accepts_piece, accepts_withdrawal,
};
use goo_store_receipts::cancellations::JudgedCancellation;
use goo_store_receipts::receipts::JudgedReceipt;
use goo_tables_rows::account::AccountRow;
use goo_tables_rows::correction::CorrectionRow;
use goo_tables_rows::declaration::DeclarationRow;
use goo_tables_rows::device::DeviceRow;
use goo_tables_rows::device_carrier::DeviceCarrierRow;
use goo_tables_rows::holder::HolderRow;
use goo_tables_rows::lot::LotRow;
use goo_tables_rows::lot_carrier::LotCarrierRow;
use goo_tables_rows::notice_out::NoticeOutRow;
use goo_tables_rows::peer::PeerRow;
use goo_tables_rows::piece::PieceRow;
use goo_tables_rows::withdrawal::WithdrawalRow;
use goo_types::limits::{ISSUER, SERIALS};

/// Whether each value of the holders is one that its reader accepts.
pub fn accepts_holders(rows: &[HolderRow]) -> bool
    ensures { result ≡ list_all (λ row. is_holder (pos 0, holder_in row)) rows.now }
{
    rows.iter().all(|row| accepts_holder(row))
}

/// The same of the accounts.
pub fn accepts_accounts(rows: &[AccountRow]) -> bool
    ensures { result ≡ list_all (λ row. is_account (account_in row)) rows.now }
{
    rows.iter().all(|row| accepts_account(row))
}

/// The same of the devices.
pub fn accepts_devices(rows: &[DeviceRow]) -> bool
    ensures { result ≡ list_all (λ row. is_device (pos 0, device_in row)) rows.now }
{
    rows.iter().all(|row| accepts_device(row))
}

/// The same of the declarations.
pub fn accepts_declarations(rows: &[DeclarationRow]) -> bool
    ensures { result ≡ list_all (λ row. is_declaration (declaration_in row)) rows.now }
{
    rows.iter().all(|row| accepts_declaration(row))
}

/// The same of the lots.
pub fn accepts_lots(rows: &[LotRow]) -> bool
    ensures { result ≡ list_all (λ row. is_lot (lot_in row)) rows.now }
{
    rows.iter().all(|row| accepts_lot(row))
}

/// The same of the pieces.
pub fn accepts_pieces(rows: &[PieceRow]) -> bool
    ensures { result ≡ list_all is_piece rows.now }
{
    rows.iter().all(|row| accepts_piece(row))
}

/// The same of the peers.
pub fn accepts_peers(rows: &[PeerRow]) -> bool
    ensures { result ≡ list_all (λ row. is_peer (pos 0, row)) rows.now }
{
    rows.iter().all(|row| accepts_peer(row))
}

/// The same of the receipts, which were judged as they were read.
pub fn accepts_receipts(rows: &[JudgedReceipt]) -> bool
    ensures { result ≡ list_all (λ row. row.is_good) rows.now }
{
    rows.iter().all(|row| row.is_good)
}

/// The same of the cancellations, which were judged as they were read.
pub fn accepts_cancellations(rows: &[JudgedCancellation]) -> bool
    ensures { result ≡ list_all (λ row. row.is_good) rows.now }
{
    rows.iter().all(|cancellation| cancellation.is_good)
}

/// The same of the withdrawals.
pub fn accepts_withdrawals(rows: &[WithdrawalRow]) -> bool
    ensures { result ≡ list_all (λ row. is_withdrawal (withdrawal_in row)) rows.now }
{
    rows.iter().all(|row| accepts_withdrawal(row))
}

/// The same of the corrections.
pub fn accepts_corrections(rows: &[CorrectionRow]) -> bool
    ensures { result ≡ list_all (λ row. is_correction (correction_in row)) rows.now }
{
    rows.iter().all(|row| accepts_correction(row))
}

/// The same of the carriers of devices.
pub fn accepts_device_carriers(rows: &[DeviceCarrierRow]) -> bool
    ensures { result ≡ list_all (λ row. is_device_carrier (pos 0, device_carrier_in row)) rows.now }
{
    rows.iter().all(|row| accepts_device_carrier(row))
}

/// The same of the carriers of lots.
pub fn accepts_lot_carriers(rows: &[LotCarrierRow]) -> bool
    ensures { result ≡ list_all (λ row. is_lot_carrier (lot_carrier_in row)) rows.now }
{
    rows.iter().all(|row| accepts_lot_carrier(row))
}

/// Whether the issuing body is no holder.
pub fn have_no_issuer(rows: &[HolderRow]) -> bool
    ensures { result ≡ list_all (λ row. is_no_issuer (holder_in row)) rows.now }
{
    rows.iter()
        .all(|row| row.code.as_bytes() != ISSUER.as_bytes())
}

/// Whether no peer is the registry itself.
pub fn are_others(own: u32, rows: &[PeerRow]) -> bool
    ensures { result ≡ list_all (is_another own) rows.now }
{
    rows.iter().all(|row| row.code != own)
}

/// Whether no auxiliaries use more than was produced.
pub fn cover_aux(rows: &[DeclarationRow]) -> bool
    ensures { result ≡ list_all (λ row. covers_aux (declaration_in row)) rows.now }
{
    rows.iter().all(|row| row.aux <= row.gross)
}

/// Whether the numbers of the accounts are below the next one.
pub fn are_given_accounts(next: u32, rows: &[AccountRow]) -> bool
    ensures { result ≡ list_all (λ row. account_given next (account_in row)) rows.now }
{
    rows.iter().all(|account| account.number < next)
}

/// The same of the cancellations.
pub fn are_given_cancellations(next: u32, rows: &[JudgedCancellation]) -> bool
    ensures { result ≡ list_all (cancellation_given next) rows.now }
{
    rows.iter().all(|cancellation| cancellation.number < next)
}

/// The same of the withdrawals.
pub fn are_given_withdrawals(next: u32, rows: &[WithdrawalRow]) -> bool
    ensures { result ≡ list_all (λ row. withdrawal_given next (withdrawal_in row)) rows.now }
{
    rows.iter().all(|withdrawal| withdrawal.number < next)
}

/// The same of the notices that were sent.
pub fn are_given_notices(next: u32, rows: &[NoticeOutRow]) -> bool
    ensures { result ≡ list_all (λ row. notice_given next (notice_out_in row)) rows.now }
{
    rows.iter().all(|notice| notice.number < next)
}

/// Whether certificates of the own code end below the next serial.
pub fn are_issued(own: u32, next: u64, rows: &[PieceRow]) -> bool
    ensures { result ≡ list_all (is_issued own next) rows.now }
{
    rows.iter().all(|row| row.last / SERIALS != u64::from(own) || row.last % SERIALS < next)
}
