//! Whether each value of a row is one that its reader or its limit accepts.

ghost use Rattle.std.specs.Prelude.{◌≡◌, pos};
ghost use Rattle.goo_tables_rows.specs.Rows.{plant_in, meta_in, holder_in, account_in, device_in};
ghost use Rattle.goo_tables_rows.specs.Rows.{declaration_in, lot_in};
ghost use Rattle.goo_tables_rows.specs.Rows.{withdrawal_in, correction_in, device_carrier_in};
ghost use Rattle.goo_tables_rows.specs.Rows.{lot_carrier_in};
ghost use Rattle.goo_spec_tables.specs.Readable.{is_meta, is_holder, is_account, is_plant};
ghost use Rattle.goo_spec_tables.specs.Readable.{is_device, is_declaration, is_lot, is_piece};
ghost use Rattle.goo_spec_tables.specs.Readable.{is_peer};
ghost use Rattle.goo_spec_tables.specs.Readable.{is_withdrawal, is_correction, is_device_carrier};
ghost use Rattle.goo_spec_tables.specs.Readable.{is_lot_carrier};

use goo_store_receipts::numbers::{
    has_act, is_energy, is_free, is_given, is_given_or_none, is_range, is_registry,
};
use goo_store_receipts::texts::{
    is_code_text, is_country, is_day, is_day_or_none, is_gsrn, is_key, is_name, is_other_carrier,
    is_other_or_none, is_source, is_support, is_tech,
};
use goo_tables_rows::account::AccountRow;
use goo_tables_rows::correction::CorrectionRow;
use goo_tables_rows::declaration::DeclarationRow;
use goo_tables_rows::device::DeviceRow;
use goo_tables_rows::device_carrier::DeviceCarrierRow;
use goo_tables_rows::holder::HolderRow;
use goo_tables_rows::lot::LotRow;
use goo_tables_rows::lot_carrier::LotCarrierRow;
use goo_tables_rows::meta::MetaRow;
use goo_tables_rows::peer::PeerRow;
use goo_tables_rows::piece::PieceRow;
use goo_tables_rows::plant::PlantRow;
use goo_tables_rows::withdrawal::WithdrawalRow;
use goo_types::limits::{MOST_WATTS, SERIALS};

/// The row of `meta`.
pub fn accepts_meta(row: &MetaRow) -> bool
    ensures { result ≡ is_meta (meta_in row.now) }
{
    is_registry(row.code)
        && is_day(&row.today)
        && 1 <= row.next_serial
        && row.next_serial <= SERIALS
        && is_free(row.next_account)
        && is_free(row.next_cancellation)
        && is_free(row.next_withdrawal)
        && is_free(row.next_notice)
}

/// A holder.
pub fn accepts_holder(row: &HolderRow) -> bool
    ensures { result ≡ is_holder (pos 0, holder_in row.now) }
{
    is_code_text(&row.code) && is_name(&row.name)
}

/// An account.
pub fn accepts_account(row: &AccountRow) -> bool
    ensures { result ≡ is_account (account_in row.now) }
{
    is_given(row.number) && is_code_text(&row.holder) && row.closed <= 1
}

/// A plant.
pub fn accepts_plant(row: &PlantRow) -> bool
    ensures { result ≡ is_plant (plant_in row.now) }
{
    is_country(&row.country)
        && is_name(&row.site)
        && is_tech(&row.tech)
        && is_source(&row.source)
        && 1 <= row.capacity_w
        && row.capacity_w <= MOST_WATTS
        && is_day(&row.commissioned)
        && is_support(&row.support)
}

/// A device.
pub fn accepts_device(row: &DeviceRow) -> bool
    ensures { result ≡ is_device (pos 0, device_in row.now) }
{
    is_gsrn(&row.gsrn)
        && is_given(row.account)
        && accepts_plant(&row.plant)
        && is_day_or_none(&row.last_day)
        && row.carry <= 999_999
        && is_other_or_none(&row.carrier)
}

/// A declaration.
pub fn accepts_declaration(row: &DeclarationRow) -> bool
    ensures { result ≡ is_declaration (declaration_in row.now) }
{
    is_gsrn(&row.device)
        && is_day(&row.first_day)
        && is_day(&row.last_day)
        && is_energy(row.gross)
        && is_energy(row.aux)
}

/// A lot.
pub fn accepts_lot(row: &LotRow) -> bool
    ensures { result ≡ is_lot (lot_in row.now) }
{
    is_registry(row.origin)
        && is_gsrn(&row.device)
        && accepts_plant(&row.plant)
        && is_day(&row.first_day)
        && is_day(&row.last_day)
        && is_day(&row.issued_on)
        && is_other_or_none(&row.carrier)
}

/// A piece.
pub fn accepts_piece(row: &PieceRow) -> bool
    ensures { result ≡ is_piece row.now }
{
    is_range(row.first, row.last) && is_given(row.account) && has_act(row.kind, row.act)
}

/// A peer.
pub fn accepts_peer(peer: &PeerRow) -> bool
    ensures { result ≡ is_peer (pos 0, peer.now) }
{
    is_registry(peer.code)
}

/// A withdrawal.
pub fn accepts_withdrawal(row: &WithdrawalRow) -> bool
    ensures { result ≡ is_withdrawal (withdrawal_in row.now) }
{
    is_given(row.number)
        && is_range(row.first, row.last)
        && is_name(&row.reason)
        && is_day(&row.day)
}

/// A correction.
pub fn accepts_correction(row: &CorrectionRow) -> bool
    ensures { result ≡ is_correction (correction_in row.now) }
{
    is_gsrn(&row.device)
        && is_day(&row.first_day)
        && is_energy(row.less)
        && is_given_or_none(u64::from(row.withdrawal))
}

/// The carrier of a device.
pub fn accepts_device_carrier(row: &DeviceCarrierRow) -> bool
    ensures { result ≡ is_device_carrier (pos 0, device_carrier_in row.now) }
{
    is_gsrn(&row.gsrn) && is_other_carrier(&row.carrier)
}

/// The carrier of a lot.
pub fn accepts_lot_carrier(row: &LotCarrierRow) -> bool
    ensures { result ≡ is_lot_carrier (lot_carrier_in row.now) }
{
    is_other_carrier(&row.carrier)
}
