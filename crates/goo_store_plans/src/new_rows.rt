//! The rows that accepted commands leave.

ghost use Rattle.std.specs.Prelude.{◌≡◌, ◌≤◌, true, false, pos, string_bytes, option_map, IfOk};
ghost use Rattle.goo_types.specs.Day.{day_reading};
ghost use Rattle.goo_core_shelf.specs.Shelf.{cancellation_on};
ghost use Rattle.goo_tables_rows.specs.Rows.{account_in, cancellation_in, holder_in, withdrawal_in};
ghost use Rattle.goo_spec_tables.specs.Records.{act_or_none};
ghost use Rattle.goo_spec_tables.specs.Readable.{is_account, is_cancellation, is_holder};
ghost use Rattle.goo_spec_tables.specs.Readable.{is_maybe_act, is_maybe_other, is_peer};
ghost use Rattle.goo_spec_tables.specs.Readable.{is_withdrawal, reads};
ghost use Rattle.goo_spec_tables.specs.States.{known_account, known_cancellation, known_holder};
ghost use Rattle.goo_spec_tables.specs.States.{known_peer, known_withdrawal};
ghost use Rattle.goo_spec_tables.specs.Texts.{carrier_of, day_of};

use goo_notice_json::carriers::is_other;
use goo_tables_rows::account::AccountRow;
use goo_tables_rows::cancellation::CancellationRow;
use goo_tables_rows::holder::HolderRow;
use goo_tables_rows::peer::PeerRow;
use goo_tables_rows::withdrawal::WithdrawalRow;
use goo_types::account_no::AccountNo;
use goo_types::act_no::ActNo;
use goo_types::carrier::Carrier;
use goo_types::command::{Cancel, OpenAccount, OpenHolder, Withdraw};
use goo_types::day::Day;
use goo_types::registry_code::RegistryCode;
use std::alloc::{AllocError, Global};

/// The text of a day.
pub fn day_string(alloc: Global, day: Day) -> Result<String, AllocError>
    ensures states { IfOk result (λ text. day_of (string_bytes text) ≡ day) }
    ensures reads { IfOk result (λ text. reads (day_reading (string_bytes text)) ≡ true) }
{
    String::from_str(alloc, day.text().as_str())
}

/// The word for a carrier; electricity has none.
pub fn carrier_string(alloc: Global, carrier: Carrier) -> Result<Option<String>, AllocError>
    ensures states { IfOk result (λ word. carrier_of (option_map string_bytes word) ≡ carrier) }
    ensures reads { IfOk result (λ word. is_maybe_other (option_map string_bytes word) ≡ true) }
{
    if is_other(carrier) {
        Ok(Some(String::from_str(alloc, carrier.word())?))
    } else {
        Ok(None)
    }
}

/// The number of an act, 0 for none.
pub fn act_or_zero(act: Option<ActNo>) -> u32
    ensures value { act_or_none result ≡ act }
    ensures reads { is_maybe_act result ≡ true }
    ensures limit { result ≤ 999_999_999 }
{
    match act {
        Some(act) => act.get(),
        None => 0,
    }
}

/// The row of a new holder.
pub fn holder_row(alloc: Global, opened: &OpenHolder) -> Result<HolderRow, AllocError>
    ensures states { IfOk result
        (λ row. known_holder (pos 0, holder_in row) ≡ (opened.now.holder, opened.now.name)) }
    ensures reads { IfOk result (λ row. is_holder (pos 0, holder_in row) ≡ true) }
{
    Ok(HolderRow {
        code: String::from_str(alloc, opened.holder.text())?,
        name: String::from_str(alloc, opened.name.text())?,
    })
}

/// The row of a new account.
pub fn account_row(
    alloc: Global,
    number: AccountNo,
    opened: &OpenAccount,
) -> Result<AccountRow, AllocError>
    ensures states { IfOk result
        (λ row. known_account (account_in row)
        ≡ (number, record { holder = opened.now.holder; closed = false })) }
    ensures reads { IfOk result (λ row. is_account (account_in row) ≡ true) }
{
    Ok(AccountRow {
        number: number.get(),
        holder: String::from_str(alloc, opened.holder.text())?,
        closed: 0,
    })
}

/// The row of another registry.
pub fn peer_row(code: RegistryCode) -> PeerRow
    ensures states { known_peer (pos 0, result) ≡ (code, tt) }
    ensures reads { is_peer (pos 0, result) ≡ true }
{
    PeerRow {
        code: u32::from(code.get()),
    }
}

/// The record of a cancellation that is accepted on a day.
pub fn cancellation_row(
    alloc: Global,
    number: ActNo,
    accepted: &Cancel,
    day: Day,
) -> Result<CancellationRow, AllocError>
    ensures states { IfOk result
        (λ row. known_cancellation (cancellation_in row)
        ≡ (number, cancellation_on day accepted.now)) }
    ensures reads { IfOk result (λ row. is_cancellation (cancellation_in row) ≡ true) }
{
    Ok(CancellationRow {
        number: number.get(),
        account: accepted.account.get(),
        first: accepted.range.first().get(),
        last: accepted.range.last().get(),
        beneficiary: String::from_str(alloc, accepted.beneficiary.text())?,
        use_first: day_string(alloc, accepted.use_first)?,
        use_last: day_string(alloc, accepted.use_last)?,
        day: day_string(alloc, day)?,
    })
}

/// The record of a withdrawal that is accepted on a day.
pub fn withdrawal_row(
    alloc: Global,
    number: ActNo,
    accepted: &Withdraw,
    day: Day,
) -> Result<WithdrawalRow, AllocError>
    ensures states { IfOk result
        (λ row. known_withdrawal (withdrawal_in row)
        ≡ (
          number,
          record { range = accepted.now.range; reason = accepted.now.reason; day = day },
        )) }
    ensures reads { IfOk result (λ row. is_withdrawal (withdrawal_in row) ≡ true) }
{
    Ok(WithdrawalRow {
        number: number.get(),
        first: accepted.range.first().get(),
        last: accepted.range.last().get(),
        reason: String::from_str(alloc, accepted.reason.text())?,
        day: day_string(alloc, day)?,
    })
}
