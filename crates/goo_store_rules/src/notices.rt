//! Notices, which are kept as their texts.

ghost use Rattle.std.specs.Prelude.{◌≡◌, pos, IfOk};
ghost use Rattle.std.specs.List.{list_all};
ghost use Rattle.goo_notice_text.specs.NoticeText.{notice_in};
ghost use Rattle.goo_tables_rows.specs.Rows.{notice_out_in, notice_in_in};
ghost use Rattle.goo_spec_tables.specs.Readable.{is_notice_of, is_notice_out, is_notice_in};

use goo_notice::{NoticeFault, read};
use goo_store_receipts::numbers::is_given;
use goo_tables_rows::notice_in::NoticeInRow;
use goo_tables_rows::notice_out::NoticeOutRow;
use std::alloc::{AllocError, Global};

/// Whether the bytes are the text of a notice of this sender and number.
///
/// # Errors
///
/// Where an allocation is refused.
fn is_of(alloc: Global, sender: u32, number: u32, body: &[u8]) -> Result<bool, AllocError>
    ensures { IfOk result (λ yes. yes ≡ is_notice_of sender number (notice_in body.now)) }
{
    match read(alloc, body) {
        Ok(notice) => {
            Ok(u32::from(notice.sender().get()) == sender && notice.number().get() == number)
        }
        Err(NoticeFault::Memory) => Err(AllocError),
        Err(_) => Ok(false),
    }
}

/// A notice that the registry of this code sent.
///
/// # Errors
///
/// Where an allocation is refused.
pub fn accepts_sent(alloc: Global, own: u32, row: &NoticeOutRow) -> Result<bool, AllocError>
    ensures { IfOk result (λ yes. yes ≡ is_notice_out own (notice_out_in row.now)) }
{
    if !is_given(row.number) || !is_given(row.account) {
        return Ok(false);
    }
    is_of(alloc, own, row.number, &row.body)
}

/// A notice that came in.
///
/// # Errors
///
/// Where an allocation is refused.
pub fn accepts_arrived(alloc: Global, row: &NoticeInRow) -> Result<bool, AllocError>
    ensures { IfOk result (λ yes. yes ≡ is_notice_in (pos 0, notice_in_in row.now)) }
{
    is_of(alloc, row.sender, row.number, &row.body)
}

/// Whether each is a notice that the registry of this code sent.
///
/// # Errors
///
/// Where an allocation is refused.
pub fn accepts_all_sent(alloc: Global, own: u32, rows: &[NoticeOutRow]) -> Result<bool, AllocError>
    ensures { IfOk result
        (λ yes. yes ≡ list_all (λ row. is_notice_out own (notice_out_in row)) rows.now) }
{
    for row in rows {
        if !accepts_sent(alloc, own, row)? {
            return Ok(false);
        }
    }
    Ok(true)
}

/// Whether each is a notice that came in.
///
/// # Errors
///
/// Where an allocation is refused.
pub fn accepts_all_arrived(alloc: Global, rows: &[NoticeInRow]) -> Result<bool, AllocError>
    ensures { IfOk result
        (λ yes. yes ≡ list_all (λ row. is_notice_in (pos 0, notice_in_in row)) rows.now) }
{
    for row in rows {
        if !accepts_arrived(alloc, row)? {
            return Ok(false);
        }
    }
    Ok(true)
}
