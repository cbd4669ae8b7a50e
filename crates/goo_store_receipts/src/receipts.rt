//! Receipts: what accepted requests left. Of each row is kept only whether it keeps the rules.

ghost use Rattle.std.specs.Prelude.{◌≡◌, ◌==◌, ◌&&◌, ◌||◌, pos};
ghost use Rattle.goo_tables_rows.specs.Rows.{receipt_in};
ghost use Rattle.goo_spec_tables.specs.Readable.{is_reply, is_receipt, is_act, is_maybe_act};
ghost use Rattle.goo_spec_tables.specs.Readable.{are_ends};

use crate::numbers::{is_given_long, is_given_or_none, is_range};
use crate::texts::{is_code_text, is_key};
use goo_tables_rows::from_row::FromRow;
use goo_tables_rows::receipt::ReceiptRow;
use sqlite::{Error, Row};
use std::alloc::Global;

/// A receipt that was judged as it was read.
#[derive(Drop)]
pub struct JudgedReceipt {
    /// Whether each of its values is one that its reader or its limit accepts.
    pub is_good: bool,
}

/// Whether these are the first and the last number that a declaration issued, or 0 and 0 where it
/// issued none.
fn are_issued(first: u64, last: u64) -> bool
    ensures { result ≡ (((first == 0) && (last == 0)) || are_ends first last) }
{
    first == 0 && last == 0 || is_range(first, last)
}

/// Whether a reply has these numbers, 0 where one is unused.
fn accepts_reply(kind: u32, n1: u64, n2: u64, n3: u64) -> bool
    ensures { result ≡ is_reply kind n1 n2 n3 }
{
    match kind {
        1 => n1 == 0 && n2 == 0 && n3 == 0,
        2 => is_given_long(n1) && n2 == 0 && n3 == 0,
        3 => n1 <= 999_999 && are_issued(n2, n3),
        4 | 7 | 9 => n2 == 0 && n3 == 0,
        5 | 6 | 8 => is_given_long(n1) && n3 == 0,
        10 => n1 <= 999_999 && is_given_or_none(n3),
        _ => false,
    }
}

/// A receipt. Its command may be any bytes.
pub fn accepts_receipt(row: &ReceiptRow) -> bool
    ensures { result ≡ is_receipt (pos 0, receipt_in row.now) }
{
    is_code_text(&row.caller) && is_key(&row.key) && accepts_reply(row.kind, row.n1, row.n2, row.n3)
}

impl FromRow for JudgedReceipt {
    ghost use Rattle.goo_tables_rows.specs.Readable.{receipt_readable};
    ghost use Rattle.goo_store_receipts.specs.Judged.{judged_reads};

    ghost reads = { judged_reads };

    ghost readable = { receipt_readable };

    fn from_row(alloc: Global, row: &Row) -> Result<JudgedReceipt, Error> {
        let receipt = ReceiptRow::from_row(alloc, row)?;
        Ok(JudgedReceipt {
            is_good: accepts_receipt(&receipt),
        })
    }
}
