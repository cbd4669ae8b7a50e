//! Cancellations: the records of that act. Of each row is kept what other rules read, and whether it
//! keeps the rules itself.

ghost use Rattle.std.specs.Prelude.{◌≡◌};
ghost use Rattle.goo_tables_rows.specs.Rows.{cancellation_in};
ghost use Rattle.goo_spec_tables.specs.Readable.{is_cancellation};

use crate::numbers::{is_given, is_range};
use crate::texts::{is_day, is_name};
use goo_tables_rows::cancellation::CancellationRow;
use goo_tables_rows::from_row::FromRow;
use sqlite::{Error, Row};
use std::alloc::Global;

/// A cancellation that was judged as it was read.
#[derive(Drop)]
pub struct JudgedCancellation {
    pub number: u32,
    pub account: u32,
    /// Whether each of its values is one that its reader or its limit accepts.
    pub is_good: bool,
}

/// A cancellation.
pub fn accepts_cancellation(row: &CancellationRow) -> bool
    ensures { result ≡ is_cancellation (cancellation_in row.now) }
{
    is_given(row.number)
        && is_given(row.account)
        && is_range(row.first, row.last)
        && is_name(&row.beneficiary)
        && is_day(&row.use_first)
        && is_day(&row.use_last)
        && is_day(&row.day)
}

impl FromRow for JudgedCancellation {
    ghost use Rattle.goo_tables_rows.specs.Readable.{cancellation_readable};
    ghost use Rattle.goo_store_receipts.specs.Judged.{judged_cancellation_reads};

    ghost reads = { judged_cancellation_reads };

    ghost readable = { cancellation_readable };

    fn from_row(alloc: Global, row: &Row) -> Result<JudgedCancellation, Error> {
        let cancellation = CancellationRow::from_row(alloc, row)?;
        Ok(JudgedCancellation {
            number: cancellation.number,
            account: cancellation.account,
            is_good: accepts_cancellation(&cancellation),
        })
    }
}
