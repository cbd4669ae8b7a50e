//! Rows of `cancellation`: certificates that were cancelled for a beneficiary.

use crate::from_row::FromRow;
use sqlite::{Error, Row};
use std::alloc::Global;

/// A row of `cancellation`.
#[derive(Drop)]
pub struct CancellationRow {
    /// The cancellation's number.
    pub number: u32,
    /// The account whose certificates were cancelled.
    pub account: u32,
    /// The number of the first certificate.
    pub first: u64,
    /// The number of the last certificate.
    pub last: u64,
    /// Whom they were cancelled for.
    pub beneficiary: String,
    /// The first day of the use.
    pub use_first: String,
    /// The last day of the use.
    pub use_last: String,
    /// The day of the cancellation.
    pub day: String,
}

impl FromRow for CancellationRow {
    ghost use Rattle.goo_tables_rows.specs.Reads.{cancellation_reads};
    ghost use Rattle.goo_tables_rows.specs.Readable.{cancellation_readable};

    ghost reads = { cancellation_reads };

    ghost readable = { cancellation_readable };

    fn from_row(_alloc: Global, row: &Row) -> Result<CancellationRow, Error> {
        Ok(CancellationRow {
            number: row.get(0)?,
            account: row.get(1)?,
            first: row.get(2)?,
            last: row.get(3)?,
            beneficiary: row.get(4)?,
            use_first: row.get(5)?,
            use_last: row.get(6)?,
            day: row.get(7)?,
        })
    }
}
