//! Rows of `withdrawal`: certificates that the issuing body took back.

use crate::from_row::FromRow;
use sqlite::{Error, Row};
use std::alloc::Global;

/// A row of `withdrawal`.
#[derive(Drop)]
pub struct WithdrawalRow {
    /// The withdrawal's number.
    pub number: u32,
    /// The number of the first certificate.
    pub first: u64,
    /// The number of the last certificate.
    pub last: u64,
    /// Why they were withdrawn.
    pub reason: String,
    /// The day of the withdrawal.
    pub day: String,
}

impl FromRow for WithdrawalRow {
    ghost use Rattle.goo_tables_rows.specs.Reads.{withdrawal_reads};
    ghost use Rattle.goo_tables_rows.specs.Readable.{withdrawal_readable};

    ghost reads = { withdrawal_reads };

    ghost readable = { withdrawal_readable };

    fn from_row(_alloc: Global, row: &Row) -> Result<WithdrawalRow, Error> {
        Ok(WithdrawalRow {
            number: row.get(0)?,
            first: row.get(1)?,
            last: row.get(2)?,
            reason: row.get(3)?,
            day: row.get(4)?,
        })
    }
}
