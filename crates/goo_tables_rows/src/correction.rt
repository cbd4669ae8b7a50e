//! Rows of `correction`: what was taken off a declaration afterwards.

use crate::from_row::FromRow;
use sqlite::{Error, Row};
use std::alloc::Global;

/// A row of `correction`.
#[derive(Drop)]
pub struct CorrectionRow {
    /// Its number, which rises with each correction.
    pub id: u64,
    /// The device of the declaration.
    pub device: String,
    /// The first day of the declaration's period.
    pub first_day: String,
    /// The energy taken off, in Wh.
    pub less: u64,
    /// The number of the withdrawal of the certificates that were too many, 0 for none.
    pub withdrawal: u32,
}

impl FromRow for CorrectionRow {
    ghost use Rattle.goo_tables_rows.specs.Reads.{correction_reads};
    ghost use Rattle.goo_tables_rows.specs.Readable.{correction_readable};

    ghost reads = { correction_reads };

    ghost readable = { correction_readable };

    fn from_row(_alloc: Global, row: &Row) -> Result<CorrectionRow, Error> {
        Ok(CorrectionRow {
            id: row.get(0)?,
            device: row.get(1)?,
            first_day: row.get(2)?,
            less: row.get(3)?,
            withdrawal: row.get(4)?,
        })
    }
}
