//! The row of `meta`: what the registry knows of itself.

use crate::from_row::FromRow;
use sqlite::{Error, Row};
use std::alloc::Global;

/// The row of `meta`: what the registry knows of itself.
#[derive(Drop)]
pub struct MetaRow {
    /// The version of the tables, 1.
    pub version: u32,
    /// The registry's own code.
    pub code: u32,
    /// The registry's date.
    pub today: String,
    /// The serial of the next certificate issued.
    pub next_serial: u64,
    /// The number of the next account.
    pub next_account: u32,
    /// The number of the next cancellation.
    pub next_cancellation: u32,
    /// The number of the next withdrawal.
    pub next_withdrawal: u32,
    /// The number of the next notice sent.
    pub next_notice: u32,
}

impl FromRow for MetaRow {
    ghost use Rattle.goo_tables_rows.specs.Reads.{meta_reads};
    ghost use Rattle.goo_tables_rows.specs.Readable.{meta_readable};

    ghost reads = { meta_reads };

    ghost readable = { meta_readable };

    fn from_row(_alloc: Global, row: &Row) -> Result<MetaRow, Error> {
        Ok(MetaRow {
            version: row.get(0)?,
            code: row.get(1)?,
            today: row.get(2)?,
            next_serial: row.get(3)?,
            next_account: row.get(4)?,
            next_cancellation: row.get(5)?,
            next_withdrawal: row.get(6)?,
            next_notice: row.get(7)?,
        })
    }
}
