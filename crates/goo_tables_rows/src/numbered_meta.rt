//! Rows of `meta` with their numbers.

use crate::from_row::FromRow;
use crate::meta::MetaRow;
use sqlite::{Error, Row};
use std::alloc::Global;

/// A row of `meta` with its number, which is 1 in a registry.
#[derive(Drop)]
pub struct NumberedMeta {
    /// The row's number.
    pub id: u64,
    /// The rest of the row.
    pub meta: MetaRow,
}

impl FromRow for NumberedMeta {
    ghost use Rattle.goo_tables_rows.specs.Reads.{numbered_meta_reads};
    ghost use Rattle.goo_tables_rows.specs.Readable.{numbered_meta_readable};

    ghost reads = { numbered_meta_reads };

    ghost readable = { numbered_meta_readable };

    fn from_row(_alloc: Global, row: &Row) -> Result<NumberedMeta, Error> {
        Ok(NumberedMeta {
            id: row.get(0)?,
            meta: MetaRow {
                version: row.get(1)?,
                code: row.get(2)?,
                today: row.get(3)?,
                next_serial: row.get(4)?,
                next_account: row.get(5)?,
                next_cancellation: row.get(6)?,
                next_withdrawal: row.get(7)?,
                next_notice: row.get(8)?,
            },
        })
    }
}
