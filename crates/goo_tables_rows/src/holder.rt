//! Rows of `holder`: account holders.

use crate::from_row::FromRow;
use sqlite::{Error, Row};
use std::alloc::Global;

/// A row of `holder`.
#[derive(Drop)]
pub struct HolderRow {
    /// The holder's code.
    pub code: String,
    /// The holder's name.
    pub name: String,
}

impl FromRow for HolderRow {
    ghost use Rattle.goo_tables_rows.specs.Reads.{holder_reads};
    ghost use Rattle.goo_tables_rows.specs.Readable.{holder_readable};

    ghost reads = { holder_reads };

    ghost readable = { holder_readable };

    fn from_row(_alloc: Global, row: &Row) -> Result<HolderRow, Error> {
        Ok(HolderRow {
            code: row.get(0)?,
            name: row.get(1)?,
        })
    }
}
