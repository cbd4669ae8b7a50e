//! Rows of `declaration`: accepted declarations of production.

use crate::from_row::FromRow;
use sqlite::{Error, Row};
use std::alloc::Global;

/// A row of `declaration`.
#[derive(Drop)]
pub struct DeclarationRow {
    /// Its number, which rises with each declaration.
    pub id: u64,
    /// The device.
    pub device: String,
    /// The first day of the period.
    pub first_day: String,
    /// The last day of the period.
    pub last_day: String,
    /// The energy produced, in Wh.
    pub gross: u64,
    /// The energy that auxiliaries used, in Wh.
    pub aux: u64,
}

impl FromRow for DeclarationRow {
    ghost use Rattle.goo_tables_rows.specs.Reads.{declaration_reads};
    ghost use Rattle.goo_tables_rows.specs.Readable.{declaration_readable};

    ghost reads = { declaration_reads };

    ghost readable = { declaration_readable };

    fn from_row(_alloc: Global, row: &Row) -> Result<DeclarationRow, Error> {
        Ok(DeclarationRow {
            id: row.get(0)?,
            device: row.get(1)?,
            first_day: row.get(2)?,
            last_day: row.get(3)?,
            gross: row.get(4)?,
            aux: row.get(5)?,
        })
    }
}
