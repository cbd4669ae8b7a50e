//! Rows of `receipt`: the keys, commands and replies of accepted requests.

use crate::from_row::FromRow;
use crate::octets::octets_at;
use sqlite::{Error, Row};
use std::alloc::Global;

/// A row of `receipt`: what an accepted request left.
#[derive(Drop)]
pub struct ReceiptRow {
    /// Who sent the request.
    pub caller: String,
    /// The caller's key for it.
    pub key: String,
    /// The command's text.
    pub command: Vec<u8>,
    /// Which reply was given, 1 to 10.
    pub kind: u32,
    /// The reply's first number, 0 where it has none.
    pub n1: u64,
    /// The reply's second number, 0 where it has none.
    pub n2: u64,
    /// The reply's third number, 0 where it has none.
    pub n3: u64,
}

impl FromRow for ReceiptRow {
    ghost use Rattle.goo_tables_rows.specs.Reads.{receipt_reads};
    ghost use Rattle.goo_tables_rows.specs.Readable.{receipt_readable};

    ghost reads = { receipt_reads };

    ghost readable = { receipt_readable };

    fn from_row(alloc: Global, row: &Row) -> Result<ReceiptRow, Error> {
        Ok(ReceiptRow {
            caller: row.get(0)?,
            key: row.get(1)?,
            command: octets_at(alloc, row, 2)?,
            kind: row.get(3)?,
            n1: row.get(4)?,
            n2: row.get(5)?,
            n3: row.get(6)?,
        })
    }
}
