//! Rows of `piece`: certificates of consecutive numbers with one lot and one place.

use crate::from_row::FromRow;
use sqlite::{Error, Row};
use std::alloc::Global;

/// A row of `piece`: certificates with consecutive numbers, of one lot and in one place.
#[derive(Clone, Copy, PartialEq, Eq)]
pub struct PieceRow {
    /// The number of the first certificate.
    pub first: u64,
    /// The number of the last certificate.
    pub last: u64,
    /// The number of their lot in this database.
    pub lot: u64,
    /// 1 held, 2 cancelled, 3 expired, 4 withdrawn, 5 exported.
    pub kind: u32,
    /// The last account that held them.
    pub account: u32,
    /// The number of the act that took them out of circulation, 0 for none.
    pub act: u32,
}

impl FromRow for PieceRow {
    ghost use Rattle.goo_tables_rows.specs.Reads.{piece_reads};
    ghost use Rattle.goo_tables_rows.specs.Readable.{piece_readable};

    ghost reads = { piece_reads };

    ghost readable = { piece_readable };

    fn from_row(_alloc: Global, row: &Row) -> Result<PieceRow, Error> {
        Ok(PieceRow {
            first: row.get(0)?,
            last: row.get(1)?,
            lot: row.get(2)?,
            kind: row.get(3)?,
            account: row.get(4)?,
            act: row.get(5)?,
        })
    }
}
