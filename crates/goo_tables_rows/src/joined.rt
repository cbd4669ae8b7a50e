//! Rows of `piece`, each beside the row of its lot.

use crate::from_row::FromRow;
use crate::lot::{LotRow, lot_at};
use crate::piece::PieceRow;
use sqlite::{Error, Row};
use std::alloc::Global;

/// A row of `piece` beside the row of its lot.
#[derive(Drop)]
pub struct JoinedRow {
    /// The row of `piece`.
    pub piece: PieceRow,
    /// The row of its lot.
    pub lot: LotRow,
}

impl FromRow for JoinedRow {
    ghost use Rattle.goo_tables_rows.specs.Reads.{joined_reads};
    ghost use Rattle.goo_tables_rows.specs.Readable.{joined_readable};

    ghost reads = { joined_reads };

    ghost readable = { joined_readable };

    fn from_row(alloc: Global, row: &Row) -> Result<JoinedRow, Error> {
        Ok(JoinedRow {
            piece: PieceRow::from_row(alloc, row)?,
            lot: lot_at(row, 6)?,
        })
    }
}
