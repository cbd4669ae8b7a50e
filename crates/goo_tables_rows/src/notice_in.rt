//! Rows of `notice_in`: notices that came in.

use crate::from_row::FromRow;
use crate::octets::octets_at;
use sqlite::{Error, Row};
use std::alloc::Global;

/// A row of `notice_in`: a notice that came in.
#[derive(Drop)]
pub struct NoticeInRow {
    /// The code of the registry that sent it.
    pub sender: u32,
    /// The notice's number at its sender.
    pub number: u32,
    /// The notice's text.
    pub body: Vec<u8>,
}

impl FromRow for NoticeInRow {
    ghost use Rattle.goo_tables_rows.specs.Reads.{notice_in_reads};
    ghost use Rattle.goo_tables_rows.specs.Readable.{notice_in_readable};

    ghost reads = { notice_in_reads };

    ghost readable = { notice_in_readable };

    fn from_row(alloc: Global, row: &Row) -> Result<NoticeInRow, Error> {
        Ok(NoticeInRow {
            sender: row.get(0)?,
            number: row.get(1)?,
            body: octets_at(alloc, row, 2)?,
        })
    }
}
