//! Rows of `notice_out`: notices that were sent.

use crate::from_row::FromRow;
use crate::octets::octets_at;
use sqlite::{Error, Row};
use std::alloc::Global;

/// A row of `notice_out`: a notice that was sent.
#[derive(Drop)]
pub struct NoticeOutRow {
    /// The notice's number.
    pub number: u32,
    /// The account whose certificates were exported.
    pub account: u32,
    /// The notice's text.
    pub body: Vec<u8>,
}

impl FromRow for NoticeOutRow {
    ghost use Rattle.goo_tables_rows.specs.Reads.{notice_out_reads};
    ghost use Rattle.goo_tables_rows.specs.Readable.{notice_out_readable};

    ghost reads = { notice_out_reads };

    ghost readable = { notice_out_readable };

    fn from_row(alloc: Global, row: &Row) -> Result<NoticeOutRow, Error> {
        Ok(NoticeOutRow {
            number: row.get(0)?,
            account: row.get(1)?,
            body: octets_at(alloc, row, 2)?,
        })
    }
}
