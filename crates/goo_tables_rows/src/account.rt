//! Rows of `account`: accounts of holders.

use crate::from_row::FromRow;
use sqlite::{Error, Row};
use std::alloc::Global;

/// A row of `account`.
#[derive(Drop)]
pub struct AccountRow {
    /// The account's number.
    pub number: u32,
    /// The code of its holder.
    pub holder: String,
    /// 0 where it is open, 1 where it is closed.
    pub closed: u32,
}

impl FromRow for AccountRow {
    ghost use Rattle.goo_tables_rows.specs.Reads.{account_reads};
    ghost use Rattle.goo_tables_rows.specs.Readable.{account_readable};

    ghost reads = { account_reads };

    ghost readable = { account_readable };

    fn from_row(_alloc: Global, row: &Row) -> Result<AccountRow, Error> {
        Ok(AccountRow {
            number: row.get(0)?,
            holder: row.get(1)?,
            closed: row.get(2)?,
        })
    }
}
