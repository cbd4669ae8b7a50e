//! Rows of `peer`: other registries, for exports and imports.

use crate::from_row::FromRow;
use sqlite::{Error, Row};
use std::alloc::Global;

/// A row of `peer`: a registry that notices go to and come from.
#[derive(Clone, Copy, PartialEq, Eq)]
pub struct PeerRow {
    /// The peer's code.
    pub code: u32,
}

impl FromRow for PeerRow {
    ghost use Rattle.goo_tables_rows.specs.Reads.{peer_reads};
    ghost use Rattle.goo_tables_rows.specs.Readable.{peer_readable};

    ghost reads = { peer_reads };

    ghost readable = { peer_readable };

    fn from_row(_alloc: Global, row: &Row) -> Result<PeerRow, Error> {
        Ok(PeerRow { code: row.get(0)? })
    }
}
