//! What else a database has beside the tables of a registry.

use sqlite_schema::schema::{Schema, Table, View};
use std::alloc::{AllocError, Global};

/// The tables of a registry.
const NAMES: [&str; 16] = [
    "meta",
    "holder",
    "account",
    "device",
    "declaration",
    "lot",
    "piece",
    "peer",
    "receipt",
    "cancellation",
    "withdrawal",
    "notice_out",
    "notice_in",
    "correction",
    "device_carrier",
    "lot_carrier",
];

/// Whether a table of this name is one of a registry. SQL tells no capital letters from small ones.
fn is_known(name: &[u8]) -> bool {
    NAMES
        .iter()
        .any(|known| known.as_bytes().eq_ignore_ascii_case(name))
}

/// Whether `ANALYZE` makes a table of this name.
fn is_statistics(name: &[u8]) -> bool {
    name == b"sqlite_stat1".as_slice() || name == b"sqlite_stat4".as_slice()
}

/// What may be beside the tables of a registry.
#[derive(Clone, Copy)]
pub enum Beside {
    Views,
    /// Views, and the tables that `ANALYZE` makes.
    Statistics,
}

/// Whether a table of this name may be there.
fn is_let(name: &[u8], beside: Beside) -> bool {
    is_known(name) || (matches!(beside, Beside::Statistics) && is_statistics(name))
}

/// Whether tables of ours can take the place of all tables: none is of another program or of SQLite's
/// own, and none is kept as it is for a trigger.
pub fn is_free(schema: &Schema, beside: Beside) -> bool {
    let tables = schema.tables.as_slice();
    let views = schema.views.as_slice();
    tables
        .iter()
        .all(|table| is_let(table.name.as_slice(), beside))
        && views.iter().all(|view| view.foreign.is_none() && !view.binds && !view.is_bound)
}

/// How a view is taken away: none, where its name can't stand in quotes.
fn removal_of(alloc: Global, view: &View) -> Result<Option<String>, AllocError> {
    match str::from_utf8(view.name.as_slice()) {
        Ok(name) if !name.as_bytes().contains(&b'"') => {
            Ok(Some(format!(in alloc; "DROP VIEW \"{name}\"; ")?))
        }
        _ => Ok(None),
    }
}

/// The statements that take the views away: none, where one can't be.
///
/// # Errors
///
/// Where an allocation is refused.
pub fn removals(alloc: Global, schema: &Schema) -> Result<Option<String>, AllocError> {
    let mut text = String::new(alloc);
    for view in schema.views.as_slice() {
        match removal_of(alloc, view)? {
            Some(removal) => text.push_str(removal.as_str())?,
            None => return Ok(None),
        }
    }
    Ok(Some(text))
}
