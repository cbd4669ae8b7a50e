//! Whether the tables of a database are those of a registry of either version, which `HasTables`
//! asks for.

ghost use Rattle.std.specs.Prelude.{◌≡◌, ◌↔◌, IsTrue, map};
ghost use Rattle.sqlite.specs.Held.{state};
ghost use Rattle.goo_tables_rows.specs.Columns.{registry_schema, first_schema};
ghost use Rattle.goo_tables_rows.specs.Met.{IsInKeyOrder, HasOurTables};
ghost use Rattle.goo_tables_rows.specs.First.{HasFirstTables};

use crate::matching::{are_indexes, are_tables};
use crate::registry_form::{INDEXES, TABLES};
use sqlite::{Alter, Connection};
use sqlite_schema::schema::Schema;

/// Whether it has the tables and indexes that `create_tables` makes, as it makes them, and nothing
/// else.
fn is_registry(schema: &Schema) -> bool
    ensures { IsTrue result ↔ (schema.now ≡ registry_schema) }
{
    are_tables(schema.tables.as_slice(), &TABLES)
        && are_indexes(schema.indexes.as_slice(), &INDEXES)
        && schema.views.is_empty()
}

/// Whether it has those of version 1, and nothing else: all but the last three tables and the last
/// index.
fn is_first(schema: &Schema) -> bool
    ensures { IsTrue result ↔ (schema.now ≡ first_schema) }
{
    are_tables(schema.tables.as_slice(), &TABLES[..13])
        && are_indexes(schema.indexes.as_slice(), &INDEXES[..9])
        && schema.views.is_empty()
}

/// Whether the database has the tables and indexes that `create_tables` makes, as it makes them,
/// and nothing else.
pub fn has_our_schema<S: Alter>(conn: &Connection<S>) -> bool
    ensures schema { IsTrue result ↔ ((state S.Store conn.now).now.schema ≡ registry_schema) }
    ensures ours { IsTrue result → IsTrue (state S.Store conn.now).is_open
        → IsInKeyOrder (state S.Store conn.now).now → HasOurTables (state S.Store conn.now).now }
{
    is_registry(conn.schema())
}

/// Whether the database has the tables and indexes of version 1, as they were made, and nothing
/// else.
pub fn has_first_schema<S: Alter>(conn: &Connection<S>) -> bool
    ensures schema { IsTrue result ↔ ((state S.Store conn.now).now.schema ≡ first_schema) }
    ensures first { IsTrue result → IsTrue (state S.Store conn.now).is_open
        → IsInKeyOrder (state S.Store conn.now).now → HasFirstTables (state S.Store conn.now).now }
{
    is_first(conn.schema())
}
