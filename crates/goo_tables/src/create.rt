//! The statements that make the tables.

ghost use Rattle.std.specs.Prelude.{◌≡◌, ◌<◌, get_or, [], IsTrue, IfErr, OnOk};
ghost use Rattle.sqlite.specs.State.{HasCleanDisk, IsLive, KeepsCommit, Survives};
ghost use Rattle.sqlite.specs.Held.{state};
ghost use Rattle.goo_tables_rows.specs.Columns.{no_schema, first_schema};
ghost use Rattle.goo_tables_rows.specs.First.{IsFirst};
ghost use Rattle.goo_tables_rows.specs.Refused.{IsFault};
ghost use Rattle.goo_tables_rows.specs.Rows.{Tables};
ghost use Rattle.goo_tables_rows.specs.Stands.{IsBare, Sees};
ghost use Rattle.goo_tables.specs.Created.{create_texts};

use goo_tables_rows::put::put;
use sqlite::{Alter, Error, Transaction};

/// The statements that `create_tables` runs, in turn; `add_tables` runs the last three.
///
/// No table ends in a column that may be NULL: a stored row may lack its last columns, and no query
/// tells this from NULL. For the same reason a peer's code is INT, a key of its own, and not the
/// rowid. The tables of version 2 stand behind the others, so that all that version 1 had keeps its
/// place.
fn statement(at: u32) -> &'static str
    requires { at < 18 }
    ensures { result.now ≡ get_or create_texts at [] }
{
    match at {
        0 =>
            "CREATE TABLE meta (id INTEGER PRIMARY KEY, version INTEGER NOT NULL, code INTEGER NOT NULL, today TEXT NOT NULL, next_serial INTEGER NOT NULL, next_account INTEGER NOT NULL, next_cancellation INTEGER NOT NULL, next_withdrawal INTEGER NOT NULL, next_notice INTEGER NOT NULL) STRICT",
        1 => "CREATE TABLE holder (code TEXT NOT NULL PRIMARY KEY, name TEXT NOT NULL) STRICT",
        2 =>
            "CREATE TABLE account (number INTEGER PRIMARY KEY, holder TEXT NOT NULL, closed INTEGER NOT NULL) STRICT",
        3 =>
            "CREATE TABLE device (gsrn TEXT NOT NULL PRIMARY KEY, account INTEGER NOT NULL, country TEXT NOT NULL, site TEXT NOT NULL, tech TEXT NOT NULL, source TEXT NOT NULL, capacity_w INTEGER NOT NULL, commissioned TEXT NOT NULL, support TEXT NOT NULL, last_day TEXT, carry INTEGER NOT NULL) STRICT",
        4 =>
            "CREATE TABLE declaration (id INTEGER PRIMARY KEY, device TEXT NOT NULL, first_day TEXT NOT NULL, last_day TEXT NOT NULL, gross INTEGER NOT NULL, aux INTEGER NOT NULL, UNIQUE (device, first_day)) STRICT",
        5 =>
            "CREATE TABLE lot (id INTEGER PRIMARY KEY, origin INTEGER NOT NULL, device TEXT NOT NULL, country TEXT NOT NULL, site TEXT NOT NULL, tech TEXT NOT NULL, source TEXT NOT NULL, capacity_w INTEGER NOT NULL, commissioned TEXT NOT NULL, support TEXT NOT NULL, first_day TEXT NOT NULL, last_day TEXT NOT NULL, expires_on TEXT, issued_on TEXT NOT NULL, UNIQUE (origin, device, first_day)) STRICT",
        6 =>
            "CREATE TABLE piece (first INTEGER PRIMARY KEY, last INTEGER NOT NULL, lot INTEGER NOT NULL, kind INTEGER NOT NULL, account INTEGER NOT NULL, act INTEGER NOT NULL) STRICT",
        7 => "CREATE TABLE peer (code INT NOT NULL PRIMARY KEY) STRICT",
        8 =>
            "CREATE TABLE receipt (caller TEXT NOT NULL, key TEXT NOT NULL, command BLOB NOT NULL, kind INTEGER NOT NULL, n1 INTEGER NOT NULL, n2 INTEGER NOT NULL, n3 INTEGER NOT NULL, PRIMARY KEY (caller, key)) STRICT",
        9 =>
            "CREATE TABLE cancellation (number INTEGER PRIMARY KEY, account INTEGER NOT NULL, first INTEGER NOT NULL, last INTEGER NOT NULL, beneficiary TEXT NOT NULL, use_first TEXT NOT NULL, use_last TEXT NOT NULL, day TEXT NOT NULL) STRICT",
        10 =>
            "CREATE TABLE withdrawal (number INTEGER PRIMARY KEY, first INTEGER NOT NULL, last INTEGER NOT NULL, reason TEXT NOT NULL, day TEXT NOT NULL) STRICT",
        11 =>
            "CREATE TABLE notice_out (number INTEGER PRIMARY KEY, account INTEGER NOT NULL, body TEXT NOT NULL) STRICT",
        12 =>
            "CREATE TABLE notice_in (sender INTEGER NOT NULL, number INTEGER NOT NULL, body TEXT NOT NULL, PRIMARY KEY (sender, number)) STRICT",
        13 => "CREATE INDEX piece_by_account ON piece (account, first)",
        14 => "CREATE INDEX piece_by_kind ON piece (kind, first)",
        15 =>
            "CREATE TABLE correction (id INTEGER PRIMARY KEY, device TEXT NOT NULL, first_day TEXT NOT NULL, less INTEGER NOT NULL, withdrawal INTEGER NOT NULL) STRICT",
        16 =>
            "CREATE TABLE device_carrier (gsrn TEXT NOT NULL PRIMARY KEY, carrier TEXT NOT NULL) STRICT",
        _ => "CREATE TABLE lot_carrier (lot INTEGER PRIMARY KEY, carrier TEXT NOT NULL) STRICT",
    }
}

/// Makes all tables of version 2 in a database that has none, each without a row, and their
/// indexes. Nothing is committed.
///
/// No table ends in a column that may be NULL: a stored row may lack its last columns, and no query
/// tells that from NULL. What version 2 added to version 1 comes after the rest, and what a later
/// version adds comes after these.
///
/// # Errors
///
/// In a transaction on a database without tables: a failure of memory or of the disk. Nothing is
/// committed.
pub fn create_tables<S: Alter>(tx: &mut Transaction<'_, S>) -> Result<(), Error>
    ensures same_reference { tx.new.conn.ghost_name ≡ tx.old.conn.ghost_name }
    ensures made { HasCleanDisk (state S.Store tx.new.conn.now)
        → IsTrue (state S.Store tx.old.conn.now).in_transaction
        → (state S.Store tx.old.conn.now).now.schema ≡ no_schema
        → OnOk result
        (IsTrue (state S.Store tx.new.conn.now).in_transaction
        × IsBare (state S.Store tx.new.conn.now).now) }
    ensures refused { HasCleanDisk (state S.Store tx.new.conn.now)
        → IsTrue (state S.Store tx.old.conn.now).in_transaction
        → (state S.Store tx.old.conn.now).now.schema ≡ no_schema
        → IfErr result (IsFault (state S.Store tx.old.conn.now) (state S.Store tx.new.conn.now)) }
    ensures live { HasCleanDisk (state S.Store tx.new.conn.now)
        → IsLive (state S.Store tx.old.conn.now)
        → IsTrue (state S.Store tx.old.conn.now).in_transaction
        → (state S.Store tx.old.conn.now).now.schema ≡ no_schema
        → OnOk result (IsLive (state S.Store tx.new.conn.now)) }
    ensures uncommitted { HasCleanDisk (state S.Store tx.new.conn.now)
        → KeepsCommit (state S.Store tx.old.conn.now) (state S.Store tx.new.conn.now) }
    ensures survives { Survives (state S.Store tx.old.conn.now) (state S.Store tx.new.conn.now)
        (λ _. ⊥) }
{
    for at in 0..18 {
        put(tx, statement(at), &[])?;
    }
    Ok(())
}

/// Adds to the tables of version 1 those that version 2 has beside them, each without a row.
/// Nothing is committed.
///
/// # Errors
///
/// In a transaction on tables of version 1, whatever their rows: a failure of memory or of the
/// disk.
pub fn add_tables<S: Alter>(tx: &mut Transaction<'_, S>) -> Result<(), Error>
    ensures same_reference { tx.new.conn.ghost_name ≡ tx.old.conn.ghost_name }
    ensures added { HasCleanDisk (state S.Store tx.new.conn.now)
        → IsTrue (state S.Store tx.old.conn.now).in_transaction → (t : Tables)
        → IsFirst (state S.Store tx.old.conn.now).now t
        → OnOk result (Sees (state S.Store tx.new.conn.now) t) }
    ensures refused { HasCleanDisk (state S.Store tx.new.conn.now)
        → IsTrue (state S.Store tx.old.conn.now).in_transaction
        → (state S.Store tx.old.conn.now).now.schema ≡ first_schema
        → IfErr result (IsFault (state S.Store tx.old.conn.now) (state S.Store tx.new.conn.now)) }
    ensures live { HasCleanDisk (state S.Store tx.new.conn.now)
        → IsLive (state S.Store tx.old.conn.now)
        → IsTrue (state S.Store tx.old.conn.now).in_transaction
        → (state S.Store tx.old.conn.now).now.schema ≡ first_schema
        → OnOk result (IsLive (state S.Store tx.new.conn.now)) }
    ensures uncommitted { HasCleanDisk (state S.Store tx.new.conn.now)
        → KeepsCommit (state S.Store tx.old.conn.now) (state S.Store tx.new.conn.now) }
    ensures survives { Survives (state S.Store tx.old.conn.now) (state S.Store tx.new.conn.now)
        (λ _. ⊥) }
{
    for at in 0..3 {
        put(tx, statement(15 + at), &[])?;
    }
    Ok(())
}
