//! The statements on `holder`.

ghost use Rattle.std.specs.Prelude.{◌≡◌, None, false, map, find, IfOk, OnOk, option_map, All};
ghost use Rattle.sqlite.specs.State.{HasCleanDisk, KeepsCommit, Survives};
ghost use Rattle.sqlite.specs.Held.{state};
ghost use Rattle.sqlite_typed.specs.Tests.{bytes_eq};
ghost use Rattle.goo_tables_rows.specs.Rows.{Tables, holder_in, holder_row, holder_columns};
ghost use Rattle.goo_tables_rows.specs.Readable.{holder_readable};
ghost use Rattle.goo_tables_rows.specs.Refused.{FailsByFault, FailsOnlyByFault, ChangeFailsBy};
ghost use Rattle.goo_tables_rows.specs.Refused.{IsTooBigOrFull, HasRoomFor};
ghost use Rattle.goo_tables_rows.specs.Lives.{LeavesLive};
ghost use Rattle.goo_tables_rows.specs.Stands.{Sees, Looks};
ghost use Rattle.goo_tables_rows.specs.Met.{HasOurTables, KeepsSome};
ghost use Rattle.goo_tables_rows.specs.First.{ReadsFirst};
ghost use Rattle.goo_tables_accounts.specs.Changes.{with_holder};

use goo_tables_rows::ask::{ask_all, ask_first};
use goo_tables_rows::holder::HolderRow;
use goo_tables_rows::put::put;
use goo_tables_rows::values::text;
use sqlite::{Alter, Connection, Error, Transaction};
use std::alloc::Global;

/// Adds a holder, whose code must be new.
///
/// # Errors
///
/// In a registry's transaction, where the code is new: a failure of memory or of the disk, or of a
/// connection that an earlier failure shut, or `TooBig` for a row that is too big to be stored, or
/// `NoRowid` where the table has no number left for a row. Nothing is committed.
pub fn insert_holder<S: Alter>(
    tx: &mut Transaction<'_, S>,
    holder: &HolderRow,
) -> Result<usize, Error>
    ensures same_reference { tx.new.conn.ghost_name ≡ tx.old.conn.ghost_name }
    ensures changed { HasCleanDisk (state S.Store tx.new.conn.now) → (t : Tables)
        → Sees (state S.Store tx.old.conn.now) t
        → OnOk result
        (Sees (state S.Store tx.new.conn.now) (with_holder t (holder_in holder.now))) }
    ensures refused { ChangeFailsBy IsTooBigOrFull
        (λ t. HasRoomFor holder_row t.holders (holder_in holder.now))
        (state S.Store tx.old.conn.now) (state S.Store tx.new.conn.now) result
        (λ t. find (λ k. bytes_eq k.1.code (holder_in holder.now).code) t.holders ≡ None) }
    ensures live { LeavesLive (state S.Store tx.old.conn.now)
        (state S.Store tx.new.conn.now) result }
    ensures uncommitted { HasCleanDisk (state S.Store tx.new.conn.now)
        → KeepsCommit (state S.Store tx.old.conn.now) (state S.Store tx.new.conn.now) }
    ensures survives { Survives (state S.Store tx.old.conn.now) (state S.Store tx.new.conn.now)
        (λ _. ⊥) }
{
    put(
        tx,
        "INSERT INTO holder (code, name) VALUES (?1, ?2)",
        &[text(&holder.code), text(&holder.name)],
    )
}

/// The holder with this code.
///
/// # Errors
///
/// On the tables of a registry: `SqliteFailure` where memory was refused, the disk failed or an
/// earlier failure shut the connection, and an error of reading where a row can't be read. The
/// database stays as it was.
pub fn find_holder<S: Alter>(
    alloc: Global,
    conn: &mut Connection<S>,
    code: &str,
) -> Result<Option<HolderRow>, Error>
    ensures looks { Looks (state S.Store conn.old) (state S.Store conn.new) result
        (λ t found. option_map holder_in found
        ≡ option_map (λ k. k.1) (find (λ k. bytes_eq k.1.code code.now) t.holders)) }
    ensures readable { FailsOnlyByFault (state S.Store conn.old) (state S.Store conn.new) result
        (λ t. All holder_readable (map (λ k. holder_columns k.1) t.holders)) }
    ensures refused { FailsByFault (state S.Store conn.old) (state S.Store conn.new) result }
    ensures outside { conn.old.in_transaction ≡ false → conn.new.in_transaction ≡ false }
{
    ask_first(
        alloc,
        conn,
        "SELECT code, name FROM holder WHERE code = ?1 ORDER BY rowid",
        &[text(code)],
    )
}

/// All holders, in the order in which they came.
///
/// # Errors
///
/// On the tables of a registry: `SqliteFailure` where memory was refused, the disk failed or an
/// earlier failure shut the connection, and an error of reading where a row can't be read. The
/// database stays as it was.
pub fn all_holders<S: Alter>(
    alloc: Global,
    conn: &mut Connection<S>,
) -> Result<Vec<HolderRow>, Error>
    ensures looks { Looks (state S.Store conn.old) (state S.Store conn.new) result
        (λ t found. map holder_in found.items ≡ map (λ k. k.1) t.holders) }
    ensures met { HasCleanDisk (state S.Store conn.new) → HasOurTables (state S.Store conn.old).now
        → IfOk result
        (λ found. KeepsSome ((state S.Store conn.old).now.trees 1) holder_row
        (map holder_in found.items)) }
    ensures readable { FailsOnlyByFault (state S.Store conn.old) (state S.Store conn.new) result
        (λ t. All holder_readable (map (λ k. holder_columns k.1) t.holders)) }
    ensures refused { FailsByFault (state S.Store conn.old) (state S.Store conn.new) result }
    ensures outside { conn.old.in_transaction ≡ false → conn.new.in_transaction ≡ false }
    ensures first { ReadsFirst (state S.Store conn.old) (state S.Store conn.new) result
        (λ t found. map holder_in found.items ≡ map (λ k. k.1) t.holders)
        (λ db found. KeepsSome (db.trees 1) holder_row (map holder_in found.items))
        (λ t. All holder_readable (map (λ k. holder_columns k.1) t.holders)) }
{
    ask_all(
        alloc,
        conn,
        "SELECT code, name FROM holder ORDER BY rowid",
        &[],
    )
}
