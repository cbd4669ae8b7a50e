//! The statements on `cancellation`.

ghost use Rattle.std.specs.Prelude.{◌≡◌, None, false, pos, map, IfOk, OnOk, option_map, All};
ghost use Rattle.std.specs.List.{AllZip};
ghost use Rattle.sqlite.specs.State.{HasCleanDisk, KeepsCommit, Survives};
ghost use Rattle.sqlite.specs.Held.{state};
ghost use Rattle.sqlite_keyed.specs.Keyed.{get_by};
ghost use Rattle.goo_tables_rows.specs.Rows.{Tables, cancellation_in, cancellation_key};
ghost use Rattle.goo_tables_rows.specs.Rows.{cancellation_row, cancellation_columns};
ghost use Rattle.goo_tables_rows.specs.Readable.{cancellation_readable};
ghost use Rattle.goo_tables_rows.specs.Refused.{FailsByFault, FailsOnlyByFault, ChangeFailsBy};
ghost use Rattle.goo_tables_rows.specs.Refused.{IsTooBig, IsSmall};
ghost use Rattle.goo_tables_rows.specs.Lives.{LeavesLive};
ghost use Rattle.goo_tables_rows.specs.Stands.{Sees, Looks};
ghost use Rattle.goo_tables_rows.specs.Met.{HasOurTables};
ghost use Rattle.goo_tables_rows.specs.First.{ReadsFirst};
ghost use Rattle.goo_tables_accounts.specs.Changes.{with_cancellation, CancellationFits};
ghost use Rattle.goo_tables.specs.Cancellations.{ReadAsCancellations, KeepsCancellations};

use goo_tables_rows::ask::ask_first;
use goo_tables_rows::cancellation::CancellationRow;
use goo_tables_rows::each::ask_each;
use goo_tables_rows::from_row::FromRow;
use goo_tables_rows::put::put;
use goo_tables_rows::values::{number, small, text};
use sqlite::{Alter, Connection, Error, Transaction};
use std::alloc::Global;

/// Adds a cancellation, whose number must be new.
///
/// # Errors
///
/// In a registry's transaction, where the number is new: a failure of memory or of the disk, or of
/// a connection that an earlier failure shut, or `TooBig` for a row that is too big to be stored.
/// Nothing is committed.
pub fn insert_cancellation<S: Alter>(
    tx: &mut Transaction<'_, S>,
    cancellation: &CancellationRow,
) -> Result<usize, Error>
    requires { CancellationFits cancellation.now }
    ensures same_reference { tx.new.conn.ghost_name ≡ tx.old.conn.ghost_name }
    ensures changed { HasCleanDisk (state S.Store tx.new.conn.now) → (t : Tables)
        → Sees (state S.Store tx.old.conn.now) t
        → OnOk result
        (Sees (state S.Store tx.new.conn.now)
        (with_cancellation t (cancellation_in cancellation.now))) }
    ensures refused { ChangeFailsBy IsTooBig
        (λ _. IsSmall (cancellation_row (cancellation_in cancellation.now)))
        (state S.Store tx.old.conn.now) (state S.Store tx.new.conn.now) result
        (λ t. get_by cancellation_key t.cancellations (pos cancellation.now.number) ≡ None) }
    ensures live { LeavesLive (state S.Store tx.old.conn.now)
        (state S.Store tx.new.conn.now) result }
    ensures uncommitted { HasCleanDisk (state S.Store tx.new.conn.now)
        → KeepsCommit (state S.Store tx.old.conn.now) (state S.Store tx.new.conn.now) }
    ensures survives { Survives (state S.Store tx.old.conn.now) (state S.Store tx.new.conn.now)
        (λ _. ⊥) }
{
    put(
        tx,
        "INSERT INTO cancellation (number, account, first, last, beneficiary, use_first, use_last, day) VALUES (?1, ?2, ?3, ?4, ?5, ?6, ?7, ?8)",
        &[
            small(cancellation.number),
            small(cancellation.account),
            number(cancellation.first),
            number(cancellation.last),
            text(&cancellation.beneficiary),
            text(&cancellation.use_first),
            text(&cancellation.use_last),
            text(&cancellation.day),
        ],
    )
}

/// The cancellation with this number.
///
/// # Errors
///
/// On the tables of a registry: `SqliteFailure` where memory was refused, the disk failed or an
/// earlier failure shut the connection, and an error of reading where a row can't be read. The
/// database stays as it was.
pub fn find_cancellation<S: Alter>(
    alloc: Global,
    conn: &mut Connection<S>,
    number: u32,
) -> Result<Option<CancellationRow>, Error>
    ensures looks { Looks (state S.Store conn.old) (state S.Store conn.new) result
        (λ t found. option_map cancellation_in found
        ≡ get_by cancellation_key t.cancellations (pos number)) }
    ensures readable { FailsOnlyByFault (state S.Store conn.old) (state S.Store conn.new) result
        (λ t. All cancellation_readable (map cancellation_columns t.cancellations)) }
    ensures refused { FailsByFault (state S.Store conn.old) (state S.Store conn.new) result }
    ensures outside { conn.old.in_transaction ≡ false → conn.new.in_transaction ≡ false }
{
    ask_first(
        alloc,
        conn,
        "SELECT number, account, first, last, beneficiary, use_first, use_last, day FROM cancellation WHERE number = ?1 ORDER BY number",
        &[small(number)],
    )
}

/// All cancellations, by their numbers, each read as a `T`.
///
/// # Errors
///
/// On the tables of a registry: `SqliteFailure` where memory was refused, the disk failed or an
/// earlier failure shut the connection, and an error of reading where a row can't be read. The
/// database stays as it was.
pub fn all_cancellations<S: Alter, T: FromRow + Drop>(
    alloc: Global,
    conn: &mut Connection<S>,
) -> Result<Vec<T>, Error>
    ensures looks { Looks (state S.Store conn.old) (state S.Store conn.new) result
        (λ t found. AllZip T.reads (map cancellation_columns t.cancellations) found.items) }
    ensures met { ReadAsCancellations T.reads → HasCleanDisk (state S.Store conn.new)
        → HasOurTables (state S.Store conn.old).now
        → IfOk result
        (λ found. KeepsCancellations ((state S.Store conn.old).now.trees 15) T.reads found.items) }
    ensures readable { FailsOnlyByFault (state S.Store conn.old) (state S.Store conn.new) result
        (λ t. All T.readable (map cancellation_columns t.cancellations)) }
    ensures refused { FailsByFault (state S.Store conn.old) (state S.Store conn.new) result }
    ensures outside { conn.old.in_transaction ≡ false → conn.new.in_transaction ≡ false }
    ensures first { ReadAsCancellations T.reads
        → ReadsFirst (state S.Store conn.old) (state S.Store conn.new) result
        (λ t found. AllZip T.reads (map cancellation_columns t.cancellations) found.items)
        (λ db found. KeepsCancellations (db.trees 15) T.reads found.items)
        (λ t. All T.readable (map cancellation_columns t.cancellations)) }
{
    ask_each(
        alloc,
        conn,
        "SELECT number, account, first, last, beneficiary, use_first, use_last, day FROM cancellation ORDER BY number",
        &[],
    )
}
