//! The statements on `correction`.

ghost use Rattle.std.specs.Prelude.{slice_get, pos, None, reverse, ◌≡◌, false, map, IfOk, OnOk};
ghost use Rattle.std.specs.Prelude.{option_map, All};
ghost use Rattle.sqlite.specs.State.{HasCleanDisk, KeepsCommit, Survives};
ghost use Rattle.sqlite.specs.Held.{state};
ghost use Rattle.sqlite_keyed.specs.Keyed.{get_by};
ghost use Rattle.goo_tables_rows.specs.Rows.{Tables, correction_in, correction_row, correction_key};
ghost use Rattle.goo_tables_rows.specs.Rows.{correction_columns};
ghost use Rattle.goo_tables_rows.specs.Readable.{correction_readable};
ghost use Rattle.goo_tables_rows.specs.Refused.{FailsByFault, FailsOnlyByFault, ChangeFailsBy};
ghost use Rattle.goo_tables_rows.specs.Refused.{IsTooBig, IsSmall};
ghost use Rattle.goo_tables_rows.specs.Lives.{LeavesLive};
ghost use Rattle.goo_tables_rows.specs.Stands.{Sees, Looks, Keeps};
ghost use Rattle.goo_tables_rows.specs.Met.{HasOurTables};
ghost use Rattle.goo_tables_accounts.specs.Changes.{with_correction, CorrectionFits};

use goo_tables_rows::ask::{ask_all, ask_first};
use goo_tables_rows::correction::CorrectionRow;
use goo_tables_rows::put::put;
use goo_tables_rows::values::{number, small, text};
use sqlite::{Alter, Connection, Error, Transaction};
use std::alloc::Global;

/// Adds a correction, whose number must be new.
///
/// # Errors
///
/// In a registry's transaction, where the number is new: a failure of memory or of the disk, or of
/// a connection that an earlier failure shut, or `TooBig` for a row that is too big to be stored.
/// Nothing is committed.
pub fn insert_correction<S: Alter>(
    tx: &mut Transaction<'_, S>,
    correction: &CorrectionRow,
) -> Result<usize, Error>
    requires { CorrectionFits correction.now }
    ensures same_reference { tx.new.conn.ghost_name ≡ tx.old.conn.ghost_name }
    ensures changed { HasCleanDisk (state S.Store tx.new.conn.now) → (t : Tables)
        → Sees (state S.Store tx.old.conn.now) t
        → OnOk result
        (Sees (state S.Store tx.new.conn.now) (with_correction t (correction_in correction.now))) }
    ensures refused { ChangeFailsBy IsTooBig
        (λ _. IsSmall (correction_row (correction_in correction.now)))
        (state S.Store tx.old.conn.now) (state S.Store tx.new.conn.now) result
        (λ t. get_by correction_key t.corrections (pos correction.now.id) ≡ None) }
    ensures live { LeavesLive (state S.Store tx.old.conn.now)
        (state S.Store tx.new.conn.now) result }
    ensures uncommitted { HasCleanDisk (state S.Store tx.new.conn.now)
        → KeepsCommit (state S.Store tx.old.conn.now) (state S.Store tx.new.conn.now) }
    ensures survives { Survives (state S.Store tx.old.conn.now) (state S.Store tx.new.conn.now)
        (λ _. ⊥) }
{
    put(
        tx,
        "INSERT INTO correction (id, device, first_day, less, withdrawal) VALUES (?1, ?2, ?3, ?4, ?5)",
        &[
            number(correction.id),
            text(&correction.device),
            text(&correction.first_day),
            number(correction.less),
            small(correction.withdrawal),
        ],
    )
}

/// All corrections, in the order in which they came.
///
/// # Errors
///
/// On the tables of a registry: `SqliteFailure` where memory was refused, the disk failed or an
/// earlier failure shut the connection, and an error of reading where a row can't be read. The
/// database stays as it was.
pub fn all_corrections<S: Alter>(
    alloc: Global,
    conn: &mut Connection<S>,
) -> Result<Vec<CorrectionRow>, Error>
    ensures looks { Looks (state S.Store conn.old) (state S.Store conn.new) result
        (λ t found. map correction_in found.items ≡ t.corrections) }
    ensures met { HasCleanDisk (state S.Store conn.new) → HasOurTables (state S.Store conn.old).now
        → IfOk result
        (λ found. Keeps ((state S.Store conn.old).now.trees 22) correction_row correction_key
        (map correction_in found.items)) }
    ensures readable { FailsOnlyByFault (state S.Store conn.old) (state S.Store conn.new) result
        (λ t. All correction_readable (map correction_columns t.corrections)) }
    ensures refused { FailsByFault (state S.Store conn.old) (state S.Store conn.new) result }
    ensures outside { conn.old.in_transaction ≡ false → conn.new.in_transaction ≡ false }
{
    ask_all(
        alloc,
        conn,
        "SELECT id, device, first_day, less, withdrawal FROM correction ORDER BY id",
        &[],
    )
}

/// The correction with the highest number.
///
/// # Errors
///
/// On the tables of a registry: `SqliteFailure` where memory was refused, the disk failed or an
/// earlier failure shut the connection, and an error of reading where a row can't be read. The
/// database stays as it was.
pub fn last_correction<S: Alter>(
    alloc: Global,
    conn: &mut Connection<S>,
) -> Result<Option<CorrectionRow>, Error>
    ensures looks { Looks (state S.Store conn.old) (state S.Store conn.new) result
        (λ t found. option_map correction_in found ≡ slice_get (reverse t.corrections) 0) }
    ensures readable { FailsOnlyByFault (state S.Store conn.old) (state S.Store conn.new) result
        (λ t. All correction_readable (map correction_columns t.corrections)) }
    ensures refused { FailsByFault (state S.Store conn.old) (state S.Store conn.new) result }
    ensures outside { conn.old.in_transaction ≡ false → conn.new.in_transaction ≡ false }
{
    ask_first(
        alloc,
        conn,
        "SELECT id, device, first_day, less, withdrawal FROM correction ORDER BY id DESC LIMIT 1",
        &[],
    )
}
