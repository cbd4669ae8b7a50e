//! The statements on `piece`.

ghost use Rattle.std.specs.Prelude.{◌≡◌, ⊤, None, ◌<◌, ◌^◌, ◌&&◌, false, IfOk, OnOk, pos, All};
ghost use Rattle.std.specs.Prelude.{find, length, map};
ghost use Rattle.std.specs.List.{filter};
ghost use Rattle.std.specs.Ordering.{int_eq};
ghost use Rattle.sqlite.specs.State.{HasCleanDisk, KeepsCommit, Survives};
ghost use Rattle.sqlite.specs.Held.{state};
ghost use Rattle.sqlite_keyed.specs.Keyed.{get_by};
ghost use Rattle.goo_tables_rows.specs.Rows.{Tables, piece_row, piece_key, piece_columns};
ghost use Rattle.goo_tables_rows.specs.Readable.{piece_readable};
ghost use Rattle.goo_tables_rows.specs.Refused.{FailsByFault, FailsOnlyByFault, ChangeFailsBy};
ghost use Rattle.goo_tables_rows.specs.Refused.{IsTooBig, IsSmall};
ghost use Rattle.goo_tables_rows.specs.Lives.{LeavesLive};
ghost use Rattle.goo_tables_rows.specs.Stands.{Sees, Looks, Keeps};
ghost use Rattle.goo_tables_rows.specs.Met.{HasOurTables};
ghost use Rattle.goo_tables_rows.specs.First.{ReadsFirst};
ghost use Rattle.goo_tables_accounts.specs.Changes.{begins_as, with_piece, with_piece_set};
ghost use Rattle.goo_tables_accounts.specs.Changes.{without_piece, PieceFits};

use goo_tables_rows::ask::ask_first;
use goo_tables_rows::each::ask_each;
use goo_tables_rows::piece::PieceRow;
use goo_tables_rows::put::put;
use goo_tables_rows::values::{number, small};
use sqlite::{Alter, Connection, Error, Transaction};
use std::alloc::Global;

/// Adds a piece, whose first number must be that of no other piece.
///
/// # Errors
///
/// In a registry's transaction, where the first number is new: a failure of memory or of the disk,
/// or of a connection that an earlier failure shut, or `TooBig` for a row that is too big to be
/// stored. Nothing is committed.
pub fn insert_piece<S: Alter>(tx: &mut Transaction<'_, S>, piece: &PieceRow) -> Result<usize, Error>
    requires { PieceFits piece.now }
    ensures same_reference { tx.new.conn.ghost_name ≡ tx.old.conn.ghost_name }
    ensures changed { HasCleanDisk (state S.Store tx.new.conn.now) → (t : Tables)
        → Sees (state S.Store tx.old.conn.now) t
        → OnOk result (Sees (state S.Store tx.new.conn.now) (with_piece t piece.now)) }
    ensures refused { ChangeFailsBy IsTooBig
        (λ _. IsSmall (piece_row piece.now)) (state S.Store tx.old.conn.now)
        (state S.Store tx.new.conn.now) result
        (λ t. get_by piece_key t.pieces (pos piece.now.first) ≡ None) }
    ensures live { LeavesLive (state S.Store tx.old.conn.now)
        (state S.Store tx.new.conn.now) result }
    ensures uncommitted { HasCleanDisk (state S.Store tx.new.conn.now)
        → KeepsCommit (state S.Store tx.old.conn.now) (state S.Store tx.new.conn.now) }
    ensures survives { Survives (state S.Store tx.old.conn.now) (state S.Store tx.new.conn.now)
        (λ _. ⊥) }
{
    put(
        tx,
        "INSERT INTO piece (first, last, lot, kind, account, act) VALUES (?1, ?2, ?3, ?4, ?5, ?6)",
        &[
            number(piece.first),
            number(piece.last),
            number(piece.lot),
            small(piece.kind),
            small(piece.account),
            small(piece.act),
        ],
    )
}

/// Adds two pieces by one statement. The first number of each must be that of no other piece.
///
/// # Errors
///
/// In a registry's transaction, where the first numbers are new and differ: a failure of memory or
/// of the disk, or of a connection that an earlier failure shut, or `TooBig` for a row that is too
/// big to be stored. Nothing is committed.
pub fn insert_two_pieces<S: Alter>(
    tx: &mut Transaction<'_, S>,
    first: &PieceRow,
    second: &PieceRow,
) -> Result<usize, Error>
    requires first_fits { PieceFits first.now }
    requires second_fits { PieceFits second.now }
    ensures same_reference { tx.new.conn.ghost_name ≡ tx.old.conn.ghost_name }
    ensures changed { HasCleanDisk (state S.Store tx.new.conn.now) → (t : Tables)
        → Sees (state S.Store tx.old.conn.now) t
        → OnOk result
        (Sees (state S.Store tx.new.conn.now) (with_piece (with_piece t first.now) second.now)) }
    ensures refused { ChangeFailsBy IsTooBig
        (λ _. IsSmall (piece_row first.now) × IsSmall (piece_row second.now))
        (state S.Store tx.old.conn.now) (state S.Store tx.new.conn.now) result
        (λ t. (get_by piece_key t.pieces (pos first.now.first) ≡ None)
        × (get_by piece_key (with_piece t first.now).pieces (pos second.now.first) ≡ None)) }
    ensures live { LeavesLive (state S.Store tx.old.conn.now)
        (state S.Store tx.new.conn.now) result }
    ensures uncommitted { HasCleanDisk (state S.Store tx.new.conn.now)
        → KeepsCommit (state S.Store tx.old.conn.now) (state S.Store tx.new.conn.now) }
    ensures survives { Survives (state S.Store tx.old.conn.now) (state S.Store tx.new.conn.now)
        (λ _. ⊥) }
{
    put(
        tx,
        "INSERT INTO piece (first, last, lot, kind, account, act) VALUES (?1, ?2, ?3, ?4, ?5, ?6), (?7, ?8, ?9, ?10, ?11, ?12)",
        &[
            number(first.first),
            number(first.last),
            number(first.lot),
            small(first.kind),
            small(first.account),
            small(first.act),
            number(second.first),
            number(second.last),
            number(second.lot),
            small(second.kind),
            small(second.account),
            small(second.act),
        ],
    )
}

/// Puts the piece in the place of the one that begins with the same number; how many of these there
/// were, one at most.
///
/// # Errors
///
/// In a registry's transaction: a failure of memory or of the disk, or of a connection that an
/// earlier failure shut, or `TooBig` for a row that is too big to be stored. Nothing is committed.
pub fn set_piece<S: Alter>(tx: &mut Transaction<'_, S>, piece: &PieceRow) -> Result<usize, Error>
    requires { PieceFits piece.now }
    ensures same_reference { tx.new.conn.ghost_name ≡ tx.old.conn.ghost_name }
    ensures changed { HasCleanDisk (state S.Store tx.new.conn.now) → (t : Tables)
        → Sees (state S.Store tx.old.conn.now) t
        → OnOk result (Sees (state S.Store tx.new.conn.now) (with_piece_set t piece.now)) }
    ensures count { HasCleanDisk (state S.Store tx.new.conn.now) → (t : Tables)
        → Sees (state S.Store tx.old.conn.now) t
        → IfOk result (λ n. n ≡ length (filter (begins_as piece.now) t.pieces)) }
    ensures refused { ChangeFailsBy IsTooBig
        (λ _. IsSmall (piece_row piece.now)) (state S.Store tx.old.conn.now)
        (state S.Store tx.new.conn.now) result (λ _. ⊤) }
    ensures live { LeavesLive (state S.Store tx.old.conn.now)
        (state S.Store tx.new.conn.now) result }
    ensures uncommitted { HasCleanDisk (state S.Store tx.new.conn.now)
        → KeepsCommit (state S.Store tx.old.conn.now) (state S.Store tx.new.conn.now) }
    ensures survives { Survives (state S.Store tx.old.conn.now) (state S.Store tx.new.conn.now)
        (λ _. ⊥) }
{
    put(
        tx,
        "UPDATE piece SET last = ?2, lot = ?3, kind = ?4, account = ?5, act = ?6 WHERE first = ?1",
        &[
            number(piece.first),
            number(piece.last),
            number(piece.lot),
            small(piece.kind),
            small(piece.account),
            small(piece.act),
        ],
    )
}

/// Takes out the piece that begins with this number, if there is one.
///
/// # Errors
///
/// In a registry's transaction: a failure of memory or of the disk, or of a connection that an
/// earlier failure shut. Nothing is committed.
pub fn delete_piece<S: Alter>(tx: &mut Transaction<'_, S>, first: u64) -> Result<usize, Error>
    requires { first < 2 ^ 63 }
    ensures same_reference { tx.new.conn.ghost_name ≡ tx.old.conn.ghost_name }
    ensures changed { HasCleanDisk (state S.Store tx.new.conn.now) → (t : Tables)
        → Sees (state S.Store tx.old.conn.now) t
        → OnOk result (Sees (state S.Store tx.new.conn.now) (without_piece t first)) }
    ensures refused { ChangeFailsBy (λ _. ⊥)
        (λ _. ⊤) (state S.Store tx.old.conn.now) (state S.Store tx.new.conn.now) result (λ _. ⊤) }
    ensures live { LeavesLive (state S.Store tx.old.conn.now)
        (state S.Store tx.new.conn.now) result }
    ensures uncommitted { HasCleanDisk (state S.Store tx.new.conn.now)
        → KeepsCommit (state S.Store tx.old.conn.now) (state S.Store tx.new.conn.now) }
    ensures survives { Survives (state S.Store tx.old.conn.now) (state S.Store tx.new.conn.now)
        (λ _. ⊥) }
{
    put(tx, "DELETE FROM piece WHERE first = ?1", &[number(first)])
}

/// The piece that begins with this number.
///
/// # Errors
///
/// On the tables of a registry: `SqliteFailure` where memory was refused, the disk failed or an
/// earlier failure shut the connection, and an error of reading where a row can't be read. The
/// database stays as it was.
pub fn find_piece<S: Alter>(
    alloc: Global,
    conn: &mut Connection<S>,
    first: u64,
) -> Result<Option<PieceRow>, Error>
    requires { first < 2 ^ 63 }
    ensures looks { Looks (state S.Store conn.old) (state S.Store conn.new) result
        (λ t found. found ≡ get_by piece_key t.pieces (pos first)) }
    ensures readable { FailsOnlyByFault (state S.Store conn.old) (state S.Store conn.new) result
        (λ t. All piece_readable (map piece_columns t.pieces)) }
    ensures refused { FailsByFault (state S.Store conn.old) (state S.Store conn.new) result }
    ensures outside { conn.old.in_transaction ≡ false → conn.new.in_transaction ≡ false }
{
    ask_first(
        alloc,
        conn,
        "SELECT first, last, lot, kind, account, act FROM piece WHERE first = ?1 ORDER BY first",
        &[number(first)],
    )
}

/// The first of the pieces that the account holds.
///
/// # Errors
///
/// On the tables of a registry: `SqliteFailure` where memory was refused, the disk failed or an
/// earlier failure shut the connection, and an error of reading where a row can't be read. The
/// database stays as it was.
pub fn first_held<S: Alter>(
    alloc: Global,
    conn: &mut Connection<S>,
    account: u32,
) -> Result<Option<PieceRow>, Error>
    ensures looks { Looks (state S.Store conn.old) (state S.Store conn.new) result
        (λ t found. found
        ≡ find (λ p. int_eq (pos p.account) (pos account) && int_eq (pos p.kind) (pos 1))
        t.pieces) }
    ensures readable { FailsOnlyByFault (state S.Store conn.old) (state S.Store conn.new) result
        (λ t. All piece_readable (map piece_columns t.pieces)) }
    ensures refused { FailsByFault (state S.Store conn.old) (state S.Store conn.new) result }
    ensures outside { conn.old.in_transaction ≡ false → conn.new.in_transaction ≡ false }
{
    ask_first(
        alloc,
        conn,
        "SELECT first, last, lot, kind, account, act FROM piece WHERE account = ?1 AND kind = 1 ORDER BY first LIMIT 1",
        &[small(account)],
    )
}

/// All pieces, by their first numbers.
///
/// # Errors
///
/// On the tables of a registry: `SqliteFailure` where memory was refused, the disk failed or an
/// earlier failure shut the connection, and an error of reading where a row can't be read. The
/// database stays as it was.
pub fn all_pieces<S: Alter>(alloc: Global, conn: &mut Connection<S>) -> Result<Vec<PieceRow>, Error>
    ensures looks { Looks (state S.Store conn.old) (state S.Store conn.new) result
        (λ t found. found.items ≡ t.pieces) }
    ensures met { HasCleanDisk (state S.Store conn.new) → HasOurTables (state S.Store conn.old).now
        → IfOk result
        (λ found. Keeps ((state S.Store conn.old).now.trees 10) piece_row piece_key found.items) }
    ensures readable { FailsOnlyByFault (state S.Store conn.old) (state S.Store conn.new) result
        (λ t. All piece_readable (map piece_columns t.pieces)) }
    ensures refused { FailsByFault (state S.Store conn.old) (state S.Store conn.new) result }
    ensures outside { conn.old.in_transaction ≡ false → conn.new.in_transaction ≡ false }
    ensures first { ReadsFirst (state S.Store conn.old) (state S.Store conn.new) result
        (λ t found. found.items ≡ t.pieces)
        (λ db found. Keeps (db.trees 10) piece_row piece_key found.items)
        (λ t. All piece_readable (map piece_columns t.pieces)) }
{
    ask_each(
        alloc,
        conn,
        "SELECT first, last, lot, kind, account, act FROM piece ORDER BY first",
        &[],
    )
}
