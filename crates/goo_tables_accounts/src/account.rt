//! The statements on `account`.

ghost use Rattle.std.specs.Prelude.{◌≡◌, ⊤, None, false, pos, map, filter, IfOk, OnOk, option_map};
ghost use Rattle.std.specs.Prelude.{All};
ghost use Rattle.std.specs.Ordering.{int_eq};
ghost use Rattle.sqlite.specs.State.{HasCleanDisk, KeepsCommit, Survives};
ghost use Rattle.sqlite.specs.Held.{state};
ghost use Rattle.sqlite_keyed.specs.Keyed.{get_by};
ghost use Rattle.goo_tables_rows.specs.Rows.{Tables, account_in, account_key, account_row};
ghost use Rattle.goo_tables_rows.specs.Rows.{account_columns};
ghost use Rattle.goo_tables_rows.specs.Readable.{account_readable};
ghost use Rattle.goo_tables_rows.specs.Refused.{FailsByFault, FailsOnlyByFault, ChangeFailsBy};
ghost use Rattle.goo_tables_rows.specs.Refused.{IsTooBig, IsSmall};
ghost use Rattle.goo_tables_rows.specs.Lives.{LeavesLive};
ghost use Rattle.goo_tables_rows.specs.Stands.{Sees, Looks, Keeps};
ghost use Rattle.goo_tables_rows.specs.Met.{HasOurTables};
ghost use Rattle.goo_tables_rows.specs.First.{ReadsFirst};
ghost use Rattle.goo_tables_accounts.specs.Changes.{with_account, with_closed};

use goo_tables_rows::account::AccountRow;
use goo_tables_rows::ask::{ask_all, ask_first};
use goo_tables_rows::put::put;
use goo_tables_rows::values::{small, text};
use sqlite::{Alter, Connection, Error, Transaction};
use std::alloc::Global;

/// Adds an account, whose number must be new.
///
/// # Errors
///
/// In a registry's transaction, where the number is new: a failure of memory or of the disk, or of
/// a connection that an earlier failure shut, or `TooBig` for a row that is too big to be stored.
/// Nothing is committed.
pub fn insert_account<S: Alter>(
    tx: &mut Transaction<'_, S>,
    account: &AccountRow,
) -> Result<usize, Error>
    ensures same_reference { tx.new.conn.ghost_name ≡ tx.old.conn.ghost_name }
    ensures changed { HasCleanDisk (state S.Store tx.new.conn.now) → (t : Tables)
        → Sees (state S.Store tx.old.conn.now) t
        → OnOk result
        (Sees (state S.Store tx.new.conn.now) (with_account t (account_in account.now))) }
    ensures refused { ChangeFailsBy IsTooBig
        (λ _. IsSmall (account_row (account_in account.now))) (state S.Store tx.old.conn.now)
        (state S.Store tx.new.conn.now) result
        (λ t. get_by account_key t.accounts (pos account.now.number) ≡ None) }
    ensures live { LeavesLive (state S.Store tx.old.conn.now)
        (state S.Store tx.new.conn.now) result }
    ensures uncommitted { HasCleanDisk (state S.Store tx.new.conn.now)
        → KeepsCommit (state S.Store tx.old.conn.now) (state S.Store tx.new.conn.now) }
    ensures survives { Survives (state S.Store tx.old.conn.now) (state S.Store tx.new.conn.now)
        (λ _. ⊥) }
{
    put(
        tx,
        "INSERT INTO account (number, holder, closed) VALUES (?1, ?2, ?3)",
        &[
            small(account.number),
            text(&account.holder),
            small(account.closed),
        ],
    )
}

/// Closes the account with this number, if there is one.
///
/// # Errors
///
/// In a registry's transaction: a failure of memory or of the disk, or of a connection that an
/// earlier failure shut, or `TooBig` for a row that is too big to be stored. Nothing is committed.
pub fn close_account<S: Alter>(tx: &mut Transaction<'_, S>, number: u32) -> Result<usize, Error>
    ensures same_reference { tx.new.conn.ghost_name ≡ tx.old.conn.ghost_name }
    ensures changed { HasCleanDisk (state S.Store tx.new.conn.now) → (t : Tables)
        → Sees (state S.Store tx.old.conn.now) t
        → OnOk result (Sees (state S.Store tx.new.conn.now) (with_closed t number)) }
    ensures refused { ChangeFailsBy IsTooBig
        (λ t. All
        (λ a. IsSmall (account_row (record a { closed = 1 })))
        (filter (λ a. int_eq (account_key a) (pos number)) t.accounts))
        (state S.Store tx.old.conn.now) (state S.Store tx.new.conn.now) result (λ _. ⊤) }
    ensures live { LeavesLive (state S.Store tx.old.conn.now)
        (state S.Store tx.new.conn.now) result }
    ensures uncommitted { HasCleanDisk (state S.Store tx.new.conn.now)
        → KeepsCommit (state S.Store tx.old.conn.now) (state S.Store tx.new.conn.now) }
    ensures survives { Survives (state S.Store tx.old.conn.now) (state S.Store tx.new.conn.now)
        (λ _. ⊥) }
{
    put(
        tx,
        "UPDATE account SET closed = 1 WHERE number = ?1",
        &[small(number)],
    )
}

/// The account with this number.
///
/// # Errors
///
/// On the tables of a registry: `SqliteFailure` where memory was refused, the disk failed or an
/// earlier failure shut the connection, and an error of reading where a row can't be read. The
/// database stays as it was.
pub fn find_account<S: Alter>(
    alloc: Global,
    conn: &mut Connection<S>,
    number: u32,
) -> Result<Option<AccountRow>, Error>
    ensures looks { Looks (state S.Store conn.old) (state S.Store conn.new) result
        (λ t found. option_map account_in found ≡ get_by account_key t.accounts (pos number)) }
    ensures readable { FailsOnlyByFault (state S.Store conn.old) (state S.Store conn.new) result
        (λ t. All account_readable (map account_columns t.accounts)) }
    ensures refused { FailsByFault (state S.Store conn.old) (state S.Store conn.new) result }
    ensures outside { conn.old.in_transaction ≡ false → conn.new.in_transaction ≡ false }
{
    ask_first(
        alloc,
        conn,
        "SELECT number, holder, closed FROM account WHERE number = ?1 ORDER BY number",
        &[small(number)],
    )
}

/// All accounts, by their numbers.
///
/// # Errors
///
/// On the tables of a registry: `SqliteFailure` where memory was refused, the disk failed or an
/// earlier failure shut the connection, and an error of reading where a row can't be read. The
/// database stays as it was.
pub fn all_accounts<S: Alter>(
    alloc: Global,
    conn: &mut Connection<S>,
) -> Result<Vec<AccountRow>, Error>
    ensures looks { Looks (state S.Store conn.old) (state S.Store conn.new) result
        (λ t found. map account_in found.items ≡ t.accounts) }
    ensures met { HasCleanDisk (state S.Store conn.new) → HasOurTables (state S.Store conn.old).now
        → IfOk result
        (λ found. Keeps ((state S.Store conn.old).now.trees 3) account_row account_key
        (map account_in found.items)) }
    ensures readable { FailsOnlyByFault (state S.Store conn.old) (state S.Store conn.new) result
        (λ t. All account_readable (map account_columns t.accounts)) }
    ensures refused { FailsByFault (state S.Store conn.old) (state S.Store conn.new) result }
    ensures outside { conn.old.in_transaction ≡ false → conn.new.in_transaction ≡ false }
    ensures first { ReadsFirst (state S.Store conn.old) (state S.Store conn.new) result
        (λ t found. map account_in found.items ≡ t.accounts)
        (λ db found. Keeps (db.trees 3) account_row account_key (map account_in found.items))
        (λ t. All account_readable (map account_columns t.accounts)) }
{
    ask_all(
        alloc,
        conn,
        "SELECT number, holder, closed FROM account ORDER BY number",
        &[],
    )
}
