//! Tables written anew in one transaction.

ghost use Rattle.std.specs.Prelude.{◌≡◌, ◌≤◌, false, OnErr, OnOk, length};
ghost use Rattle.sqlite.specs.Held.{state};
ghost use Rattle.sqlite.specs.State.{HasCleanDisk, KeepsCommit, Survives};
ghost use Rattle.goo_tables_rows.specs.Stands.{Rests};
ghost use Rattle.goo_store_anew.specs.Answered.{AreAnswers, HoldAnswers};
ghost use Rattle.goo_store_anew.specs.Quiet.{IsQuiet};

use crate::answers::Answer;
use crate::asking::have_rows;
use crate::writing::rewrite;
use sqlite::{Alter, Connection, Error, ErrorCode, Transaction};
use std::alloc::Global;

/// Takes the tables away, makes ours, puts the rows there, and asks for them once more. Nothing is
/// committed.
///
/// # Errors
///
/// The first error of a statement, and `NotADatabase` where the rows are not the same.
fn write_inside<S: Alter>(
    alloc: Global,
    tx: &mut Transaction<'_, S>,
    views: &str,
    answers: &[Answer],
) -> Result<(), Error>
    requires { length answers.now ≤ 16 }
    ensures same_reference { tx.new.conn.ghost_name ≡ tx.old.conn.ghost_name }
    ensures quiet { IsQuiet (state S.Store tx.old.conn.now) (state S.Store tx.new.conn.now) }
    ensures told { HasCleanDisk (state S.Store tx.new.conn.now) → OnOk result
        (AreAnswers (length answers.now) (state S.Store tx.new.conn.now).now answers.now) }
{
    rewrite(alloc, tx, views, answers)?;
    match have_rows(tx, answers) {
        Ok(true) => Ok(()),
        Ok(false) => Err(Error::SqliteFailure(ErrorCode::NotADatabase)),
        Err(error) => Err(error),
    }
}

/// Does so in a transaction, which is committed where the rows are the same, and else undone.
///
/// # Errors
///
/// Those of `write_inside`, and that of the commit.
fn write_and_commit<S: Alter>(
    alloc: Global,
    conn: &mut Connection<S>,
    views: &str,
    answers: &[Answer],
) -> Result<(), Error>
    requires outside { conn.old.in_transaction ≡ false }
    requires answers { length answers.now ≤ 16 }
    ensures outside { conn.new.in_transaction ≡ false }
    ensures done { HasCleanDisk (state S.Store conn.new) → OnOk result
        (AreAnswers (length answers.now) (state S.Store conn.new).now answers.now) }
    ensures uncommitted { HasCleanDisk (state S.Store conn.new)
        → OnErr result (KeepsCommit (state S.Store conn.old) (state S.Store conn.new)) }
    ensures crash { Survives (state S.Store conn.old) (state S.Store conn.new)
        (HoldAnswers answers.now) }
{
    let mut tx = conn.transaction();
    write_inside(alloc, &mut tx, views, answers)?;
    tx.commit()?;
    Ok(())
}

/// Takes the tables away, makes ours, puts the rows there, and asks for them once more. Where they
/// are the same, that is committed, and else nothing. `views` are statements that take away the views
/// which the tables have; of 13 answers tables of version 1 are made, of 16 those of version 2.
///
/// # Errors
///
/// The first error of a statement, or that of the commit; `NotADatabase` where the rows are not the
/// same.
pub fn write_anew<S: Alter>(
    alloc: Global,
    conn: &mut Connection<S>,
    views: &str,
    answers: &[Answer],
) -> Result<(), Error>
    requires outside { conn.old.in_transaction ≡ false }
    requires answers { length answers.now ≤ 16 }
    ensures outside { conn.new.in_transaction ≡ false }
    ensures done { HasCleanDisk (state S.Store conn.new) → OnOk result
        (AreAnswers (length answers.now) (state S.Store conn.new).now answers.now) }
    ensures kept { HasCleanDisk (state S.Store conn.new)
        → OnErr result (Rests (state S.Store conn.old) (state S.Store conn.new)) }
    ensures crash { Survives (state S.Store conn.old) (state S.Store conn.new)
        (HoldAnswers answers.now) }
{
    let _before = conn.is_autocommit();
    let written = write_and_commit(alloc, conn, views, answers);
    let _after = conn.is_autocommit();
    written
}
