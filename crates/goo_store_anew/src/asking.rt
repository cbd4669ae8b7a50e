//! The rows of the tables, asked for by the names of their columns.

ghost use Rattle.std.specs.Prelude.{◌≡◌, ◌<◌, ◌≤◌, false, length, IsTrue, IfOk, IfErr, OnOk};
ghost use Rattle.sqlite.specs.Held.{state};
ghost use Rattle.sqlite.specs.State.{HasCleanDisk, Survives};
ghost use Rattle.goo_tables_rows.specs.Stands.{Rests, IsSettled};
ghost use Rattle.goo_store_anew.specs.Answered.{Shows, IsErrorOf, AreAnswers};
ghost use Rattle.goo_store_anew.specs.Quiet.{IsQuiet};

use crate::answers::Answer;
use crate::same::are_same;
use crate::texts::question;
use sqlite::{Alter, Connection, Error, Row, Transaction};
use std::alloc::Global;

/// The rows of one table.
///
/// # Errors
///
/// Those of the question: `SqlInputError` where the table or a column of it is missing, and none of
/// reading a value.
pub fn ask<S: Alter>(conn: &mut Connection<S>, at: usize) -> Result<Vec<Row>, Error>
    requires { at < 16 }
    ensures told { HasCleanDisk (state S.Store conn.new)
        → IfOk result
        (λ rows. Shows (state S.Store conn.old).now at rows.items) }
    ensures word { HasCleanDisk (state S.Store conn.new)
        → IfErr result (IsErrorOf (state S.Store conn.old).now at) }
    ensures rests { HasCleanDisk (state S.Store conn.new) → IsSettled (state S.Store conn.old)
        → Rests (state S.Store conn.old) (state S.Store conn.new) }
    ensures works { OnOk result (HasCleanDisk (state S.Store conn.new)
        → IsTrue (state S.Store conn.new).is_open) }
    ensures outside { conn.old.in_transaction ≡ false → conn.new.in_transaction ≡ false }
    ensures survives { Survives (state S.Store conn.old) (state S.Store conn.new) (λ _. ⊥) }
{
    conn.query_all(question(at), &[])
}

/// The rows of so many tables.
///
/// # Errors
///
/// Those of the questions, and `OutOfMemory`.
pub fn ask_tables<S: Alter>(
    alloc: Global,
    conn: &mut Connection<S>,
    count: usize,
) -> Result<Vec<Answer>, Error>
    requires { count ≤ 16 }
    ensures told { HasCleanDisk (state S.Store conn.new) → IsSettled (state S.Store conn.old)
        → IfOk result (λ answers. AreAnswers count (state S.Store conn.old).now answers.items) }
    ensures long { IfOk result (λ answers. length answers.items ≡ count) }
    ensures works { OnOk result (HasCleanDisk (state S.Store conn.new) → 0 < count
        → IsTrue (state S.Store conn.new).is_open) }
    ensures rests { HasCleanDisk (state S.Store conn.new) → IsSettled (state S.Store conn.old)
        → Rests (state S.Store conn.old) (state S.Store conn.new) }
    ensures outside { conn.old.in_transaction ≡ false → conn.new.in_transaction ≡ false }
    ensures survives { Survives (state S.Store conn.old) (state S.Store conn.new) (λ _. ⊥) }
{
    let mut answers = Vec::new(alloc);
    for at in 0..count {
        let rows = ask(conn, at)?;
        answers.push(Answer { rows })?;
    }
    Ok(answers)
}

/// Whether a table has these rows.
///
/// # Errors
///
/// Those of the question.
fn has_rows<S: Alter>(tx: &mut Transaction<'_, S>, at: usize, rows: &[Row]) -> Result<bool, Error>
    requires { at < 16 }
    ensures same_reference { tx.new.conn.ghost_name ≡ tx.old.conn.ghost_name }
    ensures stays { HasCleanDisk (state S.Store tx.new.conn.now) → OnOk result
        ((state S.Store tx.new.conn.now).now ≡ (state S.Store tx.old.conn.now).now) }
    ensures same { HasCleanDisk (state S.Store tx.new.conn.now)
        → IfOk result (λ yes. IsTrue yes → Shows (state S.Store tx.old.conn.now).now at rows.now) }
    ensures quiet { IsQuiet (state S.Store tx.old.conn.now) (state S.Store tx.new.conn.now) }
{
    let found = tx.query_all(question(at), &[])?;
    Ok(are_same(&found, rows))
}

/// Whether the tables have the rows that were answered.
///
/// # Errors
///
/// Those of the questions.
pub fn have_rows<S: Alter>(tx: &mut Transaction<'_, S>, answers: &[Answer]) -> Result<bool, Error>
    requires { length answers.now ≤ 16 }
    ensures same_reference { tx.new.conn.ghost_name ≡ tx.old.conn.ghost_name }
    ensures same { HasCleanDisk (state S.Store tx.new.conn.now)
        → IfOk result (λ yes. IsTrue yes
        → AreAnswers (length answers.now) (state S.Store tx.new.conn.now).now answers.now) }
    ensures quiet { IsQuiet (state S.Store tx.old.conn.now) (state S.Store tx.new.conn.now) }
{
    for at in 0..answers.len() {
        if !has_rows(tx, at, &answers[at].rows)? {
            return Ok(false);
        }
    }
    Ok(true)
}
