//! The tables taken away and made anew, inside a transaction.

ghost use Rattle.std.specs.Prelude.{◌≡◌, ◌<◌, ◌≤◌, length};
ghost use Rattle.sqlite.specs.Held.{state};
ghost use Rattle.goo_store_anew.specs.Quiet.{IsQuiet};

use crate::answers::Answer;
use crate::texts::{insertion, width};
use goo_tables::create::create_tables;
use goo_tables_rows::put::put;
use sqlite::{Alter, Error, Row, Transaction};
use std::alloc::Global;

/// Takes away all tables of a registry with their indexes, those that others name first.
const REMOVALS: &str =
    "DROP TABLE IF EXISTS lot_carrier; DROP TABLE IF EXISTS device_carrier; DROP TABLE IF EXISTS correction; DROP TABLE IF EXISTS notice_in; DROP TABLE IF EXISTS notice_out; DROP TABLE IF EXISTS withdrawal; DROP TABLE IF EXISTS cancellation; DROP TABLE IF EXISTS receipt; DROP TABLE IF EXISTS peer; DROP TABLE IF EXISTS piece; DROP TABLE IF EXISTS lot; DROP TABLE IF EXISTS declaration; DROP TABLE IF EXISTS device; DROP TABLE IF EXISTS account; DROP TABLE IF EXISTS holder; DROP TABLE IF EXISTS meta";

/// Takes away what version 2 has beside the tables of version 1.
const LATER_REMOVALS: &str =
    "DROP TABLE lot_carrier; DROP TABLE device_carrier; DROP TABLE correction";

/// How many tables a registry has.
const ALL: usize = 16;

/// Runs statements in turn.
fn run<S: Alter>(tx: &mut Transaction<'_, S>, sql: &str) -> Result<(), Error>
    ensures same_reference { tx.new.conn.ghost_name ≡ tx.old.conn.ghost_name }
    ensures quiet { IsQuiet (state S.Store tx.old.conn.now) (state S.Store tx.new.conn.now) }
{
    tx.execute_batch(sql)
}

/// Makes our tables, each without a row: where it is so many and not all, those of version 1.
fn make<S: Alter>(tx: &mut Transaction<'_, S>, count: usize) -> Result<(), Error>
    ensures same_reference { tx.new.conn.ghost_name ≡ tx.old.conn.ghost_name }
    ensures quiet { IsQuiet (state S.Store tx.old.conn.now) (state S.Store tx.new.conn.now) }
{
    create_tables(tx)?;
    if count < ALL {
        run(tx, LATER_REMOVALS)
    } else {
        Ok(())
    }
}

/// Puts a row into a table of ours.
fn insert<S: Alter>(
    alloc: Global,
    tx: &mut Transaction<'_, S>,
    at: usize,
    row: &Row,
) -> Result<(), Error>
    requires { at < 16 }
    ensures same_reference { tx.new.conn.ghost_name ≡ tx.old.conn.ghost_name }
    ensures quiet { IsQuiet (state S.Store tx.old.conn.now) (state S.Store tx.new.conn.now) }
{
    let mut values = Vec::new(alloc);
    for place in 0..width(at) {
        values.push(row.get_ref(place)?)?;
    }
    put(tx, insertion(at), &values)?;
    Ok(())
}

/// Puts rows into a table of ours.
fn insert_all<S: Alter>(
    alloc: Global,
    tx: &mut Transaction<'_, S>,
    at: usize,
    rows: &[Row],
) -> Result<(), Error>
    requires { at < 16 }
    ensures same_reference { tx.new.conn.ghost_name ≡ tx.old.conn.ghost_name }
    ensures quiet { IsQuiet (state S.Store tx.old.conn.now) (state S.Store tx.new.conn.now) }
{
    for index in 0..rows.len() {
        insert(alloc, tx, at, &rows[index])?;
    }
    Ok(())
}

/// Puts the answered rows into our tables.
fn fill<S: Alter>(
    alloc: Global,
    tx: &mut Transaction<'_, S>,
    answers: &[Answer],
) -> Result<(), Error>
    requires { length answers.now ≤ 16 }
    ensures same_reference { tx.new.conn.ghost_name ≡ tx.old.conn.ghost_name }
    ensures quiet { IsQuiet (state S.Store tx.old.conn.now) (state S.Store tx.new.conn.now) }
{
    for at in 0..answers.len() {
        insert_all(alloc, tx, at, &answers[at].rows)?;
    }
    Ok(())
}

/// Runs what takes away the views, takes all tables of a registry away, makes ours and puts the
/// answered rows there. Nothing is committed.
///
/// # Errors
///
/// The first error of a statement, and `OutOfMemory`.
pub fn rewrite<S: Alter>(
    alloc: Global,
    tx: &mut Transaction<'_, S>,
    views: &str,
    answers: &[Answer],
) -> Result<(), Error>
    requires { length answers.now ≤ 16 }
    ensures same_reference { tx.new.conn.ghost_name ≡ tx.old.conn.ghost_name }
    ensures quiet { IsQuiet (state S.Store tx.old.conn.now) (state S.Store tx.new.conn.now) }
{
    run(tx, views)?;
    run(tx, REMOVALS)?;
    make(tx, answers.len())?;
    fill(alloc, tx, answers)
}
