//! Asking: the rows of an answer, read as values.

ghost use Rattle.std.specs.Prelude.{◌≡◌, ◌⊎◌, false, All, IfOk, IfErr};
ghost use Rattle.std.specs.List.{AllZip};
ghost use Rattle.sqlite.specs.State.{HasCleanDisk, Survives, CommitsShowing, FailsToQuery};
ghost use Rattle.sqlite.specs.Values.{bound};
ghost use Rattle.sqlite.specs.Held.{state};
ghost use Rattle.sqlite.specs.declared.error.Error.{Error as Cause};
ghost use Rattle.goo_tables_rows.specs.Asked.{FirstZip, Answered, IsRead, FailsToAsk};
ghost use Rattle.goo_tables_rows.specs.Readable.{IsUnread};

use crate::from_row::FromRow;
use sqlite::types::ValueRef;
use sqlite::{Alter, Connection, Error, Row};
use std::alloc::Global;

/// Each row, read.
///
/// # Errors
///
/// `OutOfMemory` where memory was refused, or else an error of `Row::get` (`InvalidColumnIndex`,
/// `InvalidColumnType`, `IntegralValueOutOfRange`, `Utf8Error`), which comes only where a row can't
/// be read.
pub fn read_all<T: FromRow + Drop>(alloc: Global, rows: &[Row]) -> Result<Vec<T>, Error>
    ensures reads { IfOk result (λ found. AllZip T.reads rows.now found.items) }
    ensures refused { IfErr result (IsUnread (All T.readable rows.now)) }
{
    let mut found = Vec::new(alloc);
    for row in rows {
        found.push(T::from_row(alloc, row)?)?;
    }
    Ok(found)
}

/// The first row, read, if there is one.
///
/// # Errors
///
/// `OutOfMemory` where memory was refused, or else an error of `Row::get` (`InvalidColumnIndex`,
/// `InvalidColumnType`, `IntegralValueOutOfRange`, `Utf8Error`), which comes only where a row can't
/// be read.
pub fn read_first<T: FromRow + Drop>(alloc: Global, rows: &[Row]) -> Result<Option<T>, Error>
    ensures reads { IfOk result (λ found. FirstZip T.reads rows.now found) }
    ensures refused { IfErr result (IsUnread (All T.readable rows.now)) }
{
    match rows.first() {
        Some(row) => Ok(Some(T::from_row(alloc, row)?)),
        None => Ok(None),
    }
}

/// All rows of the answer.
///
/// # Errors
///
/// Those of the query, and those of reading a row, which both leave the database as it was.
pub fn ask_all<S: Alter, T: FromRow + Drop>(
    alloc: Global,
    conn: &mut Connection<S>,
    sql: &str,
    params: &[ValueRef<'_>],
) -> Result<Vec<T>, Error>
    ensures read { HasCleanDisk (state S.Store conn.new)
        → IfOk result
        (λ found. Answered sql.now (bound params.now) (state S.Store conn.old)
        (state S.Store conn.new) (λ rows. AllZip T.reads rows found.items)) }
    ensures refused { HasCleanDisk (state S.Store conn.new)
        → IfErr result
        (FailsToAsk sql.now (bound params.now) (state S.Store conn.old)
        (state S.Store conn.new) T.readable) }
    ensures ran { HasCleanDisk (state S.Store conn.new)
        → IsRead sql.now (bound params.now) (state S.Store conn.old) (state S.Store conn.new) }
    ensures outside { conn.old.in_transaction ≡ false → conn.new.in_transaction ≡ false }
    ensures survives { Survives (state S.Store conn.old) (state S.Store conn.new)
        (CommitsShowing sql.now (bound params.now) (state S.Store conn.old)) }
{
    let rows = conn.query_all(sql, params)?;
    read_all(alloc, &rows)
}

/// The first row of the answer, if it has one.
///
/// # Errors
///
/// Those of the query, and those of reading a row, which both leave the database as it was.
pub fn ask_first<S: Alter, T: FromRow + Drop>(
    alloc: Global,
    conn: &mut Connection<S>,
    sql: &str,
    params: &[ValueRef<'_>],
) -> Result<Option<T>, Error>
    ensures read { HasCleanDisk (state S.Store conn.new)
        → IfOk result
        (λ found. Answered sql.now (bound params.now) (state S.Store conn.old)
        (state S.Store conn.new) (λ rows. FirstZip T.reads rows found)) }
    ensures refused { HasCleanDisk (state S.Store conn.new)
        → IfErr result
        (FailsToAsk sql.now (bound params.now) (state S.Store conn.old)
        (state S.Store conn.new) T.readable) }
    ensures ran { HasCleanDisk (state S.Store conn.new)
        → IsRead sql.now (bound params.now) (state S.Store conn.old) (state S.Store conn.new) }
    ensures outside { conn.old.in_transaction ≡ false → conn.new.in_transaction ≡ false }
    ensures survives { Survives (state S.Store conn.old) (state S.Store conn.new)
        (CommitsShowing sql.now (bound params.now) (state S.Store conn.old)) }
{
    let rows = conn.query_all(sql, params)?;
    read_first(alloc, &rows)
}
