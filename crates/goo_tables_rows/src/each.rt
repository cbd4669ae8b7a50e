//! Asking for a whole table: each row is read as it comes, and none is kept but as what it is read
//! as.

ghost use Rattle.std.specs.Prelude.{◌≡◌, ◌++◌, ◌∷◌, [], false, List, IfOk, IfErr};
ghost use Rattle.std.specs.List.{AllZip};
ghost use Rattle.sqlite.specs.Order.{Row as Values};
ghost use Rattle.sqlite.specs.State.{HasCleanDisk, Survives, CommitsShowing};
ghost use Rattle.sqlite.specs.Values.{bound};
ghost use Rattle.sqlite.specs.Held.{state};
ghost use Rattle.goo_tables_rows.specs.Asked.{Gave, IsReadThrough, FailsToGive, AreRead};

use crate::from_row::FromRow;
use sqlite::types::ValueRef;
use sqlite::{Alter, Connection, Error, ErrorCode, Row};
use std::alloc::Global;

/// What was found so far, and in one more row; after an error that error.
fn with_row<T: FromRow + Drop>(
    alloc: Global,
    found: Result<Vec<T>, Error>,
    row: &Row,
) -> Result<Vec<T>, Error>
    ensures { (rows : List Values) → AreRead T.reads T.readable rows found
        → AreRead T.reads T.readable (rows ++ row.now ∷ []) result }
{
    let mut found = found?;
    found.push(T::from_row(alloc, row)?)?;
    Ok(found)
}

/// All rows of the answer of a text that only reads, in memory only as what they are read as.
///
/// # Errors
///
/// Those of the query, and those of reading a row; `OutOfMemory` after `u64::MAX` rows, which no
/// file holds. The database stays as it was.
pub fn ask_each<S: Alter, T: FromRow + Drop>(
    alloc: Global,
    conn: &mut Connection<S>,
    sql: &str,
    params: &[ValueRef<'_>],
) -> Result<Vec<T>, Error>
    ensures read { HasCleanDisk (state S.Store conn.new)
        → IfOk result
        (λ found. Gave sql.now (bound params.now) (state S.Store conn.old)
        (state S.Store conn.new) (λ rows. AllZip T.reads rows found.items)) }
    ensures refused { HasCleanDisk (state S.Store conn.new)
        → IfErr result
        (FailsToGive sql.now (bound params.now) (state S.Store conn.old)
        (state S.Store conn.new) T.readable) }
    ensures ran { HasCleanDisk (state S.Store conn.new)
        → IsReadThrough sql.now (bound params.now) (state S.Store conn.old)
        (state S.Store conn.new) }
    ensures outside { conn.old.in_transaction ≡ false → conn.new.in_transaction ≡ false }
    ensures survives { Survives (state S.Store conn.old) (state S.Store conn.new)
        (CommitsShowing sql.now (bound params.now) (state S.Store conn.old)) }
{
    let mut found = Ok(Vec::new(alloc));
    let mut rows = conn.query(sql, params)?;
    'rows: for _ in 0..u64::MAX {
        let Some(row) = rows.next()? else {
            return found;
        };
        found = with_row(alloc, found, row);
    }
    Err(Error::SqliteFailure(ErrorCode::OutOfMemory))
}
