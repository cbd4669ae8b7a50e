//! The statement that shows an account's rows of `piece`, a page at a time.

ghost use Rattle.std.specs.Prelude.{◌≡◌, ◌<◌, ◌^◌, ◌&&◌, All, false, filter, map};
ghost use Rattle.std.specs.Prelude.{nat_lt, pos, take};
ghost use Rattle.std.specs.Ordering.{int_eq};
ghost use Rattle.sqlite.specs.Held.{state};
ghost use Rattle.goo_tables_rows.specs.Readable.{piece_readable};
ghost use Rattle.goo_tables_rows.specs.Refused.{FailsByFault, FailsOnlyByFault};
ghost use Rattle.goo_tables_rows.specs.Rows.{piece_columns};
ghost use Rattle.goo_tables_rows.specs.Stands.{Looks};

use goo_tables_rows::ask::ask_all;
use goo_tables_rows::piece::PieceRow;
use goo_tables_rows::values::{number, small};
use sqlite::{Alter, Connection, Error};
use std::alloc::Global;

/// The first 256 pieces that name the account and begin above `after`, or all of them where there
/// are fewer.
///
/// # Errors
///
/// On the tables of a registry: `SqliteFailure` where memory was refused, the disk failed or an
/// earlier failure shut the connection, and an error of reading where a row can't be read. The
/// database stays as it was.
pub fn rows_of_account<S: Alter>(
    alloc: Global,
    conn: &mut Connection<S>,
    account: u32,
    after: u64,
) -> Result<Vec<PieceRow>, Error>
    requires { after < 2 ^ 63 }
    ensures looks { Looks (state S.Store conn.old) (state S.Store conn.new) result
        (λ t found. found.items
        ≡ take 256
        (filter (λ p. int_eq (pos p.account) (pos account) && nat_lt after p.first) t.pieces)) }
    ensures readable { FailsOnlyByFault (state S.Store conn.old) (state S.Store conn.new) result
        (λ t. All piece_readable (map piece_columns t.pieces)) }
    ensures refused { FailsByFault (state S.Store conn.old) (state S.Store conn.new) result }
    ensures outside { conn.old.in_transaction ≡ false → conn.new.in_transaction ≡ false }
{
    ask_all(
        alloc,
        conn,
        "SELECT first, last, lot, kind, account, act FROM piece WHERE account = ?1 AND first > ?2 ORDER BY first LIMIT 256",
        &[small(account), number(after)],
    )
}
