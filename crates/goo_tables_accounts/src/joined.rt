//! The statements on `piece` joined with `lot`, and with the lot's carrier.

ghost use Rattle.std.specs.Prelude.{◌≡◌, All, ◌&&◌, ◌<◌, ◌^◌, Some, false, pos, map, filter, find};
ghost use Rattle.std.specs.Prelude.{reverse, take, nat_le, nat_lt, option_map};
ghost use Rattle.std.specs.Ordering.{int_eq};
ghost use Rattle.sqlite.specs.Held.{state};
ghost use Rattle.sqlite_typed.specs.Tests.{bytes_lt, both_and};
ghost use Rattle.goo_tables_rows.specs.Readable.{joined_readable};
ghost use Rattle.goo_tables_rows.specs.Refused.{FailsByFault, FailsOnlyByFault};
ghost use Rattle.goo_tables_rows.specs.Stands.{Looks};
ghost use Rattle.goo_tables_rows.specs.Beside.{joined_in, joined_columns, pieces_beside};

use goo_tables_rows::ask::{ask_all, ask_first};
use goo_tables_rows::joined::JoinedRow;
use goo_tables_rows::values::{number, small, text};
use sqlite::{Alter, Connection, Error};
use std::alloc::Global;

/// The pieces that begin at `low` or later and at `high` or earlier, by their first numbers, each
/// beside its lot.
///
/// A piece that begins before `low` may still reach into the range: `piece_before` finds it.
///
/// # Errors
///
/// On the tables of a registry: `SqliteFailure` where memory was refused, the disk failed or an
/// earlier failure shut the connection, and an error of reading where a row can't be read. The
/// database stays as it was.
pub fn pieces_beginning<S: Alter>(
    alloc: Global,
    conn: &mut Connection<S>,
    low: u64,
    high: u64,
) -> Result<Vec<JoinedRow>, Error>
    requires { (low < 2 ^ 63) × (high < 2 ^ 63) }
    ensures looks { Looks (state S.Store conn.old) (state S.Store conn.new) result
        (λ t found. map joined_in found.items
        ≡ filter (λ a. nat_le low a.0.first && nat_le a.0.first high) (pieces_beside t)) }
    ensures readable { FailsOnlyByFault (state S.Store conn.old) (state S.Store conn.new) result
        (λ t. All joined_readable (map joined_columns (pieces_beside t))) }
    ensures refused { FailsByFault (state S.Store conn.old) (state S.Store conn.new) result }
    ensures outside { conn.old.in_transaction ≡ false → conn.new.in_transaction ≡ false }
{
    ask_all(
        alloc,
        conn,
        "SELECT p.first, p.last, p.lot, p.kind, p.account, p.act, l.id, l.origin, l.device, l.country, l.site, l.tech, l.source, l.capacity_w, l.commissioned, l.support, l.first_day, l.last_day, l.expires_on, l.issued_on, c.carrier FROM piece AS p JOIN lot AS l ON l.id = p.lot LEFT JOIN lot_carrier AS c ON c.lot = l.id WHERE p.first >= ?1 AND p.first <= ?2 ORDER BY p.first",
        &[number(low), number(high)],
    )
}

/// The last piece that begins before `low`, beside its lot. Where no two pieces overlap, it alone
/// can reach from there into a range that begins at `low`.
///
/// # Errors
///
/// On the tables of a registry: `SqliteFailure` where memory was refused, the disk failed or an
/// earlier failure shut the connection, and an error of reading where a row can't be read. The
/// database stays as it was.
pub fn piece_before<S: Alter>(
    alloc: Global,
    conn: &mut Connection<S>,
    low: u64,
) -> Result<Option<JoinedRow>, Error>
    requires { low < 2 ^ 63 }
    ensures looks { Looks (state S.Store conn.old) (state S.Store conn.new) result
        (λ t found. option_map joined_in found
        ≡ find (λ a. nat_lt a.0.first low) (reverse (pieces_beside t))) }
    ensures readable { FailsOnlyByFault (state S.Store conn.old) (state S.Store conn.new) result
        (λ t. All joined_readable (map joined_columns (pieces_beside t))) }
    ensures refused { FailsByFault (state S.Store conn.old) (state S.Store conn.new) result }
    ensures outside { conn.old.in_transaction ≡ false → conn.new.in_transaction ≡ false }
{
    ask_first(
        alloc,
        conn,
        "SELECT p.first, p.last, p.lot, p.kind, p.account, p.act, l.id, l.origin, l.device, l.country, l.site, l.tech, l.source, l.capacity_w, l.commissioned, l.support, l.first_day, l.last_day, l.expires_on, l.issued_on, c.carrier FROM piece AS p JOIN lot AS l ON l.id = p.lot LEFT JOIN lot_carrier AS c ON c.lot = l.id WHERE p.first < ?1 ORDER BY p.first DESC LIMIT 1",
        &[number(low)],
    )
}

/// The pieces that name the account, by their first numbers, each beside its lot.
///
/// # Errors
///
/// On the tables of a registry: `SqliteFailure` where memory was refused, the disk failed or an
/// earlier failure shut the connection, and an error of reading where a row can't be read. The
/// database stays as it was.
pub fn pieces_of_account<S: Alter>(
    alloc: Global,
    conn: &mut Connection<S>,
    account: u32,
) -> Result<Vec<JoinedRow>, Error>
    ensures looks { Looks (state S.Store conn.old) (state S.Store conn.new) result
        (λ t found. map joined_in found.items
        ≡ filter (λ a. int_eq (pos a.0.account) (pos account)) (pieces_beside t)) }
    ensures readable { FailsOnlyByFault (state S.Store conn.old) (state S.Store conn.new) result
        (λ t. All joined_readable (map joined_columns (pieces_beside t))) }
    ensures refused { FailsByFault (state S.Store conn.old) (state S.Store conn.new) result }
    ensures outside { conn.old.in_transaction ≡ false → conn.new.in_transaction ≡ false }
{
    ask_all(
        alloc,
        conn,
        "SELECT p.first, p.last, p.lot, p.kind, p.account, p.act, l.id, l.origin, l.device, l.country, l.site, l.tech, l.source, l.capacity_w, l.commissioned, l.support, l.first_day, l.last_day, l.expires_on, l.issued_on, c.carrier FROM piece AS p JOIN lot AS l ON l.id = p.lot LEFT JOIN lot_carrier AS c ON c.lot = l.id WHERE p.account = ?1 ORDER BY p.first",
        &[small(account)],
    )
}

/// The first piece that names the account and begins above `after`, beside its lot.
///
/// A piece that begins at `after` or below and reaches above it is the one that `piece_before`
/// finds.
///
/// # Errors
///
/// On the tables of a registry: `SqliteFailure` where memory was refused, the disk failed or an
/// earlier failure shut the connection, and an error of reading where a row can't be read. The
/// database stays as it was.
pub fn next_of_account<S: Alter>(
    alloc: Global,
    conn: &mut Connection<S>,
    account: u32,
    after: u64,
) -> Result<Option<JoinedRow>, Error>
    requires { after < 2 ^ 63 }
    ensures looks { Looks (state S.Store conn.old) (state S.Store conn.new) result
        (λ t found. option_map joined_in found
        ≡ find (λ a. int_eq (pos a.0.account) (pos account) && nat_lt after a.0.first)
        (pieces_beside t)) }
    ensures readable { FailsOnlyByFault (state S.Store conn.old) (state S.Store conn.new) result
        (λ t. All joined_readable (map joined_columns (pieces_beside t))) }
    ensures refused { FailsByFault (state S.Store conn.old) (state S.Store conn.new) result }
    ensures outside { conn.old.in_transaction ≡ false → conn.new.in_transaction ≡ false }
{
    ask_first(
        alloc,
        conn,
        "SELECT p.first, p.last, p.lot, p.kind, p.account, p.act, l.id, l.origin, l.device, l.country, l.site, l.tech, l.source, l.capacity_w, l.commissioned, l.support, l.first_day, l.last_day, l.expires_on, l.issued_on, c.carrier FROM piece AS p JOIN lot AS l ON l.id = p.lot LEFT JOIN lot_carrier AS c ON c.lot = l.id WHERE p.account = ?1 AND p.first > ?2 ORDER BY p.first LIMIT 1",
        &[small(account), number(after)],
    )
}

/// The first 256 pieces that name the account and begin above `after`, or all of them where there
/// are fewer, each beside its lot.
///
/// # Errors
///
/// On the tables of a registry: `SqliteFailure` where memory was refused, the disk failed or an
/// earlier failure shut the connection, and an error of reading where a row can't be read. The
/// database stays as it was.
pub fn page_of_account<S: Alter>(
    alloc: Global,
    conn: &mut Connection<S>,
    account: u32,
    after: u64,
) -> Result<Vec<JoinedRow>, Error>
    requires { after < 2 ^ 63 }
    ensures looks { Looks (state S.Store conn.old) (state S.Store conn.new) result
        (λ t found. map joined_in found.items
        ≡ take 256
        (filter (λ a. int_eq (pos a.0.account) (pos account) && nat_lt after a.0.first)
        (pieces_beside t))) }
    ensures readable { FailsOnlyByFault (state S.Store conn.old) (state S.Store conn.new) result
        (λ t. All joined_readable (map joined_columns (pieces_beside t))) }
    ensures refused { FailsByFault (state S.Store conn.old) (state S.Store conn.new) result }
    ensures outside { conn.old.in_transaction ≡ false → conn.new.in_transaction ≡ false }
{
    ask_all(
        alloc,
        conn,
        "SELECT p.first, p.last, p.lot, p.kind, p.account, p.act, l.id, l.origin, l.device, l.country, l.site, l.tech, l.source, l.capacity_w, l.commissioned, l.support, l.first_day, l.last_day, l.expires_on, l.issued_on, c.carrier FROM piece AS p JOIN lot AS l ON l.id = p.lot LEFT JOIN lot_carrier AS c ON c.lot = l.id WHERE p.account = ?1 AND p.first > ?2 ORDER BY p.first LIMIT 256",
        &[small(account), number(after)],
    )
}

/// The first held piece that begins above `after` and whose lot expires before the day, beside its
/// lot. The day is written as `dddd-dd-dd`.
///
/// # Errors
///
/// On the tables of a registry: `SqliteFailure` where memory was refused, the disk failed or an
/// earlier failure shut the connection, and an error of reading where a row can't be read. The
/// database stays as it was.
pub fn next_expiring<S: Alter>(
    alloc: Global,
    conn: &mut Connection<S>,
    day: &str,
    after: u64,
) -> Result<Option<JoinedRow>, Error>
    requires { after < 2 ^ 63 }
    ensures looks { Looks (state S.Store conn.old) (state S.Store conn.new) result
        (λ t found. option_map joined_in found
        ≡ find (λ a. int_eq (pos a.0.kind) (pos 1) &&
        (nat_lt after a.0.first && both_and bytes_lt a.1.expires_on (Some day.now)))
        (pieces_beside t)) }
    ensures readable { FailsOnlyByFault (state S.Store conn.old) (state S.Store conn.new) result
        (λ t. All joined_readable (map joined_columns (pieces_beside t))) }
    ensures refused { FailsByFault (state S.Store conn.old) (state S.Store conn.new) result }
    ensures outside { conn.old.in_transaction ≡ false → conn.new.in_transaction ≡ false }
{
    ask_first(
        alloc,
        conn,
        "SELECT p.first, p.last, p.lot, p.kind, p.account, p.act, l.id, l.origin, l.device, l.country, l.site, l.tech, l.source, l.capacity_w, l.commissioned, l.support, l.first_day, l.last_day, l.expires_on, l.issued_on, c.carrier FROM piece AS p JOIN lot AS l ON l.id = p.lot LEFT JOIN lot_carrier AS c ON c.lot = l.id WHERE p.kind = 1 AND p.first > ?2 AND l.expires_on < ?1 ORDER BY p.first LIMIT 1",
        &[text(day), number(after)],
    )
}
