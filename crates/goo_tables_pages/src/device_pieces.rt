//! The statement on `piece` beside the device of each piece's lot, a page at a time.

ghost use Rattle.std.specs.Prelude.{◌≡◌, All, ◌<◌, ◌^◌, false, map, filter, take, nat_le};
ghost use Rattle.sqlite.specs.Held.{state};
ghost use Rattle.goo_tables_rows.specs.Refused.{FailsByFault, FailsOnlyByFault};
ghost use Rattle.goo_tables_rows.specs.Stands.{Looks};
ghost use Rattle.goo_tables_rows.specs.Beside.{pieces_beside};
ghost use Rattle.goo_tables_pages.specs.DevicePieces.{of_device, device_piece_in};
ghost use Rattle.goo_tables_pages.specs.DevicePieces.{device_piece_columns, device_piece_readable};

use goo_tables_rows::ask::ask_all;
use goo_tables_rows::from_row::FromRow;
use goo_tables_rows::piece::PieceRow;
use goo_tables_rows::values::number;
use sqlite::{Alter, Connection, Error, Row};
use std::alloc::Global;

/// A row of `piece` beside the device of its lot.
#[derive(Drop)]
pub struct DevicePieceRow {
    /// The row of `piece`.
    pub piece: PieceRow,
    /// The device of its lot.
    pub device: String,
}

impl FromRow for DevicePieceRow {
    ghost use Rattle.goo_tables_pages.specs.DevicePieces.{device_piece_reads};
    ghost use Rattle.goo_tables_pages.specs.DevicePieces.{device_piece_readable};

    ghost reads = { device_piece_reads };

    ghost readable = { device_piece_readable };

    fn from_row(alloc: Global, row: &Row) -> Result<DevicePieceRow, Error> {
        Ok(DevicePieceRow {
            piece: PieceRow::from_row(alloc, row)?,
            device: row.get(6)?,
        })
    }
}

/// The first 256 pieces that begin at `low` or later, or all of them where there are fewer, each
/// beside the device of its lot.
///
/// # Errors
///
/// On the tables of a registry: `SqliteFailure` where memory was refused, the disk failed or an
/// earlier failure shut the connection, and an error of reading where a row can't be read. The
/// database stays as it was.
pub fn page_of_pieces<S: Alter>(
    alloc: Global,
    conn: &mut Connection<S>,
    low: u64,
) -> Result<Vec<DevicePieceRow>, Error>
    requires { low < 2 ^ 63 }
    ensures looks { Looks (state S.Store conn.old) (state S.Store conn.new) result
        (λ t found. map device_piece_in found.items
        ≡ map of_device (take 256 (filter (λ a. nat_le low a.0.first) (pieces_beside t)))) }
    ensures readable { FailsOnlyByFault (state S.Store conn.old) (state S.Store conn.new) result
        (λ t. All device_piece_readable
        (map (λ a. device_piece_columns (of_device a)) (pieces_beside t))) }
    ensures refused { FailsByFault (state S.Store conn.old) (state S.Store conn.new) result }
    ensures outside { conn.old.in_transaction ≡ false → conn.new.in_transaction ≡ false }
{
    ask_all(
        alloc,
        conn,
        "SELECT p.first, p.last, p.lot, p.kind, p.account, p.act, l.device FROM piece AS p JOIN lot AS l ON l.id = p.lot WHERE p.first >= ?1 ORDER BY p.first LIMIT 256",
        &[number(low)],
    )
}
