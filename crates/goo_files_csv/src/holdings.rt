//! The holdings of an account as CSV.
ghost use Rattle.std.specs.Prelude.{◌≡◌, ◌≤◌, IfOk, map};
ghost use Rattle.csv.specs.Writing.{default_writer, row_text};
ghost use Rattle.goo_files_csv.specs.Holdings.{header_row, holding_row as row_of};

use csv::{Error, WriterBuilder};
use goo_types::piece::Piece;
use itoa::Buffer;
use std::alloc::Global;

/// There was no room for a row.
#[derive(Debug, Clone, Copy, PartialEq, Eq, Drop)]
pub struct NoRoom;

/// The text of one record of the default writer.
fn row_bytes(alloc: Global, fields: &[&[u8]]) -> Result<Vec<u8>, Error>
    ensures { IfOk result
        (λ row. row.items ≡ row_text default_writer (map (λ field. field.now) fields.now)) }
{
    let mut writer = WriterBuilder::new().from_writer(Vec::new(alloc));
    writer.write_fields(fields)?;
    match writer.into_inner() {
        Ok(row) => Ok(row),
        Err(fault) => Err(fault.into_error()),
    }
}

/// The text of one record of the default writer. It is written to a list, which fails only for want
/// of memory.
fn row(alloc: Global, fields: &[&[u8]]) -> Result<Vec<u8>, NoRoom>
    ensures { IfOk result
        (λ row. row.items ≡ row_text default_writer (map (λ field. field.now) fields.now)) }
{
    match row_bytes(alloc, fields) {
        Ok(row) => Ok(row),
        Err(_) => Err(NoRoom),
    }
}

/// The row of the names of the fields.
///
/// # Errors
///
/// `NoRoom` where memory for the row was refused.
#[tactic(auto, unfolding(crate::specs::Holdings::header_row))]
pub fn holdings_header(alloc: Global) -> Result<Vec<u8>, NoRoom>
    ensures { IfOk result (λ row. row.items ≡ header_row) }
{
    let fields: [&[u8]; 15] = [
        b"first",
        b"last",
        b"count",
        b"device",
        b"country",
        b"site",
        b"tech",
        b"source",
        b"capacity_w",
        b"commissioned",
        b"support",
        b"first_day",
        b"last_day",
        b"issued_on",
        b"carrier",
    ];
    row(alloc, &fields)
}

/// The row of a run.
///
/// # Errors
///
/// `NoRoom` where memory for the row was refused.
#[tactic(auto, unfolding(crate::specs::Holdings::holding_row))]
pub fn holding_row(alloc: Global, run: &Piece) -> Result<Vec<u8>, NoRoom>
    ensures { IfOk result (λ row. row.items ≡ row_of run.now) }
{
    let lot = &run.lot;
    let first = run.first.write();
    let last = run.last.write();
    let mut counted = Buffer::new();
    let count = counted.format(run.last.get().saturating_sub(run.first.get()) + 1);
    let device = lot.device();
    let country = lot.country();
    let site = lot.site();
    let tech = lot.tech();
    let source = lot.source();
    let mut measured = Buffer::new();
    let capacity = measured.format(lot.capacity_w().get());
    let commissioned = lot.commissioned().write();
    let first_day = lot.first_day().write();
    let last_day = lot.last_day().write();
    let issued_on = lot.issued_on().write();
    let fields: [&[u8]; 15] = [
        &first,
        &last,
        count.as_bytes(),
        device.text().as_bytes(),
        country.text().as_bytes(),
        site.text().as_bytes(),
        tech.text().as_bytes(),
        source.text().as_bytes(),
        capacity.as_bytes(),
        &commissioned,
        lot.support().word().as_bytes(),
        &first_day,
        &last_day,
        &issued_on,
        lot.carrier().word().as_bytes(),
    ];
    row(alloc, &fields)
}
