//! The rows of a CSV of declarations.
ghost use Rattle.std.specs.Prelude.{◌≡◌, ◌==◌, length};
ghost use Rattle.csv.specs.Records.{fields_of};
ghost use Rattle.goo_files_csv.specs.Rows.{field_in, declaration_in, request_in};
ghost use Rattle.goo_files_csv.specs.Rows.{has_names as names_test, has_amounts as amounts_test};
ghost use Rattle.goo_files_csv.specs.Rows.{is_header as header_test};

use crate::digits::wh_in;
use csv::ByteRecord;
use goo_types::command::{Command, Declare};
use goo_types::day::Day;
use goo_types::gsrn::Gsrn;
use goo_types::holder_code::HolderCode;
use goo_types::key::Key;
use goo_types::request::Request;

/// The field at a place, which is empty where there is none.
fn field(row: &ByteRecord, at: usize) -> &[u8]
    ensures { result.now ≡ field_in (fields_of row.now) at }
{
    match row.get(at) {
        Some(field) => field,
        None => &[],
    }
}

/// The declaration that a row's fields state, after the key.
#[tactic(auto, unfolding(crate::specs::Rows::declaration_in))]
fn read_declaration(row: &ByteRecord) -> Option<Declare>
    ensures { result ≡ declaration_in (fields_of row.now) }
{
    let device = Gsrn::read(field(row, 1)).ok()?;
    let first_day = Day::read(field(row, 2)).ok()?;
    let last_day = Day::read(field(row, 3)).ok()?;
    let gross = wh_in(field(row, 4))?;
    let aux = wh_in(field(row, 5))?;
    Some(Declare {
        device,
        first_day,
        last_day,
        gross,
        aux,
    })
}

/// The request that a row states: a declaration of the caller, under the row's key. None where the
/// row has not six fields that their readers accept.
#[tactic(auto, unfolding(crate::specs::Rows::request_in))]
pub fn read_row(caller: &HolderCode, row: &ByteRecord) -> Option<Request>
    ensures { result ≡ request_in caller.now (fields_of row.now) }
{
    if row.len() != 6 {
        return None;
    }
    let key = Key::read(field(row, 0)).ok()?;
    let declaration = read_declaration(row)?;
    Some(Request {
        caller: *caller,
        key,
        command: Command::Declare(declaration),
    })
}

/// Whether a record begins with the first three names.
fn has_names(row: &ByteRecord) -> bool
    ensures { result ≡ names_test (fields_of row.now) }
{
    field(row, 0) == b"key".as_slice()
        && field(row, 1) == b"device".as_slice()
        && field(row, 2) == b"first_day".as_slice()
}

/// Whether it goes on with the other three.
fn has_amounts(row: &ByteRecord) -> bool
    ensures { result ≡ amounts_test (fields_of row.now) }
{
    field(row, 3) == b"last_day".as_slice()
        && field(row, 4) == b"gross_wh".as_slice()
        && field(row, 5) == b"aux_wh".as_slice()
}

/// Whether a record is the header of a CSV of declarations.
pub fn is_header(row: &ByteRecord) -> bool
    ensures { result ≡ header_test (fields_of row.now) }
{
    row.len() == 6 && has_names(row) && has_amounts(row)
}
