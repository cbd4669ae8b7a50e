//! A declaration, as it is found.

ghost use Rattle.std.specs.Prelude.{◌≡◌, is_ok, IfOk};
ghost use Rattle.goo_tables_rows.specs.Rows.{declaration_in};
ghost use Rattle.goo_spec_tables.specs.Devices.{declaration_of};
ghost use Rattle.goo_spec_tables.specs.Readable.{is_declaration};

use goo_store_values::statement_fault::StatementFault;
use goo_store_values::{numbers, texts};
use goo_tables_rows::declaration::DeclarationRow;
use goo_types::command::Declare;

/// The declaration that a row states.
pub(crate) fn declaration_in_row(row: &DeclarationRow) -> Result<Declare, StatementFault>
    ensures value { IfOk result (λ x. x ≡ declaration_of (declaration_in row.now)) }
    ensures accepts { is_ok result ≡ is_declaration (declaration_in row.now) }
{
    Ok(Declare {
        device: texts::gsrn(&row.device)?,
        first_day: texts::day(&row.first_day)?,
        last_day: texts::day(&row.last_day)?,
        gross: numbers::wh(row.gross)?,
        aux: numbers::wh(row.aux)?,
    })
}
