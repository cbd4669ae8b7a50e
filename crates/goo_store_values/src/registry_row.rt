//! The registry's row, as it was found.

ghost use Rattle.std.specs.Prelude.{◌≡◌, Some, None, IfErr, IfOk, IsSome};
ghost use Rattle.goo_store_values.specs.Passing.{Accepts, Passes};
ghost use Rattle.goo_store_values.specs.declared.statement_fault.StatementFault.TheVariants.{Refused};

use crate::statement_fault::StatementFault;
use goo_tables_rows::meta::MetaRow;
use sqlite::Error;

/// The row, which is there.
///
/// # Errors
///
/// `Refused` where it is not, and the errors of the statement.
pub fn row(found: Result<Option<MetaRow>, Error>) -> Result<MetaRow, StatementFault>
    ensures value { Passes found result (λ found row. found ≡ Some row) }
    ensures accepts { Accepts found result (λ row. IsSome row) }
    ensures missing { IfOk found (λ row. row ≡ None → IfErr result (λ cause. cause ≡ Refused)) }
{
    found?.ok_or(StatementFault::Refused)
}
