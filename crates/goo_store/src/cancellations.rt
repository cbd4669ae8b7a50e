//! Records of cancellations, as they are found.

ghost use Rattle.std.specs.Prelude.{◌≡◌, IfSome, IsTrue, option_map};
ghost use Rattle.goo_tables_rows.specs.Rows.{cancellation_in};
ghost use Rattle.goo_spec_tables.specs.Records.{cancellation_of};
ghost use Rattle.goo_spec_tables.specs.Readable.{is_cancellation};
ghost use Rattle.goo_store_values.specs.Passing.{Accepts, Passes};

use goo_core_shelf::cancel_record::CancelRecord;
use goo_store_values::statement_fault::StatementFault;
use goo_store_values::{numbers, texts};
use goo_tables_rows::cancellation::CancellationRow;
use goo_types::command::Cancel;
use sqlite::Error;

/// The record in its row.
pub(crate) fn read_record(
    found: Result<Option<CancellationRow>, Error>,
) -> Result<Option<CancelRecord>, StatementFault>
    ensures value { Passes found result
        (λ row kept. kept ≡ option_map cancellation_of (option_map cancellation_in row)) }
    ensures accepts { Accepts found result
        (λ row. IfSome row (λ r. IsTrue (is_cancellation (cancellation_in r)))) }
{
    let Some(row) = found? else {
        return Ok(None);
    };
    let cancellation = Cancel {
        account: numbers::account_no(row.account)?,
        range: numbers::range(row.first, row.last)?,
        beneficiary: texts::name(&row.beneficiary)?,
        use_first: texts::day(&row.use_first)?,
        use_last: texts::day(&row.use_last)?,
    };
    Ok(Some(CancelRecord::of(&cancellation, texts::day(&row.day)?)))
}
