//! Other registries, as they are found.

ghost use Rattle.std.specs.Prelude.{◌≡◌, is_some, ⊤};
ghost use Rattle.goo_store_values.specs.Passing.{Accepts, Passes};

use goo_store_values::statement_fault::StatementFault;
use goo_tables_rows::peer::PeerRow;
use sqlite::Error;

/// Whether there is a row.
pub(crate) fn is_there(found: Result<Option<PeerRow>, Error>) -> Result<bool, StatementFault>
    ensures value { Passes found result (λ row there. there ≡ is_some row) }
    ensures accepts { Accepts found result (λ _. ⊤) }
{
    Ok(found?.is_some())
}
