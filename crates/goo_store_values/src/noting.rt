//! What a caller is told of a look-up, or of a change.

ghost use Rattle.goo_store_values.specs.Telling.{Tells};

use crate::statement_fault::StatementFault;
use goo_types::fault::Fault;

/// The answer to the caller. All but want of memory raises the flag, for good.
pub fn note_fault<T: Drop>(read: Result<T, StatementFault>, refused: &mut bool) -> Result<T, Fault>
    ensures { Tells read result refused.old refused.new }
{
    match read {
        Ok(found) => Ok(found),
        Err(StatementFault::Memory) => Err(Fault::Memory),
        Err(StatementFault::Refused) => {
            *refused = true;
            Err(Fault::Store)
        }
    }
}
