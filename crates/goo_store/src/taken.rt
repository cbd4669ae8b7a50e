//! What corrections took off each device, and the withdrawals that they made.

ghost use Rattle.std.specs.Prelude.{◌≡◌, true, map};
ghost use Rattle.std.specs.List.{list_all};
ghost use Rattle.goo_core_shelf.specs.Shelf.{Looks};
ghost use Rattle.goo_spec_tables.specs.Readable.{is_correction};
ghost use Rattle.goo_spec_tables.specs.Records.{correction_of};
ghost use Rattle.goo_store_audit.specs.Summing.{AreTakenBy};
ghost use Rattle.goo_store_values.specs.Passing.{Accepts, Passes};
ghost use Rattle.goo_tables_rows.specs.Rows.{correction_in};
ghost use Rattle.goo_store.specs.Seen.{Blames, seen_by};

use crate::corrections::read_all;
use crate::sql_shelf::SqlShelf;
use goo_store_audit::taken::{Taken, taken_by};
use goo_store_values::noting::note_fault;
use goo_store_values::statement_fault::StatementFault;
use goo_tables::correction::all_corrections;
use goo_tables_rows::correction::CorrectionRow;
use goo_types::fault::Fault;
use sqlite::{Alter, Error};
use std::alloc::Global;

/// What the corrections in rows did to devices.
fn read_taken(
    alloc: Global,
    found: Result<Vec<CorrectionRow>, Error>,
) -> Result<Taken, StatementFault>
    ensures value { Passes found result
        (λ rows. AreTakenBy (map correction_of (map correction_in rows.items))) }
    ensures accepts { Accepts found result
        (λ rows. list_all (λ row. is_correction (correction_in row)) rows.items ≡ true) }
{
    let corrections = read_all(alloc, found)?;
    taken_by(alloc, &corrections)
}

impl<S: Alter> SqlShelf<S> {
    /// What all corrections did to devices.
    pub(crate) fn taken(&mut self, alloc: Global) -> Result<Taken, Fault>
        ensures looks { Looks (seen_by self.old) (seen_by self.new) result
            (AreTakenBy (seen_by self.old).state.corrections) }
        ensures store { Blames self.old self.new result }
    {
        if self.refused {
            return Err(Fault::Store);
        }
        let found = all_corrections(alloc, &mut self.conn);
        self.cache.answered = found.is_ok();
        note_fault(read_taken(alloc, found), &mut self.refused)
    }
}
