//! The corrections, as they are found.

ghost use Rattle.std.specs.Prelude.{◌≡◌, true, map};
ghost use Rattle.std.specs.List.{list_all};
ghost use Rattle.goo_tables_rows.specs.Rows.{correction_in};
ghost use Rattle.goo_core_shelf.specs.Shelf.{Looks};
ghost use Rattle.goo_spec_tables.specs.Readable.{is_correction};
ghost use Rattle.goo_spec_tables.specs.Records.{correction_of};
ghost use Rattle.goo_store_values.specs.Passing.{Accepts, Passes};
ghost use Rattle.goo_store.specs.Seen.{Blames, seen_by};

use crate::sql_shelf::SqlShelf;
use goo_core_shelf::correct_record::CorrectRecord;
use goo_store_rules::corrects::corrects_in;
use goo_store_values::noting::note_fault;
use goo_store_values::statement_fault::StatementFault;
use goo_tables::correction::all_corrections;
use goo_tables_rows::correction::CorrectionRow;
use goo_types::fault::Fault;
use sqlite::{Alter, Error};
use std::alloc::Global;

/// The corrections, in the order in which they came.
pub fn read_all(
    alloc: Global,
    found: Result<Vec<CorrectionRow>, Error>,
) -> Result<Vec<CorrectRecord>, StatementFault>
    ensures value { Passes found result
        (λ rows corrections. corrections.items ≡ map correction_of (map correction_in rows.items)) }
    ensures accepts { Accepts found result
        (λ rows. list_all (λ row. is_correction (correction_in row)) rows.items ≡ true) }
{
    match corrects_in(alloc, &found?)? {
        Some(corrections) => Ok(corrections),
        None => Err(StatementFault::Refused),
    }
}

impl<S: Alter> SqlShelf<S> {
    /// The accepted corrections, in the order in which they came.
    pub(crate) fn corrections(&mut self, alloc: Global) -> Result<Vec<CorrectRecord>, Fault>
        ensures looks { Looks (seen_by self.old) (seen_by self.new) result
            (λ corrections. corrections.items ≡ (seen_by self.old).state.corrections) }
        ensures store { Blames self.old self.new result }
    {
        if self.refused {
            return Err(Fault::Store);
        }
        let found = all_corrections(alloc, &mut self.conn);
        self.cache.answered = found.is_ok();
        note_fault(read_all(alloc, found), &mut self.refused)
    }
}
