//! What can still be taken off a declaration.

ghost use Rattle.std.specs.Prelude.{◌≡◌, IfSome, IsTrue, option_map};
ghost use Rattle.goo_spec.specs.Correct.{correctable, left_of};
ghost use Rattle.goo_tables_rows.specs.Rows.{declaration_in};
ghost use Rattle.goo_core_shelf.specs.Shelf.{Looks};
ghost use Rattle.goo_spec_tables.specs.Devices.{declaration_of};
ghost use Rattle.goo_spec_tables.specs.Readable.{is_declaration};
ghost use Rattle.goo_store_values.specs.Passing.{Accepts, Passes};
ghost use Rattle.goo_store.specs.Seen.{Blames, seen_by};

use crate::declarations::declaration_in_row;
use crate::lowering::left_off;
use crate::sql_shelf::SqlShelf;
use goo_core_shelf::correct_record::CorrectRecord;
use goo_store_values::noting::note_fault;
use goo_store_values::statement_fault::StatementFault;
use goo_tables::declaration::find_declaration;
use goo_tables_rows::declaration::DeclarationRow;
use goo_types::day::Day;
use goo_types::fault::Fault;
use goo_types::gsrn::Gsrn;
use goo_types::wh::Wh;
use sqlite::{Alter, Error};

/// What these corrections leave of the declaration that is found.
fn read_left(
    found: Result<Option<DeclarationRow>, Error>,
    corrections: &[CorrectRecord],
) -> Result<Option<Wh>, StatementFault>
    ensures value { Passes found result
        (λ row left. left
        ≡ left_of corrections.now (option_map declaration_of (option_map declaration_in row))) }
    ensures accepts { Accepts found result
        (λ row. IfSome row (λ r. IsTrue (is_declaration (declaration_in r)))) }
{
    match found? {
        Some(row) => Ok(Some(left_off(corrections, &declaration_in_row(&row)?))),
        None => Ok(None),
    }
}

impl<S: Alter> SqlShelf<S> {
    /// What can still be taken off a device's declaration that begins on a day, where these are the
    /// corrections.
    pub(crate) fn left_beside(
        &mut self,
        corrections: &[CorrectRecord],
        device: &Gsrn,
        first_day: Day,
    ) -> Result<Option<Wh>, Fault>
        ensures looks { Looks (seen_by self.old) (seen_by self.new) result
            (λ left. corrections.now ≡ (seen_by self.old).state.corrections
            → left ≡ correctable (seen_by self.old).state device.now first_day) }
        ensures store { Blames self.old self.new result }
    {
        if self.refused {
            return Err(Fault::Store);
        }
        let day = first_day.text();
        let found = find_declaration(self.alloc, &mut self.conn, device.text(), day.as_str());
        self.cache.answered = found.is_ok();
        note_fault(read_left(found, corrections), &mut self.refused)
    }
}
