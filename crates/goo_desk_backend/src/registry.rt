//! A registry as a backend.
ghost use Rattle.goo_desk_backend.specs.Showing.{shown_by, imported_by, begun_by};

use crate::backend::{Backend, Imported, Shown};
use crate::importing::import_rows;
use crate::showing::show_subject;
use goo_core_shelf::shelf::Shelf;
use goo_desk_routes::Subject;
use goo_registry::Registry;
use goo_types::fault::Fault;
use goo_types::holder_code::HolderCode;
use std::alloc::Global;

impl<S: Shelf> Backend for Registry<S> {
    ghost shows = { shown_by };

    ghost imports = { imported_by };

    ghost begins = { begun_by };

    fn show(
        &mut self,
        alloc: Global,
        caller: &HolderCode,
        subject: Subject,
    ) -> Result<Shown, Fault> {
        show_subject(alloc, self, caller, subject)
    }

    fn import(
        &mut self,
        alloc: Global,
        caller: &HolderCode,
        rows: &[u8],
    ) -> Result<Imported, Fault> {
        import_rows(alloc, self, caller, rows)
    }
}
