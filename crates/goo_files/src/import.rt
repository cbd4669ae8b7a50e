//! Declarations imported from CSV, and the report of it.
ghost use Rattle.std.specs.Prelude.{◌≡◌, IfErr, OnOk, OnErr};
ghost use Rattle.std.specs.Io.KnownBytes.{Appends};
ghost use Rattle.goo_files_streams.specs.Streams.{AppendsPrefix};
ghost use Rattle.goo_registry.specs.Desks.{seen_of};
ghost use Rattle.goo_files_import.specs.Report.{report_text};
ghost use Rattle.goo_files_import.specs.Runs.{LeavesDesk, RunsRows};
ghost use Rattle.goo_files.specs.declared.text_fault.ShowFault.TheVariants.{Write as Unwritten};

use crate::text_fault::ShowFault;
use goo_core_shelf::shelf::Shelf;
use goo_files_import::{ImportFault, ImportWatcher, Report, Unwatched};
use goo_registry::Registry;
use goo_types::holder_code::HolderCode;
use std::alloc::Global;
use std::io::{Read, Write};

/// Imports declarations from CSV into a registry as [`import_declarations`] does, and tells how far
/// it is.
///
/// # Errors
///
/// Those of [`import_declarations`].
pub fn import_declarations_watched<S: Shelf, R: Read, P: ImportWatcher>(
    alloc: Global,
    registry: &mut Registry<S>,
    caller: &HolderCode,
    reader: &mut R,
    progress: &mut P,
) -> Result<Report, ImportFault>
    ensures runs { RunsRows caller.now (seen_of (S.seen registry.old.shelf))
        (seen_of (S.seen registry.new.shelf)) (S.seen registry.new.shelf).leaves result
        (R.remaining reader.old) (R.remaining reader.new) 16_777_216 }
    ensures desk { LeavesDesk (seen_of (S.seen registry.old.shelf))
        (seen_of (S.seen registry.new.shelf)) result }
{
    goo_files_import::import_declarations(alloc, registry, caller, reader, progress)
}

/// Imports declarations from CSV into a registry. The input is read whole, and then each row after
/// the header is one declaration of the caller, under the row's key. A row whose key is kept is
/// repeated, so a file may come twice.
///
/// # Errors
///
/// See [`Cause`](crate::Cause): after `Header` and `Read` nothing was applied; after `Store` and
/// `Memory` the rows of the report stand, and no others.
pub fn import_declarations<S: Shelf, R: Read>(
    alloc: Global,
    registry: &mut Registry<S>,
    caller: &HolderCode,
    reader: &mut R,
) -> Result<Report, ImportFault>
    ensures runs { RunsRows caller.now (seen_of (S.seen registry.old.shelf))
        (seen_of (S.seen registry.new.shelf)) (S.seen registry.new.shelf).leaves result
        (R.remaining reader.old) (R.remaining reader.new) 16_777_216 }
    ensures desk { LeavesDesk (seen_of (S.seen registry.old.shelf))
        (seen_of (S.seen registry.new.shelf)) result }
{
    import_declarations_watched(alloc, registry, caller, reader, &mut Unwatched)
}

/// Writes the report of an import, a line a row, numbered from 1. It takes no memory.
///
/// # Errors
///
/// `Write`, where a write fails: a beginning of the text was written then.
pub fn write_report<W: Write>(report: &Report, writer: &mut W) -> Result<(), ShowFault>
    ensures written { OnOk result
        (Appends (W.contents writer.old) (W.contents writer.new)
        (report_text report.now.lines.items)) }
    ensures prefix { OnErr result
        (AppendsPrefix (W.contents writer.old) (W.contents writer.new)
        (report_text report.now.lines.items)) }
    ensures kind { IfErr result (λ fault. fault ≡ Unwritten) }
{
    goo_files_import::write_report(report, writer)?;
    Ok(())
}
