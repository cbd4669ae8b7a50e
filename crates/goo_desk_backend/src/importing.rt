//! Declarations that a registry takes in.
ghost use Rattle.std.specs.Prelude.{◌≡◌, Some, IfOk, IfErr};
ghost use Rattle.goo_types.specs.declared.fault.Fault.TheVariants.{Memory};
ghost use Rattle.goo_registry.specs.Desks.{seen_of};
ghost use Rattle.goo_files_import.specs.Report.{report_text};
ghost use Rattle.goo_desk_backend.specs.Backends.{Imports, report_of};
ghost use Rattle.goo_desk_backend.specs.Durable.{FindsAmong};
ghost use Rattle.goo_desk_backend.specs.Results.{stopped_as};
ghost use Rattle.goo_desk_backend.specs.Showing.{imported_by, begun_by};

use crate::backend::Imported;
use goo_core_shelf::shelf::Shelf;
use goo_files_import::{Cause, Report, Unwatched, import_bytes, write_report};
use goo_registry::Registry;
use goo_types::fault::Fault;
use goo_types::holder_code::HolderCode;
use std::alloc::Global;

/// The report of an import, as a text.
fn reported(alloc: Global, report: &Report) -> Result<Imported, Fault>
    ensures text { IfOk result
        (λ imported. report_of imported ≡ Some (report_text report.now.lines.items)) }
    ensures fault { IfErr result (λ fault. fault ≡ Memory) }
{
    let mut text = Vec::new(alloc);
    match write_report(report, &mut text) {
        Ok(()) => Ok(Imported::Report(text)),
        Err(_) => Err(Fault::Memory),
    }
}

/// What an import comes to that stopped for this. Bytes in memory are always read.
fn stopped(cause: Cause) -> Result<Imported, Fault>
    ensures { result ≡ stopped_as cause }
{
    match cause {
        Cause::Header => Ok(Imported::NoHeader),
        Cause::Store => Err(Fault::Store),
        Cause::Read | Cause::Memory => Err(Fault::Memory),
    }
}

/// Takes in a caller's declarations in CSV.
pub(crate) fn import_rows<S: Shelf>(
    alloc: Global,
    registry: &mut Registry<S>,
    caller: &HolderCode,
    rows: &[u8],
) -> Result<Imported, Fault>
    ensures imports { Imports imported_by begun_by (seen_of (S.seen registry.old.shelf))
        (seen_of (S.seen registry.new.shelf)) caller.now rows.now result }
    ensures crash { (S.seen registry.new.shelf).corruptions ≡ 0
        → (S.seen registry.old.shelf).defects ≡ 0
        → FindsAmong (S.seen registry.new.shelf).leaves
        (begun_by (S.seen registry.old.shelf).state caller.now rows.now) }
{
    match import_bytes(alloc, registry, caller, rows, &mut Unwatched) {
        Ok(report) => reported(alloc, &report),
        Err(fault) => stopped(fault.cause),
    }
}
