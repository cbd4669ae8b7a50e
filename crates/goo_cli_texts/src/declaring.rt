//! The command `declare`.
ghost use Rattle.std.specs.Prelude.{◌≡◌, [], IsTrue};
ghost use Rattle.std.specs.Io.Buffered.{writer_buffer, writer_contents};
ghost use Rattle.std.specs.Io.KnownBytes.{Appends};
ghost use Rattle.goo_files_import.specs.Report.{report_text};
ghost use Rattle.goo_files_streams.specs.Streams.{AppendsPrefix};
ghost use Rattle.goo_registry.specs.Desks.{seen_of};
ghost use Rattle.goo_cli_ending.specs.Endings.{status_of};
ghost use Rattle.goo_cli_ending.specs.Runs.{HasState, MayFind};
ghost use Rattle.goo_cli_texts.specs.Endings.{all_stand, ending_of_import, IsOfImport, stands};
ghost use Rattle.goo_cli_texts.specs.Declaring.{DeclaresRows, IsUntouched, Sends};

use crate::issuer::issuer;
use crate::progress_line::ProgressLine;
use goo_cli_ending::{Ending, Failure, NotDone};
use goo_core_shelf::shelf::Shelf;
use goo_files::{Cause, Report, RowResult, import_declarations_watched, write_report};
use goo_registry::Registry;
use std::alloc::Global;
use std::io::{BufWriter, Read, Write};

/// Whether a row's declaration stands.
fn stands(row: &RowResult) -> bool
    ensures { result ≡ stands row.now }
{
    match row {
        RowResult::Accepted | RowResult::Repeated => true,
        RowResult::Refused(_) | RowResult::Unreadable => false,
    }
}

/// Whether each row's declaration stands.
fn all_stand(rows: &[RowResult]) -> bool
    ensures { result ≡ all_stand rows.now }
{
    rows.iter().all(stands)
}

/// How an import ends that stopped for a cause or didn't, whose report went out whole or did not.
fn ending_of(cause: Option<Cause>, all_stand: bool, flushed: bool) -> Ending
    ensures { result ≡ ending_of_import cause all_stand flushed }
{
    match cause {
        Some(Cause::Header) => Ending::Denied(NotDone::Header),
        Some(Cause::Read) => Ending::Failed(Failure::Read),
        Some(Cause::Store) => Ending::Failed(Failure::Store),
        Some(Cause::Memory) => Ending::Failed(Failure::Memory),
        None if !flushed => Ending::Failed(Failure::Write),
        None if all_stand => Ending::Done,
        None => Ending::PartlyDone,
    }
}

/// Writes a report whole, or tells that it could not.
fn send_report<W: Write + Drop>(report: &Report, writer: &mut BufWriter<W>) -> bool
    ensures written { IsTrue result
        → Appends (writer_contents W.contents writer.old) (writer_contents W.contents writer.new)
        (report_text report.now.lines.items) }
    ensures begun { AppendsPrefix (writer_contents W.contents writer.old)
        (writer_contents W.contents writer.new) (report_text report.now.lines.items) }
    ensures flushed { IsTrue result → writer_buffer writer.new ≡ [] }
{
    write_report(report, writer).is_ok() && writer.flush().is_ok()
}

/// Writes the report of an import that stopped for a cause or didn't, and tells how that ends.
fn finish<W: Write + Drop>(
    report: &Report,
    cause: Option<Cause>,
    writer: &mut BufWriter<W>,
) -> Ending
    ensures sent { Sends cause report.now.lines.items (writer_contents W.contents writer.old)
        (writer_contents W.contents writer.new) result }
    ensures words { IsOfImport result }
    ensures flushed { status_of result ≡ 0 → writer_buffer writer.new ≡ [] }
{
    let flushed = send_report(report, writer);
    ending_of(cause, all_stand(&report.lines), flushed)
}

/// Imports the declarations of a CSV file, writes the report of it, after a fault that of the rows
/// that stand, and tells how that ends. The output is flushed. `line` tells how far the import is,
/// and is ended before the report is written.
///
/// - `runs`: what the reader gave, and the first of its rows, all of them with status 0 and 1 and
///   after a fault of the output, but none where the header is missing. Status 0 tells that each
///   row's declaration stands, and status 1 that one doesn't, but for a file without its header.
///   Their report is what is written after what the writer had, or a beginning of it with status 3.
///   The registry has what they come to, what it promises after any list of requests holds of their
///   requests, and a crash finds them imported, and one row more at most. An input that is turned
///   down changes nothing.
/// - `untouched`: a table that was not read, or that lacks its header, leaves the records as they
///   were.
/// - `words`: it ends as an import does.
/// - `flushed`: with status 0 nothing is left in the writer's buffer.
/// - `corruptions_stay`: what keeps the records returned what was written before, where it did so to
///   the end.
pub fn declare<S: Shelf, R: Read, W: Write + Drop, T: Write>(
    alloc: Global,
    registry: &mut Registry<S>,
    reader: &mut R,
    writer: &mut BufWriter<W>,
    line: &mut ProgressLine<T>,
) -> Ending
    ensures runs { (S.seen registry.new.shelf).corruptions ≡ 0
        → DeclaresRows result (S.seen registry.old.shelf).state
        (writer_contents W.contents writer.old) (writer_contents W.contents writer.new)
        (HasState result (seen_of (S.seen registry.new.shelf)))
        (MayFind (seen_of (S.seen registry.old.shelf)) (S.seen registry.new.shelf).leaves)
        (R.remaining reader.old) (R.remaining reader.new) }
    ensures untouched { IsUntouched result (seen_of (S.seen registry.old.shelf))
        (seen_of (S.seen registry.new.shelf)) }
    ensures words { IsOfImport result }
    ensures flushed { status_of result ≡ 0 → writer_buffer writer.new ≡ [] }
    ensures corruptions_stay { (S.seen registry.new.shelf).corruptions ≡ 0
        → (S.seen registry.old.shelf).corruptions ≡ 0 }
{
    let imported = import_declarations_watched(alloc, registry, &issuer(), reader, line);
    line.end();
    match imported {
        Ok(report) => finish(&report, None, writer),
        Err(fault) => finish(&fault.report, Some(fault.cause), writer),
    }
}
