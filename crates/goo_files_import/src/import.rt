//! The rows of an import, applied in turn.
ghost use Rattle.std.specs.Prelude.{◌≡◌, ◌++◌, ◌∷◌, [], IfOk, OnOk, OnErr};
ghost use Rattle.csv.specs.Records.{fields_of};
ghost use Rattle.goo_files_import.specs.Runs.{ImportsFirst, ImportsRow, IsReliable, LeavesDesk};
ghost use Rattle.goo_files_import.specs.Runs.{RunsRows, Stops};

use crate::cause::{Cause, ImportFault};
use crate::progress::ImportWatcher;
use crate::report::Report;
use crate::row_result::RowResult;
use csv::{ByteRecord, ReaderBuilder};
use goo_core_shelf::desk::Desk;
use goo_files_csv::{is_header, read_row};
use goo_files_streams::{InputFault, read_whole};
use goo_types::fault::Fault;
use goo_types::holder_code::HolderCode;
use std::alloc::Global;
use std::io::Read;

/// The most bytes that an import may have.
pub const MOST_INPUT: usize = 16_777_216;

/// The result of a row, whose request is applied.
#[tactic(auto, unfolding(crate::specs::Import::row_result, crate::specs::Import::state_after))]
fn apply_row<D: Desk>(
    alloc: Global,
    desk: &mut D,
    caller: &HolderCode,
    row: &ByteRecord,
) -> Result<RowResult, Fault>
    ensures row { ImportsRow caller.now (fields_of row.now) (D.seen desk.old) (D.seen desk.new)
        (D.leaves desk.new) result (λ told. IfOk result (λ line. line ≡ told)) }
{
    match read_row(caller, row) {
        Some(request) => Ok(RowResult::of(desk.apply(alloc, &request)?)),
        None => Ok(RowResult::Unreadable),
    }
}

/// Applies a row, once there is room for its line, and adds that.
fn import_row<D: Desk>(
    alloc: Global,
    desk: &mut D,
    caller: &HolderCode,
    lines: &mut Vec<RowResult>,
    row: &ByteRecord,
) -> Result<(), Fault>
    ensures row { ImportsRow caller.now (fields_of row.now) (D.seen desk.old) (D.seen desk.new)
        (D.leaves desk.new) result
        (λ told. OnOk result (lines.new.items ≡ lines.old.items ++ told ∷ [])) }
    ensures kept { OnErr result (lines.new.items ≡ lines.old.items) }
{
    if lines.try_reserve(1).is_err() {
        return Err(Fault::Memory);
    }
    let line = apply_row(alloc, desk, caller, row)?;
    match lines.push(line) {
        Ok(()) => Ok(()),
        Err(_) => unreachable!(),
    }
}

/// An import that stopped.
fn stopped(lines: Vec<RowResult>, cause: Cause) -> ImportFault
    ensures lines { result.report.lines.items ≡ lines.items }
    ensures cause { result.cause ≡ cause }
{
    ImportFault {
        report: Report { lines },
        cause,
    }
}

/// How many rows an input has after its header, as far as there is memory to tell.
fn count_rows(alloc: Global, input: &[u8]) -> u64 {
    let reader = ReaderBuilder::new()
        .has_headers(false)
        .flexible(true)
        .from_reader(alloc, input);
    let mut records = 0u64;
    for record in reader.into_byte_records() {
        if record.is_ok() {
            records = records.saturating_add(1);
        }
    }
    records.saturating_sub(1)
}

/// Tells that an import begins.
fn announce<P: ImportWatcher>(alloc: Global, input: &[u8], progress: &mut P) {
    if progress.is_watched() {
        progress.begin(count_rows(alloc, input));
    }
}

/// Applies the rows of a CSV in turn, after its header: what [`import_declarations`] does with an
/// input once it is read.
///
/// # Errors
///
/// See [`Cause`]: after `Header` nothing was applied; after `Store` and `Memory` the rows of the
/// report stand. `Read` never comes.
pub fn import_bytes<D: Desk, P: ImportWatcher>(
    alloc: Global,
    desk: &mut D,
    caller: &HolderCode,
    input: &[u8],
    progress: &mut P,
) -> Result<Report, ImportFault>
    ensures imports { IsReliable (D.seen desk.new)
        → ImportsFirst caller.now (D.seen desk.old) (D.seen desk.new) (D.leaves desk.new) result
        input.now }
    ensures stops { Stops input.now (D.seen desk.old) (D.seen desk.new) result }
    ensures desk { LeavesDesk (D.seen desk.old) (D.seen desk.new) result }
{
    announce(alloc, input, progress);
    let reader = ReaderBuilder::new()
        .has_headers(false)
        .flexible(true)
        .from_reader(alloc, input);
    let mut rows = reader.into_byte_records();
    let mut lines = Vec::new(alloc);
    match rows.next() {
        Some(Ok(first)) => {
            if !is_header(&first) {
                return Err(stopped(lines, Cause::Header));
            }
        }
        Some(Err(_)) => return Err(stopped(lines, Cause::Memory)),
        None => return Err(stopped(lines, Cause::Header)),
    }
    for row in rows {
        let Ok(row) = row else {
            return Err(stopped(lines, Cause::Memory));
        };
        if let Err(fault) = import_row(alloc, desk, caller, &mut lines, &row) {
            return Err(stopped(lines, Cause::of(fault)));
        }
        progress.advance(lines.len() as u64);
    }
    Ok(Report { lines })
}

/// Reads the whole of a CSV and then applies each row as one declaration of the caller, under the
/// row's key. Room for the line of a row is taken before the row is applied, so the rows of the
/// report stand and no others, whatever happens. A row whose key is kept is repeated, so a file may
/// come twice. `progress` is told how far it is.
///
/// `runs`, whether or not the reader tells its bytes: it gave them to its end, and the first of
/// their rows were applied, and all of them after an `Ok`. The report is of just these rows, their
/// state stands, what a registry promises after any list of requests holds of their requests
/// ([`import_is_a_run`](crate::import_is_a_run) says that an import is a run of them), and a crash
/// finds them applied, and at most one row more. Or it gave a beginning, and nothing was applied.
///
/// `desk`: however it ends, there is no defect unless a call below failed. So after a `Memory` with
/// no failed call the state is known, and a crash finds it.
///
/// # Errors
///
/// See [`Cause`]: after `Header` and `Read` nothing was applied; after `Store` and `Memory` the
/// rows of the report stand.
pub fn import_declarations<D: Desk, R: Read, P: ImportWatcher>(
    alloc: Global,
    desk: &mut D,
    caller: &HolderCode,
    reader: &mut R,
    progress: &mut P,
) -> Result<Report, ImportFault>
    ensures runs { RunsRows caller.now (D.seen desk.old) (D.seen desk.new) (D.leaves desk.new)
        result (R.remaining reader.old) (R.remaining reader.new) 16_777_216 }
    ensures desk { LeavesDesk (D.seen desk.old) (D.seen desk.new) result }
{
    match read_whole(alloc, reader, MOST_INPUT) {
        Ok(input) => import_bytes(alloc, desk, caller, &input, progress),
        Err(InputFault::Read | InputFault::TooLong) => Err(stopped(Vec::new(alloc), Cause::Read)),
        Err(InputFault::Memory) => Err(stopped(Vec::new(alloc), Cause::Memory)),
    }
}
