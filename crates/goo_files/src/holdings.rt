//! The holdings of an account as CSV.
ghost use Rattle.std.specs.Prelude.{◌≡◌, None, OnOk, OnErr, IfOk, IfErr};
ghost use Rattle.std.specs.FinMap.{get};
ghost use Rattle.std.specs.Io.KnownBytes.{Appends};
ghost use Rattle.goo_files_streams.specs.Streams.{AppendsPrefix};
ghost use Rattle.goo_core_shelf.specs.Shelf.{IsReady};
ghost use Rattle.goo_files_csv.specs.Holdings.{header_row};
ghost use Rattle.goo_registry.specs.Reads.{account_denial};
ghost use Rattle.goo_files.specs.Writes.{Writes};
ghost use Rattle.goo_spec.specs.Lots.{is_held as held_test};
ghost use Rattle.goo_files.specs.Lines.{held_row, AreHeldRows, IsRowFault};
ghost use Rattle.goo_files.specs.Texts.{IsHoldingsCsv};

use crate::text_fault::ShowFault;
use goo_core_shelf::shelf::Shelf;
use goo_files_csv::{NoRoom, holding_row, holdings_header};
use goo_files_streams::write_whole;
use goo_registry::{Registry, RunPlace};
use goo_types::account_no::AccountNo;
use goo_types::holder_code::HolderCode;
use goo_types::piece::Piece;
use goo_types::place::Place;
use std::alloc::Global;
use std::io::Write;

/// Whether certificates are in circulation.
fn is_held(place: Place) -> bool
    ensures { result ≡ held_test place }
{
    match place {
        Place::Held(_) => true,
        _ => false,
    }
}

/// Writes a row that was made, or tells that there was no room for it.
fn write_made<W: Write>(writer: &mut W, made: Result<Vec<u8>, NoRoom>) -> Result<(), ShowFault>
    ensures written { (text : _) → IfOk made (λ row. row.items ≡ text)
        → OnOk result (Appends (W.contents writer.old) (W.contents writer.new) text) }
    ensures prefix { (text : _) → IfOk made (λ row. row.items ≡ text)
        → OnErr result (AppendsPrefix (W.contents writer.old) (W.contents writer.new) text) }
    ensures kinds { IfErr result IsRowFault }
{
    match made {
        Ok(row) => match write_whole(writer, &row) {
            Ok(()) => Ok(()),
            Err(_) => Err(ShowFault::Write),
        },
        Err(_) => Err(ShowFault::Memory),
    }
}

/// Writes the row of a run that is held, and nothing for another.
fn write_row<W: Write>(alloc: Global, writer: &mut W, run: &Piece) -> Result<(), ShowFault>
    ensures written { OnOk result
        (Appends (W.contents writer.old) (W.contents writer.new) (held_row run.now)) }
    ensures prefix { OnErr result
        (AppendsPrefix (W.contents writer.old) (W.contents writer.new) (held_row run.now)) }
    ensures kinds { IfErr result IsRowFault }
{
    if is_held(run.place) {
        write_made(writer, holding_row(alloc, run))
    } else {
        Ok(())
    }
}

/// Writes the row of the names of the fields.
fn write_header<W: Write>(alloc: Global, writer: &mut W) -> Result<(), ShowFault>
    ensures written { OnOk result
        (Appends (W.contents writer.old) (W.contents writer.new) header_row) }
    ensures prefix { OnErr result
        (AppendsPrefix (W.contents writer.old) (W.contents writer.new) header_row) }
    ensures kinds { IfErr result IsRowFault }
{
    write_made(writer, holdings_header(alloc))
}

/// Writes a row for each run of an account's certificates that is held, read one at a time.
fn write_rows<S: Shelf, W: Write>(
    alloc: Global,
    registry: &mut Registry<S>,
    account: AccountNo,
    writer: &mut W,
) -> Result<(), ShowFault>
    requires ready { IsReady (S.seen registry.old.shelf) }
    ensures { Writes (S.seen registry.old.shelf) (S.seen registry.new.shelf) (W.contents writer.old)
        (W.contents writer.new) result None
        (AreHeldRows (S.seen registry.old.shelf).state account) }
{
    let mut place = RunPlace::after(None);
    loop {
        match registry.read_run(account, &mut place) {
            Ok(Some(run)) => {
                if let Err(fault) = write_row(alloc, writer, &run) {
                    return Err(fault);
                }
                // Numbers end somewhere, so this does.
                let _end = run.last.get();
            }
            Ok(None) => return Ok(()),
            Err(fault) => return Err(ShowFault::from(fault)),
        }
    }
}

/// Writes the holdings of an account as CSV, those of its runs that are held: to the issuing body
/// and to the account's holder. Its runs are read and written one at a time.
///
/// # Errors
///
/// See [`ShowFault`]: after `NotAllowed` and `Unknown` nothing was written, after the others a
/// beginning of the text. A caller who is denied it gets no byte, however the call ends (`unseen`).
pub fn write_holdings_csv<S: Shelf, W: Write>(
    alloc: Global,
    registry: &mut Registry<S>,
    caller: &HolderCode,
    account: AccountNo,
    writer: &mut W,
) -> Result<(), ShowFault>
    ensures { Writes (S.seen registry.old.shelf) (S.seen registry.new.shelf) (W.contents writer.old)
        (W.contents writer.new) result
        (account_denial caller.now (get (S.seen registry.old.shelf).state.accounts account))
        (λ u text. IsHoldingsCsv (S.seen registry.old.shelf).state account text) }
{
    let _heading = match registry.heading(caller, account) {
        Ok(heading) => heading,
        Err(fault) => return Err(ShowFault::from(fault)),
    };
    if let Err(fault) = write_header(alloc, writer) {
        return Err(fault);
    }
    write_rows(alloc, registry, account, writer)
}
