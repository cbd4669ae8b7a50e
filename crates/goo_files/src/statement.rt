//! The statement of an account.
ghost use Rattle.std.specs.Prelude.{◌≡◌, None, OnOk, OnErr};
ghost use Rattle.std.specs.Io.KnownBytes.{Appends};
ghost use Rattle.std.specs.FinMap.{get};
ghost use Rattle.goo_core_shelf.specs.Shelf.{IsReady};
ghost use Rattle.goo_files_streams.specs.Streams.{AppendsPrefix};
ghost use Rattle.goo_files_documents.specs.Statement.{statement_head as head_text};
ghost use Rattle.goo_registry.specs.Reads.{account_denial};
ghost use Rattle.goo_files.specs.Writes.{Writes};
ghost use Rattle.goo_files.specs.Lines.{AreRunLines};
ghost use Rattle.goo_files.specs.Texts.{IsStatement};

use crate::text_fault::ShowFault;
use crate::writing::write_line;
use goo_core_shelf::shelf::Shelf;
use goo_files_documents::{Counts, statement_foot, statement_head, statement_line};
use goo_files_streams::WriteFault;
use goo_registry::{Heading, Registry, RunPlace};
use goo_types::account_no::AccountNo;
use goo_types::holder_code::HolderCode;
use std::io::Write;

/// Writes a line for each run of an account's certificates, read one at a time, and counts them.
fn write_runs<S: Shelf, W: Write>(
    registry: &mut Registry<S>,
    account: AccountNo,
    writer: &mut W,
) -> Result<Counts, ShowFault>
    requires ready { IsReady (S.seen registry.old.shelf) }
    ensures { Writes (S.seen registry.old.shelf) (S.seen registry.new.shelf) (W.contents writer.old)
        (W.contents writer.new) result None
        (AreRunLines (S.seen registry.old.shelf).state account) }
{
    let mut counts = Counts::none();
    let mut place = RunPlace::after(None);
    loop {
        match registry.read_run(account, &mut place) {
            Ok(Some(run)) => {
                if write_line(writer, &statement_line(&run)).is_err() {
                    return Err(ShowFault::Write);
                }
                counts.add(&run);
                // Numbers end somewhere, so this does.
                let _end = run.last.get();
            }
            Ok(None) => return Ok(counts),
            Err(fault) => return Err(ShowFault::from(fault)),
        }
    }
}

/// Writes the lines before them.
fn write_head<W: Write>(writer: &mut W, heading: &Heading) -> Result<(), WriteFault>
    ensures written { OnOk result
        (Appends (W.contents writer.old) (W.contents writer.new)
        (head_text heading.now.code heading.now.today heading.now.account heading.now.holder
        heading.now.closed)) }
    ensures prefix { OnErr result
        (AppendsPrefix (W.contents writer.old) (W.contents writer.new)
        (head_text heading.now.code heading.now.today heading.now.account heading.now.holder
        heading.now.closed)) }
{
    let head = statement_head(
        heading.code,
        heading.today,
        heading.account,
        &heading.holder,
        heading.closed,
    );
    write_line(writer, &head)
}

/// Writes the statement of an account: to the issuing body and to the account's holder. Its runs
/// are read and written one at a time, so it holds no more than two of them, and it takes no memory
/// of its own.
///
/// # Errors
///
/// See [`ShowFault`]: after `NotAllowed` and `Unknown` nothing was written, after the others a
/// beginning of the text. A caller who is denied it gets no byte, however the call ends (`unseen`).
pub fn write_statement<S: Shelf, W: Write>(
    registry: &mut Registry<S>,
    caller: &HolderCode,
    account: AccountNo,
    writer: &mut W,
) -> Result<(), ShowFault>
    ensures { Writes (S.seen registry.old.shelf) (S.seen registry.new.shelf) (W.contents writer.old)
        (W.contents writer.new) result
        (account_denial caller.now (get (S.seen registry.old.shelf).state.accounts account))
        (λ u text. IsStatement (S.seen registry.old.shelf).state account text) }
{
    let heading = match registry.heading(caller, account) {
        Ok(heading) => heading,
        Err(fault) => return Err(ShowFault::from(fault)),
    };
    if write_head(writer, &heading).is_err() {
        return Err(ShowFault::Write);
    }
    let counts = match write_runs(registry, account, writer) {
        Ok(counts) => counts,
        Err(fault) => return Err(fault),
    };
    match write_line(writer, &statement_foot(&counts)) {
        Ok(()) => Ok(()),
        Err(_) => Err(ShowFault::Write),
    }
}
