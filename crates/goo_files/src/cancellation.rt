//! The document of a cancellation.
ghost use Rattle.std.specs.Prelude.{◌≡◌, OnOk, OnErr, IfErr, flat_map};
ghost use Rattle.std.specs.Io.KnownBytes.{Appends};
ghost use Rattle.goo_files_streams.specs.Streams.{AppendsPrefix};
ghost use Rattle.goo_types.specs.Piece.{IsRising};
ghost use Rattle.goo_files_documents.specs.Cancellation.{cancellation_foot as foot_text};
ghost use Rattle.goo_files_documents.specs.Cancellation.{certificates_in as count_in};
ghost use Rattle.goo_files_documents.specs.Cancellation.{cancellation_text};
ghost use Rattle.goo_files_documents.specs.Runs.{document_line as document_text};
ghost use Rattle.goo_files.specs.Writes.{Writes};
ghost use Rattle.goo_files.specs.declared.text_fault.ShowFault.TheVariants.{Write as Unwritten};
ghost use Rattle.goo_files.specs.Texts.{IsDocument, cancellation_denial};

use crate::text_fault::ShowFault;
use crate::writing::write_line;
use goo_core_shelf::shelf::Shelf;
use goo_files_documents::{
    CancellationHead, cancellation_foot, cancellation_head, certificates_in, document_line,
};
use goo_files_streams::WriteFault;
use goo_registry::{CancellationStatement, Registry};
use goo_types::act_no::ActNo;
use goo_types::holder_code::HolderCode;
use goo_types::piece::Piece;
use goo_types::registry_code::RegistryCode;
use std::alloc::Global;
use std::io::Write;

/// What stands before the certificates of a cancellation.
fn head_of_document(
    found: &CancellationStatement,
    act: ActNo,
    code: RegistryCode,
) -> CancellationHead
    ensures { result ≡ record {
      act = act;
      code = code;
      day = found.now.record.day;
      account = found.now.record.account;
      holder = found.now.holder;
      beneficiary = found.now.record.beneficiary;
      use_first = found.now.record.use_first;
      use_last = found.now.record.use_last;
    } }
{
    CancellationHead {
        act,
        code,
        day: found.record.day(),
        account: found.record.account(),
        holder: found.holder,
        beneficiary: found.record.beneficiary(),
        use_first: found.record.use_first(),
        use_last: found.record.use_last(),
    }
}

/// Writes a line for each run.
fn write_runs<W: Write>(writer: &mut W, runs: &[Piece]) -> Result<(), WriteFault>
    ensures written { OnOk result
        (Appends (W.contents writer.old) (W.contents writer.new)
        (flat_map document_text runs.now)) }
    ensures prefix { OnErr result
        (AppendsPrefix (W.contents writer.old) (W.contents writer.new)
        (flat_map document_text runs.now)) }
{
    for run in runs {
        write_line(writer, &document_line(run))?;
    }
    Ok(())
}

/// Writes the lines after them.
fn write_foot<W: Write>(writer: &mut W, runs: &[Piece]) -> Result<(), WriteFault>
    ensures written { OnOk result
        (IsRising runs.now
        → Appends (W.contents writer.old) (W.contents writer.new) (foot_text (count_in runs.now))) }
    ensures prefix { OnErr result
        (IsRising runs.now
        → AppendsPrefix (W.contents writer.old) (W.contents writer.new)
        (foot_text (count_in runs.now))) }
{
    write_line(writer, &cancellation_foot(certificates_in(runs)))
}

/// Writes the whole document.
fn write_document<W: Write>(
    writer: &mut W,
    head: &CancellationHead,
    runs: &[Piece],
) -> Result<(), ShowFault>
    ensures written { OnOk result
        (IsRising runs.now
        → Appends (W.contents writer.old) (W.contents writer.new)
        (cancellation_text head.now runs.now)) }
    ensures prefix { OnErr result
        (IsRising runs.now
        → AppendsPrefix (W.contents writer.old) (W.contents writer.new)
        (cancellation_text head.now runs.now)) }
    ensures kinds { IfErr result (λ fault. fault ≡ Unwritten) }
{
    write_line(writer, &cancellation_head(head))?;
    write_runs(writer, runs)?;
    write_foot(writer, runs)?;
    Ok(())
}

/// Writes the document of a cancellation: to the issuing body and to the holder of its account.
///
/// # Errors
///
/// See [`ShowFault`]: after `NotAllowed` and `Unknown` nothing was written, after the others a
/// beginning of the text. A caller who is denied it gets no byte, however the call ends (`unseen`).
pub fn write_cancellation<S: Shelf, W: Write>(
    alloc: Global,
    registry: &mut Registry<S>,
    caller: &HolderCode,
    act: ActNo,
    writer: &mut W,
) -> Result<(), ShowFault>
    ensures { Writes (S.seen registry.old.shelf) (S.seen registry.new.shelf) (W.contents writer.old)
        (W.contents writer.new) result
        (cancellation_denial (S.seen registry.old.shelf).state caller.now act)
        (λ u text. IsDocument (S.seen registry.old.shelf).state act text) }
{
    let found = match registry.cancellation(alloc, caller, act) {
        Ok(found) => found,
        Err(fault) => return Err(ShowFault::from(fault)),
    };
    let own = match registry.heading(caller, found.record.account()) {
        Ok(own) => own,
        Err(fault) => return Err(ShowFault::from(fault)),
    };
    let head = head_of_document(&found, act, own.code);
    write_document(writer, &head, &found.runs)
}
