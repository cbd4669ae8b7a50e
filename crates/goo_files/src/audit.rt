//! The audit of the devices.
ghost use Rattle.std.specs.Prelude.{◌≡◌, OnOk, OnErr, flat_map};
ghost use Rattle.std.specs.Io.KnownBytes.{Appends};
ghost use Rattle.goo_files_streams.specs.Streams.{AppendsPrefix};
ghost use Rattle.goo_files.specs.Writes.{Writes};
ghost use Rattle.goo_files.specs.Texts.{IsAuditText, audit_denial};
ghost use Rattle.goo_files_documents.specs.Audit.{audit_line as line_text};

use crate::text_fault::ShowFault;
use crate::writing::write_line;
use goo_core_shelf::found::DeviceTotals;
use goo_core_shelf::shelf::Shelf;
use goo_files_documents::audit_line;
use goo_files_streams::WriteFault;
use goo_registry::Registry;
use goo_types::holder_code::HolderCode;
use std::alloc::Global;
use std::io::Write;

/// Writes a line for each device.
fn write_devices<W: Write>(writer: &mut W, totals: &[DeviceTotals]) -> Result<(), WriteFault>
    ensures written { OnOk result
        (Appends (W.contents writer.old) (W.contents writer.new)
        (flat_map line_text totals.now)) }
    ensures prefix { OnErr result
        (AppendsPrefix (W.contents writer.old) (W.contents writer.new)
        (flat_map line_text totals.now)) }
{
    for device in totals {
        write_line(writer, &audit_line(device))?;
    }
    Ok(())
}

/// Writes the audit: each device with its declared net energy in Wh, what corrections took off it,
/// its issued certificates, how many of them corrections withdrew, and its carry in Wh, by device;
/// to the issuing body alone. Where there is no device, the text is empty.
///
/// # Errors
///
/// See [`ShowFault`]: after `NotAllowed` nothing was written, after the others a beginning of the
/// text. A caller who is denied it gets no byte, however the call ends (`unseen`).
pub fn write_audit<S: Shelf, W: Write>(
    alloc: Global,
    registry: &mut Registry<S>,
    caller: &HolderCode,
    writer: &mut W,
) -> Result<(), ShowFault>
    ensures { Writes (S.seen registry.old.shelf) (S.seen registry.new.shelf) (W.contents writer.old)
        (W.contents writer.new) result (audit_denial caller.now)
        (λ u text. IsAuditText (S.seen registry.old.shelf).state text) }
{
    let totals = match registry.audit(alloc, caller) {
        Ok(totals) => totals,
        Err(fault) => return Err(ShowFault::from(fault)),
    };
    match write_devices(writer, &totals) {
        Ok(()) => Ok(()),
        Err(_) => Err(ShowFault::Write),
    }
}
