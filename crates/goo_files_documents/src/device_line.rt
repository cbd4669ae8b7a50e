//! The line of a device in an audit.
ghost use Rattle.std.specs.Prelude.{◌≡◌, ◌++◌, ◌+◌, ◌≤◌, length};
ghost use Rattle.arrayvec.specs.ArrayString.{array_string_len};
ghost use Rattle.goo_files_documents.specs.Audit.{audit_line as line_text};

use crate::pushes::{ROOM, push_device, push_integer, push_sum};
use arrayvec::ArrayString;
use goo_core_shelf::found::DeviceTotals;

/// The line of a device: its declared net energy in Wh and what corrections took off it, its issued
/// certificates and how many of them corrections withdrew, and the carry in Wh.
#[tactic(auto, unfolding(crate::specs::Audit::audit_line))]
pub fn audit_line(totals: &DeviceTotals) -> ArrayString<ROOM>
    ensures { result.bytes ≡ line_text totals.now }
{
    let mut out = ArrayString::new();
    push_device(&mut out, &totals.device);
    out.push_str(" ");
    push_sum(&mut out, totals.declared_wh);
    out.push_str(" ");
    push_sum(&mut out, totals.corrected_wh);
    out.push_str(" ");
    push_integer(&mut out, totals.issued);
    out.push_str(" ");
    push_integer(&mut out, totals.withdrawn_certificates);
    out.push_str(" ");
    push_integer(&mut out, totals.carry_wh);
    out.push_str("\n");
    out
}
