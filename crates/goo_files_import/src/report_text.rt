//! The text of a report.
ghost use Rattle.std.specs.Prelude.{◌≡◌, ◌++◌, ◌+◌, ◌≤◌, decimal, OnOk, OnErr};
ghost use Rattle.std.specs.Io.KnownBytes.{Appends};
ghost use Rattle.arrayvec.specs.ArrayString.{array_string_len};
ghost use Rattle.goo_files_streams.specs.Streams.{AppendsPrefix};
ghost use Rattle.goo_files_import.specs.Report.{result_text, report_line as line_text, report_from};
ghost use Rattle.goo_files_import.specs.Report.{report_text};

use crate::report::Report;
use crate::row_result::RowResult;
use arrayvec::ArrayString;
pub use goo_files_streams::WriteFault;
use goo_files_streams::write_whole;
use itoa::Buffer;
use std::io::Write;

/// Room for each line.
const ROOM: usize = 64;

/// Writes an integer.
fn push_integer(out: &mut ArrayString<ROOM>, integer: u64)
    requires { array_string_len out.old + 20 ≤ 64 }
    ensures bytes { out.new.bytes ≡ out.old.bytes ++ decimal integer }
    ensures len { array_string_len out.new ≤ array_string_len out.old + 20 }
{
    let mut digits = Buffer::new();
    out.push_str(digits.format(integer));
}

/// Writes the result of a row.
fn push_result(out: &mut ArrayString<ROOM>, row: RowResult)
    requires { array_string_len out.old + 30 ≤ 64 }
    ensures bytes { out.new.bytes ≡ out.old.bytes ++ result_text row }
    ensures len { array_string_len out.new ≤ array_string_len out.old + 30 }
{
    match row {
        RowResult::Accepted => out.push_str("accepted"),
        RowResult::Repeated => out.push_str("repeated"),
        RowResult::Refused(refusal) => {
            out.push_str("refused ");
            push_integer(out, refusal.code() as u64);
        }
        RowResult::Unreadable => out.push_str("unreadable"),
    }
}

/// The line of a row.
#[tactic(auto, unfolding(crate::specs::Report::report_line))]
fn report_line(number: u64, row: RowResult) -> ArrayString<ROOM>
    ensures { result.bytes ≡ line_text number row }
{
    let mut out = ArrayString::new();
    push_integer(&mut out, number);
    out.push_str(" ");
    push_result(&mut out, row);
    out.push_str("\n");
    out
}

/// Writes the report of an import, a line a row, numbered from 1. It takes no memory.
///
/// # Errors
///
/// `WriteFault` where a write fails. A beginning of the text was written then.
pub fn write_report<W: Write>(report: &Report, writer: &mut W) -> Result<(), WriteFault>
    ensures written { OnOk result
        (Appends (W.contents writer.old) (W.contents writer.new)
        (report_text report.now.lines.items)) }
    ensures prefix { OnErr result
        (AppendsPrefix (W.contents writer.old) (W.contents writer.new)
        (report_text report.now.lines.items)) }
{
    for (index, row) in report.lines.iter().enumerate() {
        let line = report_line(index as u64 + 1, *row);
        write_whole(writer, line.as_str().as_bytes())?;
    }
    Ok(())
}
