//! Writing a text line by line.
ghost use Rattle.std.specs.Prelude.{OnOk, OnErr};
ghost use Rattle.std.specs.Io.KnownBytes.{Appends};
ghost use Rattle.goo_files_streams.specs.Streams.{AppendsPrefix};

use arrayvec::ArrayString;
use goo_files_documents::ROOM;
use goo_files_streams::{WriteFault, write_whole};
use std::io::Write;

/// Writes a line, or the lines at the head or the foot of a text.
pub(crate) fn write_line<W: Write>(
    writer: &mut W,
    line: &ArrayString<ROOM>,
) -> Result<(), WriteFault>
    ensures written { OnOk result
        (Appends (W.contents writer.old) (W.contents writer.new) line.now.bytes) }
    ensures prefix { OnErr result
        (AppendsPrefix (W.contents writer.old) (W.contents writer.new) line.now.bytes) }
{
    write_whole(writer, line.as_str().as_bytes())
}
