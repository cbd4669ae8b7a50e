//! Reading a whole input and writing a whole text, each within fixed bounds.
//!
//! A stream that a signal interrupts is asked again, a thousand times in a row at most, so each of
//! these calls ends whatever the stream answers. The loops of std ask such a stream 2^64 times, and
//! say nothing of what was written before a fault.
#![tactic(auto)]

ghost use Rattle.std.specs.Prelude.{◌≡◌, ◌≢◌, ◌<◌, length, take, IfOk, IfErr, OnOk, OnErr};
ghost use Rattle.std.specs.Io.{ReadsAtMost, WritesAtMost};
ghost use Rattle.std.specs.Io.KnownBytes.{Appends, Consumes, Keeps, IsAtEnd};
ghost use Rattle.goo_files_streams.specs.Streams.{AppendsPrefix, ReadsWhole};
ghost use Rattle.goo_files_streams.specs.declared.InputFault.TheVariants.{Memory, TooLong};

use std::alloc::{AllocError, Global};
use std::io::{ErrorKind, Read, Write};
use std::{error, fmt};

/// How many times in a row a stream may answer that a signal interrupted it.
pub const MOST_INTERRUPTIONS: u32 = 1_000;

/// Why an input was not read. What the reader had given is lost, and nothing else happened.
#[derive(Debug, Clone, Copy, PartialEq, Eq, Drop)]
pub enum InputFault {
    /// The reader failed, or was interrupted too often.
    Read,
    /// The reader held more than the limit.
    TooLong,
    /// There was no room for the input.
    Memory,
}

impl fmt::Display for InputFault {
    fn fmt<W: fmt::Write>(&self, f: &mut fmt::Formatter<W>) -> fmt::Result {
        match self {
            Self::Read => f.write_str("the input failed"),
            Self::TooLong => f.write_str("the input is too long"),
            Self::Memory => f.write_str("out of memory"),
        }
    }
}

impl error::Error for InputFault {}

impl From<AllocError> for InputFault {
    ghost from_gives = { λ _ fault. fault ≡ Memory };

    fn from(_: AllocError) -> Self {
        InputFault::Memory
    }
}

/// The writer failed, was interrupted too often, or took no byte.
#[derive(Debug, Clone, Copy, PartialEq, Eq, Drop)]
pub struct WriteFault;

/// One read into `buffer`, tried again after each interruption: how many bytes came, 0 at the end
/// of the input.
///
/// # Errors
///
/// `Read` where the reader fails or is interrupted 1,001 times in a row. The reader has given no
/// byte then.
pub fn read_some<R: Read>(reader: &mut R, buffer: &mut [u8]) -> Result<usize, InputFault>
    ensures bound { ReadsAtMost result buffer.new }
    ensures bytes { IfOk result
        (λ count. Consumes (R.remaining reader.old) (R.remaining reader.new)
        (take count buffer.new)) }
    ensures end { IfOk result
        (λ count. count ≡ 0 → 0 < length buffer.old → IsAtEnd (R.remaining reader.new)) }
    ensures fault { OnErr result (Keeps (R.remaining reader.old) (R.remaining reader.new)) }
    ensures unbounded { IfErr result (λ fault. fault ≢ TooLong) }
{
    for _ in 0..=MOST_INTERRUPTIONS {
        match reader.read(buffer) {
            Ok(count) => return Ok(count),
            Err(error) => {
                if error.kind() != ErrorKind::Interrupted {
                    return Err(InputFault::Read);
                }
            }
        }
    }
    Err(InputFault::Read)
}

/// One write, tried again after each interruption: how many bytes of `text` were taken, at least
/// one.
///
/// # Errors
///
/// Where the writer fails, takes no byte, or is interrupted 1,001 times in a row. Nothing was
/// written then.
pub fn write_some<W: Write>(writer: &mut W, text: &[u8]) -> Result<usize, WriteFault>
    ensures bound { WritesAtMost result text.now }
    ensures bytes { IfOk result
        (λ count. Appends (W.contents writer.old) (W.contents writer.new) (take count text.now)) }
    ensures progress { IfOk result (λ count. 0 < count) }
    ensures fault { OnErr result (Keeps (W.contents writer.old) (W.contents writer.new)) }
{
    for _ in 0..=MOST_INTERRUPTIONS {
        match writer.write(text) {
            Ok(0) => return Err(WriteFault),
            Ok(count) => return Ok(count),
            Err(error) => {
                if error.kind() != ErrorKind::Interrupted {
                    return Err(WriteFault);
                }
            }
        }
    }
    Err(WriteFault)
}

/// All that a reader has left, where that is at most `limit` bytes.
///
/// # Errors
///
/// `Read` where a read fails (see [`read_some`]), `TooLong` where there is a byte more than `limit`,
/// and `Memory` where there is no room. The reader has given a beginning then, which is lost.
pub fn read_whole<R: Read>(
    alloc: Global,
    reader: &mut R,
    limit: usize,
) -> Result<Vec<u8>, InputFault>
    ensures { ReadsWhole (R.remaining reader.old) (R.remaining reader.new) limit result }
{
    let mut input = Vec::new(alloc);
    let mut chunk = [0u8; 4096];
    loop {
        let count = read_some(reader, &mut chunk)?;
        if count == 0 {
            return Ok(input);
        }
        if count > limit - input.len() {
            return Err(InputFault::TooLong);
        }
        input.extend_from_slice(&chunk[..count])?;
    }
}

/// Writes the whole text, and flushes nothing.
///
/// # Errors
///
/// Where a write fails (see [`write_some`]). A beginning of the text was written then.
pub fn write_whole<W: Write>(writer: &mut W, text: &[u8]) -> Result<(), WriteFault>
    ensures written { OnOk result
        (Appends (W.contents writer.old) (W.contents writer.new) text.now) }
    ensures prefix { OnErr result
        (AppendsPrefix (W.contents writer.old) (W.contents writer.new) text.now) }
{
    let mut written = 0;
    while written < text.len() {
        written += write_some(writer, &text[written..])?;
    }
    Ok(())
}
