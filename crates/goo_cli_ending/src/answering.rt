//! A whole input, answered.
ghost use Rattle.std.specs.Prelude.{◌≡◌, ◌<◌, []};
ghost use Rattle.std.specs.Io.KnownBytes.{IsAtEnd};
ghost use Rattle.std.specs.Io.Buffered.{writer_buffer, writer_contents};
ghost use Rattle.goo_cli_ending.specs.Endings.{status_of, IsOfLines, IsAfterInput, IsToldOf};
ghost use Rattle.goo_cli_ending.specs.Runs.{HasState, MayFind, RunsInput};

use crate::ending::Ending;
use goo_core_shelf::desk::Desk;
use goo_desk_lines::run_lines;
use std::alloc::Global;
use std::io::{BufWriter, Read, Write};

/// Answers the lines of an input by a desk, and tells how that ends. The output is flushed.
///
/// - `runs`: what the reader gave, and the first of its lines, all of them with status 0 and 1.
///   Status 0 tells that none of them was refused or unreadable, and status 1 that some was. Their
///   outcomes are what is written after what the writer had, flushed or not, and after a fault of
///   the output a beginning of these. The desk knows what they come to, what a registry promises
///   after any list of requests holds of their requests, and a crash finds them carried out, and
///   one line more at most. An input that is turned down changes nothing.
/// - `words`, `read`: it ends as a run of lines does, and a fault of the output or of the records
///   is told only once the whole input was read.
/// - `flushed`: with status 0 and 1 nothing is left in the writer's buffer.
/// - `told`: a fault of the records is told just where what keeps them refused a call.
/// - `corruptions_stay`: what lies below the desk returned what was written
///   before, where it did so to the end.
pub fn answer_input<D: Desk, R: Read, W: Write + Drop>(
    alloc: Global,
    desk: &mut D,
    reader: &mut R,
    writer: &mut BufWriter<W>,
) -> Ending
    ensures runs { (D.seen desk.new).corruptions ≡ 0
        → RunsInput result (D.seen desk.old).state (writer_contents W.contents writer.old)
        (writer_contents W.contents writer.new) (HasState result (D.seen desk.new))
        (MayFind (D.seen desk.old) (D.leaves desk.new)) (R.remaining reader.old)
        (R.remaining reader.new) }
    ensures words { IsOfLines result }
    ensures read { IsAfterInput result → IsAtEnd (R.remaining reader.new) }
    ensures flushed { status_of result < 2 → writer_buffer writer.new ≡ [] }
    ensures told { (D.seen desk.old).refusals ≡ 0 → IsToldOf result (D.seen desk.new).refusals }
    ensures corruptions_stay { (D.seen desk.new).corruptions ≡ 0
        → (D.seen desk.old).corruptions ≡ 0 }
{
    let answered = run_lines(alloc, desk, reader, writer);
    let flushed = writer.flush().is_ok();
    Ending::of_run(answered, flushed)
}
