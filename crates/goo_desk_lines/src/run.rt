//! The lines of an input, answered in turn.
ghost use Rattle.std.specs.Prelude.{◌≡◌, ◌≢◌, ◌≤◌, ◌<◌, ◌+◌, ◌^◌, ◌++◌, ◌∷◌, [], length, IfOk, IfErr};
ghost use Rattle.std.specs.Prelude.{OnOk, OnErr, Err};
ghost use Rattle.std.specs.Io.KnownBytes.{Appends};
ghost use Rattle.goo_files_streams.specs.Streams.{AppendsPrefix};
ghost use Rattle.goo_core_shelf.specs.Shelf.{IsTold};
ghost use Rattle.goo_core_shelf.specs.Crash.{FindsEither};
ghost use Rattle.goo_core_shelf.specs.Desk.{StaysSure};
ghost use Rattle.goo_desk_lines.specs.Answers.{answer_to, state_after};
ghost use Rattle.goo_desk_lines.specs.Lines.{lines_of, request_in};
ghost use Rattle.goo_desk_lines.specs.Runs.{AnswersFirst, RunsLines};
ghost use Rattle.goo_desk_lines.specs.Stops.{AnswersNext, FindsNext, LeavesDesk};
ghost use Rattle.goo_desk_lines.specs.declared.lines_fault.LinesFault.TheVariants.{Read as Reading};

use crate::answer::LineAnswer;
use crate::line::read_line;
use crate::lines::Lines;
use crate::lines_fault::LinesFault;
use crate::tally::Tally;
use crate::unread::Unread;
use goo_core_shelf::desk::Desk;
use goo_files_streams::{WriteFault, read_whole, write_whole};
use goo_types::fault::Fault;
use std::alloc::Global;
use std::io::{Read, Write};

/// The most bytes that an input of lines may have.
pub const MOST_INPUT: usize = 16_777_216;

/// The answer to one line.
#[tactic(auto, unfolding(crate::specs::Answers::answer_to, crate::specs::Answers::state_after))]
fn answer_line<D: Desk>(alloc: Global, desk: &mut D, line: &[u8]) -> Result<LineAnswer, Fault>
    ensures answer { (D.seen desk.new).corruptions ≡ 0
        → IfOk result (λ given. given ≡ answer_to (D.seen desk.old).state line.now) }
    ensures state { (D.seen desk.new).corruptions ≡ 0
        → OnOk result ((D.seen desk.new).state ≡ state_after (D.seen desk.old).state line.now) }
    ensures unchanged { (D.seen desk.new).defects ≡ 0
        → OnErr result ((D.seen desk.new).state ≡ (D.seen desk.old).state) }
    ensures corruptions_stay { (D.seen desk.new).corruptions ≡ 0
        → (D.seen desk.old).corruptions ≡ 0 }
    ensures unasked { (reason : _) → request_in line.now ≡ Err reason
        → IfErr result (λ fault. fault ≡ Fault.Memory) }
    ensures told { (D.seen desk.old).refusals ≡ 0 → IsTold result (D.seen desk.new).refusals }
    ensures works { (D.seen desk.new).corruptions ≡ 0 → (D.seen desk.old).defects ≡ 0
        → OnOk result ((D.seen desk.new).defects ≡ 0) }
    ensures crash { (D.seen desk.new).corruptions ≡ 0 → (D.seen desk.old).defects ≡ 0
        → FindsEither (D.leaves desk.new) (D.seen desk.old).state
        (state_after (D.seen desk.old).state line.now) }
    ensures stays { (D.seen desk.new).corruptions ≡ 0 → (D.seen desk.old).defects ≡ 0
        → StaysSure (D.seen desk.old) (D.seen desk.new) }
{
    match read_line(alloc, line) {
        Ok(request) => Ok(LineAnswer::Decided(desk.apply(alloc, &request)?)),
        Err(Unread::Unreadable(reason)) => Ok(LineAnswer::Unreadable(reason)),
        Err(Unread::Memory) => Err(Fault::Memory),
    }
}

/// Writes a text and a line feed.
fn write_line<W: Write>(writer: &mut W, text: &[u8]) -> Result<(), WriteFault>
    ensures written { OnOk result
        (Appends (W.contents writer.old) (W.contents writer.new) (text.now ++ 10 ∷ [])) }
    ensures prefix { OnErr result
        (AppendsPrefix (W.contents writer.old) (W.contents writer.new) (text.now ++ 10 ∷ [])) }
{
    write_whole(writer, text)?;
    write_whole(writer, b"\n")
}

/// Answers one line with one line, or passes it over where it is empty.
fn answer_next<D: Desk, W: Write>(
    alloc: Global,
    desk: &mut D,
    writer: &mut W,
    tally: &mut Tally,
    line: &[u8],
) -> Result<(), LinesFault>
    requires { tally.old.good + tally.old.bad + 1 < 2 ^ 64 }
    ensures answered { (D.seen desk.new).corruptions ≡ 0
        → AnswersNext line.now (D.seen desk.old).state (D.seen desk.new) tally.old tally.new
        (W.contents writer.old) (W.contents writer.new) result }
    ensures found { (D.seen desk.new).corruptions ≡ 0 → (D.seen desk.old).defects ≡ 0
        → FindsNext line.now (D.seen desk.old).state (D.leaves desk.new) result }
    ensures desk { LeavesDesk (D.seen desk.old) (D.seen desk.new) result }
    ensures count { OnOk result
        (tally.new.good + tally.new.bad ≤ tally.old.good + tally.old.bad + 1) }
    ensures kinds { IfErr result (λ fault. fault ≢ Reading) }
    ensures unasked { (reason : _) → request_in line.now ≡ Err reason
        → IfErr result (λ fault. fault ≢ LinesFault.Store) }
{
    if line.is_empty() {
        return Ok(());
    }
    let answer = answer_line(alloc, desk, line)?;
    write_line(writer, answer.text().as_str().as_bytes())?;
    if answer.is_good() {
        tally.good += 1;
    } else {
        tally.bad += 1;
    }
    Ok(())
}

/// Answers the lines of an input in turn, those that aren't empty.
fn answer_lines<D: Desk, W: Write>(
    alloc: Global,
    desk: &mut D,
    input: &[u8],
    writer: &mut W,
) -> Result<Tally, LinesFault>
    requires { length input.now + 3 < 2 ^ 64 }
    ensures answered { (D.seen desk.new).corruptions ≡ 0
        → AnswersFirst (D.seen desk.old) (D.seen desk.new) (W.contents writer.old)
        (W.contents writer.new) (D.leaves desk.new) result (lines_of input.now) }
    ensures desk { LeavesDesk (D.seen desk.old) (D.seen desk.new) result }
    ensures kinds { IfErr result (λ fault. fault ≢ Reading) }
{
    let mut tally = Tally { good: 0, bad: 0 };
    for line in Lines(Some(input)) {
        answer_next(alloc, desk, writer, &mut tally, line)?;
    }
    Ok(tally)
}

/// Reads the whole of an input and then answers its lines in turn, each that isn't empty with one
/// line. A line is a holder's code, one space and the body of a request, and ends with a line feed,
/// which the last may lack.
///
/// # Errors
///
/// See [`LinesFault`]: after `Read` nothing was done; after `Store` and `Memory` the lines before
/// stand and their outcomes are written whole; after `Write` the request of that line stands too,
/// and a beginning of the outcomes is written. `Store` is answered exactly where the store refused
/// a call. An input of more than [`MOST_INPUT`] bytes is a `Read`, or a `Memory` where there is no
/// room for what is read of it, and none of its lines is applied. Nothing is flushed.
///
/// `runs`, whether or not the reader tells its bytes: it gave them to its end, and the first of
/// their lines were answered, and all of them after an `Ok`. The outcomes of just these lines are
/// written, their state stands, what a registry promises after any list of requests holds of their
/// requests ([`lines_are_a_run`](crate::lines_are_a_run) says that lines are a run of their
/// requests), and a crash finds them carried out, and at most one line more. Or it gave a beginning,
/// and nothing was applied or written.
///
/// `desk`: however it ends, there is no defect unless a call below failed. So after a `Memory` with
/// no failed call the state is known, and a crash finds it.
///
/// # Example
///
/// ```rust,ignore
/// let mut input = "ISSUER {\"command\":\"open_holder\",\"holder\":\"SUN\",\"key\":\"s1\",\"name\":\"Sun Power\"}\n".as_bytes();
/// let mut output = Vec::new(alloc);
/// let tally = run_lines(alloc, &mut registry, &mut input, &mut output)?;
/// // `output` has the line {"outcome":"accepted","reply":{}}; tally.good is 1 and tally.bad is 0.
/// ```
pub fn run_lines<D: Desk, R: Read, W: Write>(
    alloc: Global,
    desk: &mut D,
    reader: &mut R,
    writer: &mut W,
) -> Result<Tally, LinesFault>
    ensures runs { RunsLines (D.seen desk.old) (D.seen desk.new) (W.contents writer.old)
        (W.contents writer.new) (D.leaves desk.new) result (R.remaining reader.old)
        (R.remaining reader.new) 16_777_216 }
    ensures desk { LeavesDesk (D.seen desk.old) (D.seen desk.new) result }
{
    let input = read_whole(alloc, reader, MOST_INPUT)?;
    answer_lines(alloc, desk, &input, writer)
}
