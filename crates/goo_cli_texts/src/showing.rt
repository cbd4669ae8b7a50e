//! The commands `statement` and `audit`.
ghost use Rattle.std.specs.Prelude.{◌≡◌, [], None};
ghost use Rattle.std.specs.FinMap.{get};
ghost use Rattle.std.specs.Io.Buffered.{writer_buffer, writer_contents};
ghost use Rattle.std.specs.Io.KnownBytes.{Keeps};
ghost use Rattle.goo_core_shelf.specs.Shelf.{IsSafe};
ghost use Rattle.goo_files.specs.Texts.{IsStatement, IsAuditText};
ghost use Rattle.goo_files.specs.Writes.{Began, Wrote};
ghost use Rattle.goo_cli_ending.specs.Endings.{status_of};
ghost use Rattle.goo_cli_texts.specs.Endings.{ending_of_text, IsOfText};

use crate::issuer::issuer;
use goo_cli_ending::{Ending, Failure, NotDone};
use goo_core_shelf::shelf::Shelf;
use goo_files::{ShowFault, write_audit, write_statement};
use goo_registry::Registry;
use goo_types::account_no::AccountNo;
use std::alloc::Global;
use std::io::{BufWriter, Write};

/// How a command ends that wrote a text, whose output went out whole or did not.
fn ending_of(written: Result<(), ShowFault>, flushed: bool) -> Ending
    ensures { result ≡ ending_of_text written flushed }
{
    match written {
        Ok(()) if flushed => Ending::Done,
        Ok(()) => Ending::Failed(Failure::Write),
        Err(ShowFault::NotAllowed | ShowFault::Unknown) => Ending::Denied(NotDone::UnknownAccount),
        Err(ShowFault::Write) => Ending::Failed(Failure::Write),
        Err(ShowFault::Store) => Ending::Failed(Failure::Store),
        Err(ShowFault::Memory) => Ending::Failed(Failure::Memory),
    }
}

/// Writes the statement of an account, and tells how that ends. The output is flushed.
///
/// - `shown`, `flushed`: status 0 only where the whole statement is written after what the writer
///   had, and nothing is left in its buffer.
/// - `unknown`: status 1 only where there is no such account, and nothing is written then.
/// - `begun`: what is written with status 3 is nothing, or a beginning of the statement.
/// - `words`: it ends as a text does.
/// - `rests`: the registry stays as it is.
/// - `safe`: a crash that follows finds it as it was, and finds nothing else, whatever the status.
/// - `corruptions_stay`: what keeps the records returned what was written before, where it did so to
///   the end.
pub fn show_statement<S: Shelf, W: Write + Drop>(
    registry: &mut Registry<S>,
    account: AccountNo,
    writer: &mut BufWriter<W>,
) -> Ending
    ensures shown { (S.seen registry.new.shelf).corruptions ≡ 0 → status_of result ≡ 0
        → Wrote (writer_contents W.contents writer.old) (writer_contents W.contents writer.new)
        (IsStatement (S.seen registry.old.shelf).state account) }
    ensures unknown { (S.seen registry.new.shelf).corruptions ≡ 0 → status_of result ≡ 1
        → get (S.seen registry.old.shelf).state.accounts account ≡ None }
    ensures silent { (S.seen registry.new.shelf).corruptions ≡ 0 → status_of result ≡ 1
        → Keeps (writer_contents W.contents writer.old) (writer_contents W.contents writer.new) }
    ensures begun { (S.seen registry.new.shelf).corruptions ≡ 0
        → (S.seen registry.old.shelf).defects ≡ 0 → status_of result ≡ 3
        → Began (writer_contents W.contents writer.old) (writer_contents W.contents writer.new)
        (IsStatement (S.seen registry.old.shelf).state account) }
    ensures words { IsOfText result }
    ensures flushed { status_of result ≡ 0 → writer_buffer writer.new ≡ [] }
    ensures rests { (S.seen registry.new.shelf).defects ≡ 0
        → (S.seen registry.new.shelf).state ≡ (S.seen registry.old.shelf).state }
    ensures safe { (S.seen registry.new.shelf).corruptions ≡ 0
        → (S.seen registry.old.shelf).defects ≡ 0
        → IsSafe (S.seen registry.new.shelf) (S.seen registry.old.shelf).state }
    ensures corruptions_stay { (S.seen registry.new.shelf).corruptions ≡ 0
        → (S.seen registry.old.shelf).corruptions ≡ 0 }
{
    let written = write_statement(registry, &issuer(), account, writer);
    let flushed = writer.flush().is_ok();
    ending_of(written, flushed)
}

/// Writes the audit of all devices, and tells how that ends. The output is flushed.
///
/// - `shown`, `flushed`: status 0 only where the whole audit is written after what the writer had,
///   and nothing is left in its buffer.
/// - `silent`: with status 1 nothing is written.
/// - `begun`: what is written with status 3 is nothing, or a beginning of the audit.
/// - `words`: it ends as a text does.
/// - `rests`: the registry stays as it is.
/// - `safe`: a crash that follows finds it as it was, and finds nothing else, whatever the status.
/// - `corruptions_stay`: what keeps the records returned what was written before, where it did so to
///   the end.
pub fn show_audit<S: Shelf, W: Write + Drop>(
    alloc: Global,
    registry: &mut Registry<S>,
    writer: &mut BufWriter<W>,
) -> Ending
    ensures shown { (S.seen registry.new.shelf).corruptions ≡ 0 → status_of result ≡ 0
        → Wrote (writer_contents W.contents writer.old) (writer_contents W.contents writer.new)
        (IsAuditText (S.seen registry.old.shelf).state) }
    ensures silent { (S.seen registry.new.shelf).corruptions ≡ 0 → status_of result ≡ 1
        → Keeps (writer_contents W.contents writer.old) (writer_contents W.contents writer.new) }
    ensures begun { (S.seen registry.new.shelf).corruptions ≡ 0
        → (S.seen registry.old.shelf).defects ≡ 0 → status_of result ≡ 3
        → Began (writer_contents W.contents writer.old) (writer_contents W.contents writer.new)
        (IsAuditText (S.seen registry.old.shelf).state) }
    ensures words { IsOfText result }
    ensures flushed { status_of result ≡ 0 → writer_buffer writer.new ≡ [] }
    ensures rests { (S.seen registry.new.shelf).defects ≡ 0
        → (S.seen registry.new.shelf).state ≡ (S.seen registry.old.shelf).state }
    ensures safe { (S.seen registry.new.shelf).corruptions ≡ 0
        → (S.seen registry.old.shelf).defects ≡ 0
        → IsSafe (S.seen registry.new.shelf) (S.seen registry.old.shelf).state }
    ensures corruptions_stay { (S.seen registry.new.shelf).corruptions ≡ 0
        → (S.seen registry.old.shelf).corruptions ≡ 0 }
{
    let written = write_audit(alloc, registry, &issuer(), writer);
    let flushed = writer.flush().is_ok();
    ending_of(written, flushed)
}
