//! What a registry shows, as texts.
ghost use Rattle.std.specs.Prelude.{◌≡◌};
ghost use Rattle.goo_core_shelf.specs.Crash.{FindsOnly};
ghost use Rattle.goo_registry.specs.Desks.{seen_of};
ghost use Rattle.goo_registry.specs.Shown.{split_denial as split_denial_stated};
ghost use Rattle.goo_desk_routes.specs.declared.task.Subject.TheVariants.{Statement, Certificate};
ghost use Rattle.goo_desk_routes.specs.declared.task.Subject.TheVariants.{Cancellation};
ghost use Rattle.goo_desk_routes.specs.declared.task.Subject.TheVariants.{Notice as SentNotice};
ghost use Rattle.goo_desk_routes.specs.declared.task.Subject.TheVariants.{Audit};
ghost use Rattle.goo_desk_backend.specs.Backends.{Shows};
ghost use Rattle.goo_desk_backend.specs.Results.{shown_as};
ghost use Rattle.goo_desk_backend.specs.Showing.{shown_by};

use crate::backend::Shown;
use crate::certificate::certificate_text;
use goo_core_reads::denial::Denial;
use goo_core_shelf::shelf::Shelf;
use goo_desk_routes::Subject;
use goo_files::{ShowFault, write_audit, write_cancellation, write_statement};
use goo_notice_text::write;
use goo_registry::{ReadFault, Registry};
use goo_types::account_no::AccountNo;
use goo_types::act_no::ActNo;
use goo_types::fault::Fault;
use goo_types::holder_code::HolderCode;
use goo_types::number::Number;
use std::alloc::Global;

/// What was read, apart from the faults of what keeps the records.
fn split_denial<T: Drop>(read: Result<T, ReadFault>) -> Result<Result<T, Denial>, Fault>
    ensures { result ≡ split_denial_stated read }
{
    match read {
        Ok(shown) => Ok(Ok(shown)),
        Err(ReadFault::NotAllowed) => Ok(Err(Denial::NotAllowed)),
        Err(ReadFault::Unknown) => Ok(Err(Denial::Unknown)),
        Err(ReadFault::Store) => Err(Fault::Store),
        Err(ReadFault::Memory) => Err(Fault::Memory),
    }
}

/// What is shown of a text that was written in memory. A write there fails only for want of it.
fn shown_from(bytes: Vec<u8>, written: Result<(), ShowFault>) -> Result<Shown, Fault>
    ensures { result ≡ shown_as bytes written }
{
    match written {
        Ok(()) => Ok(Shown::Text(bytes)),
        Err(ShowFault::NotAllowed) => Ok(Shown::Denied(Denial::NotAllowed)),
        Err(ShowFault::Unknown) => Ok(Shown::Denied(Denial::Unknown)),
        Err(ShowFault::Store) => Err(Fault::Store),
        Err(ShowFault::Write) | Err(ShowFault::Memory) => Err(Fault::Memory),
    }
}

/// The statement of an account.
fn show_statement<S: Shelf>(
    alloc: Global,
    registry: &mut Registry<S>,
    caller: &HolderCode,
    account: AccountNo,
) -> Result<Shown, Fault>
    ensures shows { Shows shown_by (seen_of (S.seen registry.old.shelf))
        (seen_of (S.seen registry.new.shelf)) caller.now (Statement account) result }
    ensures crash { (S.seen registry.new.shelf).corruptions ≡ 0
        → (S.seen registry.old.shelf).defects ≡ 0
        → FindsOnly (S.seen registry.new.shelf).leaves (S.seen registry.old.shelf).state }
{
    let mut text = Vec::new(alloc);
    let written = write_statement(registry, caller, account, &mut text);
    shown_from(text, written)
}

/// A certificate.
fn show_certificate<S: Shelf>(
    alloc: Global,
    registry: &mut Registry<S>,
    caller: &HolderCode,
    number: Number,
) -> Result<Shown, Fault>
    ensures shows { Shows shown_by (seen_of (S.seen registry.old.shelf))
        (seen_of (S.seen registry.new.shelf)) caller.now (Certificate number) result }
    ensures crash { (S.seen registry.new.shelf).corruptions ≡ 0
        → (S.seen registry.old.shelf).defects ≡ 0
        → FindsOnly (S.seen registry.new.shelf).leaves (S.seen registry.old.shelf).state }
{
    match split_denial(registry.place_of(alloc, caller, number))? {
        Ok((lot, place)) => Ok(Shown::Text(certificate_text(alloc, number, &lot, &place)?)),
        Err(denial) => Ok(Shown::Denied(denial)),
    }
}

/// The document of a cancellation.
fn show_cancellation<S: Shelf>(
    alloc: Global,
    registry: &mut Registry<S>,
    caller: &HolderCode,
    act: ActNo,
) -> Result<Shown, Fault>
    ensures shows { Shows shown_by (seen_of (S.seen registry.old.shelf))
        (seen_of (S.seen registry.new.shelf)) caller.now (Cancellation act) result }
    ensures crash { (S.seen registry.new.shelf).corruptions ≡ 0
        → (S.seen registry.old.shelf).defects ≡ 0
        → FindsOnly (S.seen registry.new.shelf).leaves (S.seen registry.old.shelf).state }
{
    let mut text = Vec::new(alloc);
    let written = write_cancellation(alloc, registry, caller, act, &mut text);
    shown_from(text, written)
}

/// A notice that was sent.
fn show_notice<S: Shelf>(
    alloc: Global,
    registry: &mut Registry<S>,
    caller: &HolderCode,
    act: ActNo,
) -> Result<Shown, Fault>
    ensures shows { Shows shown_by (seen_of (S.seen registry.old.shelf))
        (seen_of (S.seen registry.new.shelf)) caller.now (SentNotice act) result }
    ensures crash { (S.seen registry.new.shelf).corruptions ≡ 0
        → (S.seen registry.old.shelf).defects ≡ 0
        → FindsOnly (S.seen registry.new.shelf).leaves (S.seen registry.old.shelf).state }
{
    match split_denial(registry.notice(alloc, caller, act))? {
        Ok(notice) => Ok(Shown::Text(write(alloc, &notice)?)),
        Err(denial) => Ok(Shown::Denied(denial)),
    }
}

/// The audit.
fn show_audit<S: Shelf>(
    alloc: Global,
    registry: &mut Registry<S>,
    caller: &HolderCode,
) -> Result<Shown, Fault>
    ensures shows { Shows shown_by (seen_of (S.seen registry.old.shelf))
        (seen_of (S.seen registry.new.shelf)) caller.now Audit result }
    ensures crash { (S.seen registry.new.shelf).corruptions ≡ 0
        → (S.seen registry.old.shelf).defects ≡ 0
        → FindsOnly (S.seen registry.new.shelf).leaves (S.seen registry.old.shelf).state }
{
    let mut text = Vec::new(alloc);
    let written = write_audit(alloc, registry, caller, &mut text);
    shown_from(text, written)
}

/// What a caller is shown of a subject.
pub(crate) fn show_subject<S: Shelf>(
    alloc: Global,
    registry: &mut Registry<S>,
    caller: &HolderCode,
    subject: Subject,
) -> Result<Shown, Fault>
    ensures shows { Shows shown_by (seen_of (S.seen registry.old.shelf))
        (seen_of (S.seen registry.new.shelf)) caller.now subject result }
    ensures crash { (S.seen registry.new.shelf).corruptions ≡ 0
        → (S.seen registry.old.shelf).defects ≡ 0
        → FindsOnly (S.seen registry.new.shelf).leaves (S.seen registry.old.shelf).state }
{
    match subject {
        Subject::Statement(account) => show_statement(alloc, registry, caller, account),
        Subject::Certificate(number) => show_certificate(alloc, registry, caller, number),
        Subject::Cancellation(act) => show_cancellation(alloc, registry, caller, act),
        Subject::Notice(act) => show_notice(alloc, registry, caller, act),
        Subject::Audit => show_audit(alloc, registry, caller),
    }
}
