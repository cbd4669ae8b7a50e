//! What is shown.
ghost use Rattle.std.specs.Prelude.{◌≡◌, IfOk, OnErr};
ghost use Rattle.goo_desk_backend.specs.Backends.{text_shown};
ghost use Rattle.goo_core_shelf.specs.Crash.{FindsOnly};
ghost use Rattle.goo_desk_answers.specs.Responds.{Does, IsGiven, content_of as content_stated};
ghost use Rattle.goo_desk_answers.specs.Responds.{status_of_denial, show_response};
ghost use Rattle.goo_desk_answers.specs.Reliable.{StaysReliable};
ghost use Rattle.goo_desk_routes.specs.declared.task.Task.TheVariants.{Show};

use crate::answered::Answer;
use crate::dispatch::answer_fixed;
use goo_core_reads::denial::Denial;
use goo_desk_backend::{Backend, Shown};
use goo_desk_responses::{Content, Status, long_response};
use goo_desk_routes::Subject;
use goo_types::fault::Fault;
use goo_types::holder_code::HolderCode;
use std::alloc::{AllocError, Global};

/// What the text of a subject is.
fn content_of(subject: &Subject) -> Content
    ensures { result ≡ content_stated subject.now }
{
    match subject {
        Subject::Statement(_) | Subject::Cancellation(_) | Subject::Audit => Content::Text,
        Subject::Certificate(_) | Subject::Notice(_) => Content::Json,
    }
}

/// The status of a denial.
fn status_of(denial: Denial) -> Status
    ensures { result ≡ status_of_denial denial }
{
    match denial {
        Denial::NotAllowed => Status::Forbidden,
        Denial::Unknown => Status::NotFound,
    }
}

/// The answer that shows something.
fn answer_shown(alloc: Global, subject: &Subject, shown: Shown) -> Result<Answer, AllocError>
    ensures { IfOk result
        (λ answer. IsGiven
        (show_response subject.now (text_shown shown)) answer.status answer.bytes.items) }
{
    match shown {
        Shown::Text(text) => {
            let bytes = long_response(Status::Done, content_of(subject), text)?;
            Ok(Answer {
                status: Status::Done,
                bytes,
            })
        }
        Shown::Denied(denial) => answer_fixed(alloc, status_of(denial), None, false),
    }
}

/// The answer to a caller that asks to be shown something.
pub(crate) fn answer_show<D: Backend>(
    alloc: Global,
    desk: &mut D,
    caller: &HolderCode,
    body: &[u8],
    subject: Subject,
) -> Result<Answer, Fault>
    ensures answered { (D.seen desk.new).corruptions ≡ 0
        → IfOk result
        (λ answer. Does D.shows D.imports (D.seen desk.old).state caller.now body.now
        (Show subject) answer.status answer.bytes.items (D.seen desk.new).state) }
    ensures unchanged { (D.seen desk.new).defects ≡ 0
        → OnErr result ((D.seen desk.new).state ≡ (D.seen desk.old).state) }
    ensures reliable { StaysReliable (D.seen desk.old) (D.seen desk.new) result }
    ensures crash { (D.seen desk.new).corruptions ≡ 0 → (D.seen desk.old).defects ≡ 0
        → FindsOnly (D.leaves desk.new) (D.seen desk.old).state }
{
    let shown = desk.show(alloc, caller, subject)?;
    Ok(answer_shown(alloc, &subject, shown)?)
}
