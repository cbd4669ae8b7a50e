//! An import of declarations.
ghost use Rattle.std.specs.Prelude.{◌≡◌, IfOk, OnErr};
ghost use Rattle.goo_desk_backend.specs.Backends.{report_of};
ghost use Rattle.goo_desk_backend.specs.Durable.{FindsAmong};
ghost use Rattle.goo_desk_answers.specs.Responds.{Does, Stopped, IsGiven, import_response};
ghost use Rattle.goo_desk_answers.specs.Reliable.{StaysReliable};
ghost use Rattle.goo_desk_routes.specs.declared.task.Task.TheVariants.{Import};

use crate::answered::Answer;
use crate::dispatch::answer_fixed;
use goo_desk_backend::{Backend, Imported};
use goo_desk_responses::{Content, Status, long_response};
use goo_types::fault::Fault;
use goo_types::holder_code::HolderCode;
use std::alloc::{AllocError, Global};

/// The answer that reports an import.
fn answer_imported(alloc: Global, imported: Imported) -> Result<Answer, AllocError>
    ensures { IfOk result
        (λ answer. IsGiven
        (import_response (report_of imported)) answer.status answer.bytes.items) }
{
    match imported {
        Imported::Report(report) => {
            let bytes = long_response(Status::Done, Content::Text, report)?;
            Ok(Answer {
                status: Status::Done,
                bytes,
            })
        }
        Imported::NoHeader => answer_fixed(alloc, Status::BadRequest, None, false),
    }
}

/// The answer to a caller's declarations.
pub(crate) fn answer_import<D: Backend>(
    alloc: Global,
    desk: &mut D,
    caller: &HolderCode,
    body: &[u8],
) -> Result<Answer, Fault>
    ensures answered { (D.seen desk.new).corruptions ≡ 0
        → IfOk result
        (λ answer. Does D.shows D.imports
        (D.seen desk.old).state caller.now body.now Import answer.status answer.bytes.items
        (D.seen desk.new).state) }
    ensures stopped { (D.seen desk.new).defects ≡ 0
        → OnErr result
        (Stopped D.imports D.begins (D.seen desk.old).state caller.now body.now
        (D.seen desk.new).state) }
    ensures reliable { StaysReliable (D.seen desk.old) (D.seen desk.new) result }
    ensures crash { (D.seen desk.new).corruptions ≡ 0 → (D.seen desk.old).defects ≡ 0
        → FindsAmong (D.leaves desk.new) (D.begins (D.seen desk.old).state caller.now body.now) }
{
    let imported = desk.import(alloc, caller, body)?;
    Ok(answer_imported(alloc, imported)?)
}
