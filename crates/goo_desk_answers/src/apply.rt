//! A request that is applied.
ghost use Rattle.std.specs.Prelude.{◌≡◌, ◌≤◌, [], IfOk, OnOk, OnErr, vec_len, vec_capacity};
ghost use Rattle.goo_desk_body.specs.Body.{body_of};
ghost use Rattle.goo_desk_lines.specs.Lines.{body_reading};
ghost use Rattle.goo_desk_lines.specs.Reading.{Reads};
ghost use Rattle.goo_core_shelf.specs.Crash.{FindsEither};
ghost use Rattle.goo_desk_answers.specs.Responds.{Does, applied, state_applied, status_of_refusal};
ghost use Rattle.goo_desk_answers.specs.Responds.{status_of_outcome, status_of_answer};
ghost use Rattle.goo_desk_answers.specs.Reliable.{StaysReliable};
ghost use Rattle.goo_desk_routes.specs.declared.task.Task.TheVariants.{Apply};

use crate::answered::Answer;
use arrayvec::ArrayString;
use goo_desk_backend::Backend;
use goo_desk_body::read_command;
use goo_desk_lines::{LineAnswer as Given, Unread};
use goo_desk_responses::{Content, ROOM, Status, short_response};
use goo_types::fault::Fault;
use goo_types::holder_code::HolderCode;
use goo_types::outcome::Outcome;
use goo_types::refusal::Refusal;
use goo_types::request::Request;
use std::alloc::Global;

/// The status of a refusal.
fn status_of_refused(refusal: &Refusal) -> Status
    ensures { result ≡ status_of_refusal refusal.now }
{
    match refusal {
        Refusal::NotAllowed => Status::Forbidden,
        _ => Status::Conflict,
    }
}

/// The status of an outcome.
fn status_of(outcome: &Outcome) -> Status
    ensures { result ≡ status_of_outcome outcome.now }
{
    match outcome {
        Outcome::Accepted(_) => Status::Done,
        Outcome::Repeated(_) => Status::Done,
        Outcome::Refused(refusal) => status_of_refused(refusal),
    }
}

/// The status of an answer.
fn status_for(given: &Given) -> Status
    ensures { result ≡ status_of_answer given.now }
{
    match given {
        Given::Decided(outcome) => status_of(outcome),
        Given::Unreadable(_) => Status::BadRequest,
    }
}

/// The request of a caller that a body states.
fn read_body(alloc: Global, caller: &HolderCode, body: &[u8]) -> Result<Request, Unread>
    ensures { Reads result (body_reading (body_of caller.now body.now)) }
{
    Ok(read_command(alloc, caller, body)?)
}

/// Applies the request that a body states.
#[tactic(auto, unfolding(crate::specs::Responds::applied, crate::specs::Responds::state_applied))]
fn apply_body<D: Backend>(
    alloc: Global,
    desk: &mut D,
    caller: &HolderCode,
    body: &[u8],
) -> Result<Given, Fault>
    ensures given { (D.seen desk.new).corruptions ≡ 0
        → IfOk result (λ given. given ≡ applied (D.seen desk.old).state caller.now body.now) }
    ensures state { (D.seen desk.new).corruptions ≡ 0
        → OnOk result
        ((D.seen desk.new).state ≡ state_applied (D.seen desk.old).state caller.now body.now) }
    ensures unchanged { (D.seen desk.new).defects ≡ 0
        → OnErr result ((D.seen desk.new).state ≡ (D.seen desk.old).state) }
    ensures reliable { StaysReliable (D.seen desk.old) (D.seen desk.new) result }
    ensures crash { (D.seen desk.new).corruptions ≡ 0 → (D.seen desk.old).defects ≡ 0
        → FindsEither (D.leaves desk.new) (D.seen desk.old).state
        (state_applied (D.seen desk.old).state caller.now body.now) }
{
    match read_body(alloc, caller, body) {
        Ok(request) => Ok(Given::Decided(desk.apply(alloc, &request)?)),
        Err(Unread::Unreadable(reason)) => Ok(Given::Unreadable(reason)),
        Err(Unread::Memory) => Err(Fault::Memory),
    }
}

/// A text in room that was taken before.
fn filled(mut room: Vec<u8>, text: &ArrayString<ROOM>) -> Vec<u8>
    requires empty { room.items ≡ [] }
    requires len { vec_len room ≡ 0 }
    requires capacity { 512 ≤ vec_capacity room }
    ensures { result.items ≡ text.now.bytes }
{
    match room.extend_from_slice(text.as_str().as_bytes()) {
        Ok(()) => room,
        Err(_) => room,
    }
}

/// The answer to a caller's request. Room for it is taken before the request is applied, so a fault
/// means that nothing changed.
pub(crate) fn answer_apply<D: Backend>(
    alloc: Global,
    desk: &mut D,
    caller: &HolderCode,
    body: &[u8],
) -> Result<Answer, Fault>
    ensures answered { (D.seen desk.new).corruptions ≡ 0
        → IfOk result
        (λ answer. Does D.shows D.imports
        (D.seen desk.old).state caller.now body.now Apply answer.status answer.bytes.items
        (D.seen desk.new).state) }
    ensures unchanged { (D.seen desk.new).defects ≡ 0
        → OnErr result ((D.seen desk.new).state ≡ (D.seen desk.old).state) }
    ensures reliable { StaysReliable (D.seen desk.old) (D.seen desk.new) result }
    ensures crash { (D.seen desk.new).corruptions ≡ 0 → (D.seen desk.old).defects ≡ 0
        → FindsEither (D.leaves desk.new) (D.seen desk.old).state
        (state_applied (D.seen desk.old).state caller.now body.now) }
{
    let room = Vec::with_capacity(alloc, ROOM)?;
    let given = apply_body(alloc, desk, caller, body)?;
    let status = status_for(&given);
    let response = short_response(status, Content::Json, given.text().as_str());
    Ok(Answer {
        status,
        bytes: filled(room, &response),
    })
}
