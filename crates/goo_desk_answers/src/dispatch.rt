//! The answer to all the bytes of a stream: the request that they are goes to what answers it.
ghost use Rattle.std.specs.Prelude.{◌≡◌, ◌≢◌, IfOk, OnErr};
ghost use Rattle.goo_desk_heads.specs.Heads.{Begins};
ghost use Rattle.goo_desk_heads.specs.Requests.{seen as parts_seen, parts_of};
ghost use Rattle.goo_desk_responses.specs.Responses.{response_text, fixed};
ghost use Rattle.goo_core_shelf.specs.Crash.{FindsNoMore};
ghost use Rattle.goo_spec.specs.Sound.{IsSound};
ghost use Rattle.goo_desk_backend.specs.Tables.{ImportsAreRuns};
ghost use Rattle.goo_desk_answers.specs.Brought.{BringsBy, BringsIn, FindsLed, FindsLeft};
ghost use Rattle.goo_desk_answers.specs.Brought.{KeepsPromise, MayBring};
ghost use Rattle.goo_desk_answers.specs.Responds.{Does, Handles, RespondsTo, Responds, Stops};
ghost use Rattle.goo_desk_answers.specs.Responds.{StopsIn, StopsAt, Fails, status_of_head};
ghost use Rattle.goo_desk_answers.specs.Reliable.{StaysReliable};

use crate::answered::Answer;
use crate::apply::answer_apply;
use crate::handling::{Handling, handling_for};
use crate::import::answer_import;
use crate::show::answer_show;
use goo_desk_backend::Backend;
use goo_desk_heads::{
    Front, HeadFault, Method, Received, RefusedHead, is_for_head, read_request, request_in,
};
use goo_desk_responses::{Status, fixed_response};
use goo_desk_routes::{Routes, Task};
use goo_types::fault::Fault;
use goo_types::holder_code::HolderCode;
use std::alloc::{AllocError, Global};

/// The status of a request that is refused for its head.
fn status_of(why: HeadFault) -> Status
    ensures { result ≡ status_of_head why }
{
    match why {
        HeadFault::BadRequest => Status::BadRequest,
        HeadFault::TooLarge => Status::TooLarge,
        HeadFault::NotImplemented => Status::NotImplemented,
    }
}

/// An answer that says no more than its status.
pub(crate) fn answer_fixed(
    alloc: Global,
    status: Status,
    allow: Option<Method>,
    for_head: bool,
) -> Result<Answer, AllocError>
    ensures status { IfOk result (λ answer. answer.status ≡ status) }
    ensures bytes { IfOk result
        (λ answer. answer.bytes.items ≡ response_text for_head (fixed status allow)) }
{
    let text = fixed_response(status, allow, for_head);
    let bytes = Vec::from_slice(alloc, text.as_str().as_bytes())?;
    Ok(Answer { status, bytes })
}

/// The answer to a caller's task.
fn answer_task<D: Backend>(
    alloc: Global,
    desk: &mut D,
    caller: &HolderCode,
    body: &[u8],
    task: Task,
) -> Result<Answer, Fault>
    ensures answered { (D.seen desk.new).corruptions ≡ 0
        → IfOk result
        (λ answer. Does D.shows D.imports
        (D.seen desk.old).state caller.now body.now task answer.status answer.bytes.items
        (D.seen desk.new).state) }
    ensures stopped { (D.seen desk.new).defects ≡ 0
        → OnErr result
        (Stops D.imports D.begins (D.seen desk.old).state caller.now body.now task
        (D.seen desk.new).state) }
    ensures reliable { StaysReliable (D.seen desk.old) (D.seen desk.new) result }
    ensures crash { ImportsAreRuns D.imports D.begins → (D.seen desk.new).corruptions ≡ 0
        → (D.seen desk.old).defects ≡ 0
        → FindsLed (D.leaves desk.new) (D.seen desk.old).state (MayBring caller.now body.now task) }
{
    match task {
        Task::Apply => answer_apply(alloc, desk, caller, body),
        Task::Import => answer_import(alloc, desk, caller, body),
        Task::Show(subject) => answer_show(alloc, desk, caller, body, subject),
    }
}

/// The answer to a whole request.
fn answer_handled<D: Backend>(
    alloc: Global,
    desk: &mut D,
    request: &Received<'_>,
    handling: Handling,
) -> Result<Answer, Fault>
    ensures answered { (D.seen desk.new).corruptions ≡ 0
        → IfOk result
        (λ answer. Handles D.shows D.imports (D.seen desk.old).state
        (parts_of request.now) handling answer.status answer.bytes.items (D.seen desk.new).state) }
    ensures stopped { (D.seen desk.new).defects ≡ 0
        → OnErr result
        (StopsIn D.imports D.begins (D.seen desk.old).state (parts_of request.now) handling
        (D.seen desk.new).state) }
    ensures reliable { StaysReliable (D.seen desk.old) (D.seen desk.new) result }
    ensures crash { ImportsAreRuns D.imports D.begins → (D.seen desk.new).corruptions ≡ 0
        → (D.seen desk.old).defects ≡ 0
        → FindsLed (D.leaves desk.new) (D.seen desk.old).state
        (BringsBy MayBring (parts_of request.now) handling) }
{
    match handling {
        Handling::Fixed(status, allow) => {
            Ok(answer_fixed(alloc, status, allow, is_for_head(request.method))?)
        }
        Handling::Own(caller, task) => answer_task(alloc, desk, &caller, request.body, task),
    }
}

/// The answer to what all the bytes of a stream come to.
fn answer_request<D: Backend>(
    alloc: Global,
    routes: &Routes,
    desk: &mut D,
    request: &Result<Received<'_>, RefusedHead>,
) -> Result<Answer, Fault>
    ensures answered { (D.seen desk.new).corruptions ≡ 0
        → IfOk result
        (λ answer. RespondsTo D.shows D.imports (D.seen desk.old).state
        (parts_seen request.now) answer.status answer.bytes.items (D.seen desk.new).state) }
    ensures stopped { (D.seen desk.new).defects ≡ 0
        → OnErr result
        (StopsAt D.imports D.begins (D.seen desk.old).state (parts_seen request.now)
        (D.seen desk.new).state) }
    ensures reliable { StaysReliable (D.seen desk.old) (D.seen desk.new) result }
    ensures crash { ImportsAreRuns D.imports D.begins → (D.seen desk.new).corruptions ≡ 0
        → (D.seen desk.old).defects ≡ 0
        → FindsLed (D.leaves desk.new) (D.seen desk.old).state
        (BringsIn MayBring (parts_seen request.now)) }
{
    match request {
        Err(refused) => {
            let status = status_of(refused.why);
            Ok(answer_fixed(alloc, status, None, refused.is_head)?)
        }
        Ok(request) => {
            let handling = handling_for(routes, request);
            answer_handled(alloc, desk, request, handling)
        }
    }
}

/// The answer to all the bytes that a stream holds, which begin with what is known, by the routes of
/// the registry, once what keeps the records answers.
///
/// `shut`: where a call below failed before, nothing is put where a crash finds it. So a server may
/// go on after a `Memory` under which a call failed too.
///
/// # Errors
///
/// As for [`answer`].
pub fn answer_by_routes<D: Backend>(
    alloc: Global,
    routes: &Routes,
    desk: &mut D,
    bytes: &[u8],
    front: &Front,
) -> Result<Answer, Fault>
    requires { Begins bytes.now front.now }
    ensures answered { (D.seen desk.new).corruptions ≡ 0
        → IfOk result
        (λ answer. Responds D.shows D.imports
        (D.seen desk.old).state bytes.now answer.status answer.bytes.items
        (D.seen desk.new).state) }
    ensures stopped { (D.seen desk.new).defects ≡ 0
        → OnErr result
        (Fails D.imports D.begins (D.seen desk.old).state bytes.now (D.seen desk.new).state) }
    ensures reliable { StaysReliable (D.seen desk.old) (D.seen desk.new) result }
    ensures promised { ImportsAreRuns D.imports D.begins → IsSound (D.seen desk.old).state
        → (D.seen desk.new).corruptions ≡ 0
        → KeepsPromise bytes.now (D.seen desk.old).state (D.seen desk.new) result }
    ensures crash { ImportsAreRuns D.imports D.begins → (D.seen desk.new).corruptions ≡ 0
        → (D.seen desk.old).defects ≡ 0
        → FindsLeft (D.leaves desk.new) (D.seen desk.old).state bytes.now }
    ensures shut { (D.seen desk.new).corruptions ≡ 0 → (D.seen desk.old).defects ≢ 0
        → FindsNoMore (D.leaves desk.old) (D.leaves desk.new) }
{
    let request = request_in(bytes, front);
    desk.probe()?;
    answer_request(alloc, routes, desk, &request)
}

/// The answer to all the bytes that a stream holds. The routes are made for it alone.
///
/// `promised`: what a registry promises after any list of requests holds of the requests that the
/// bytes bring, and after a fault of those that stand. Its first premise is that the desk's imports
/// are runs, as a registry's are ([`imports_are_runs`](goo_desk_backend::imports_are_runs)).
///
/// `stays`: there is no defect unless a call below failed. So after a `Memory` with no failed call
/// the state is known, and a crash finds it.
/// `crash`: whatever is answered, a crash finds the state that some of the bytes' requests lead to.
///
/// # Errors
///
/// `Store` where what keeps the records failed, `Memory` where there was no room. Nothing changed
/// then, but for an import of declarations: the rows before the fault stand, and the file is to be
/// sent again.
pub fn answer<D: Backend>(alloc: Global, desk: &mut D, bytes: &[u8]) -> Result<Answer, Fault>
    ensures answered { (D.seen desk.new).corruptions ≡ 0
        → IfOk result
        (λ answer. Responds D.shows D.imports
        (D.seen desk.old).state bytes.now answer.status answer.bytes.items
        (D.seen desk.new).state) }
    ensures stopped { (D.seen desk.new).defects ≡ 0
        → OnErr result
        (Fails D.imports D.begins (D.seen desk.old).state bytes.now (D.seen desk.new).state) }
    ensures reliable { StaysReliable (D.seen desk.old) (D.seen desk.new) result }
    ensures promised { ImportsAreRuns D.imports D.begins → IsSound (D.seen desk.old).state
        → (D.seen desk.new).corruptions ≡ 0
        → KeepsPromise bytes.now (D.seen desk.old).state (D.seen desk.new) result }
    ensures crash { ImportsAreRuns D.imports D.begins → (D.seen desk.new).corruptions ≡ 0
        → (D.seen desk.old).defects ≡ 0
        → FindsLeft (D.leaves desk.new) (D.seen desk.old).state bytes.now }
{
    let request = read_request(bytes);
    let routes = Routes::new(alloc)?;
    answer_request(alloc, &routes, desk, &request)
}
