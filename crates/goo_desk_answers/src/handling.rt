//! What a whole request is to be answered with.
ghost use Rattle.std.specs.Prelude.{◌≡◌, option_map};
ghost use Rattle.goo_desk_heads.specs.Requests.{parts_of};
ghost use Rattle.goo_desk_answers.specs.Handling.{handling_of, caller_by, handling_by_caller};
ghost use Rattle.goo_desk_answers.specs.Handling.{handling_by_route, handling_by_task};

use goo_desk_heads::{Method, Received};
use goo_desk_responses::Status;
use goo_desk_routes::{Met, Routes, Task, task_of};
use goo_types::holder_code::HolderCode;

/// What a whole request is to be answered with.
#[derive(Clone, Copy)]
pub enum Handling {
    /// A response that says no more than this status, and the method of the route where the request
    /// has another.
    Fixed(Status, Option<Method>),
    /// What comes of a caller's task.
    Own(HolderCode, Task),
}

/// The caller that the only field for it names.
fn caller_in(text: Option<&[u8]>) -> Option<HolderCode>
    ensures { result ≡ caller_by (option_map (λ text. text.now) text.entry) }
{
    HolderCode::read(text?).ok()
}

/// What a caller's task is answered with.
fn for_task(caller: HolderCode, task: Option<Task>) -> Handling
    ensures { result ≡ handling_by_task caller task }
{
    match task {
        Some(task) => Handling::Own(caller, task),
        None => Handling::Fixed(Status::NotFound, None),
    }
}

/// What a request that meets a route by its method is answered with.
fn for_caller(request: &Received<'_>, met: &Met<'_>) -> Handling
    ensures { result
        ≡ handling_by_caller (met.now.route, met.now.part.now)
        (caller_by (parts_of request.now).caller) }
{
    match caller_in(request.caller) {
        Some(caller) => for_task(caller, task_of(met.route, met.part)),
        None => Handling::Fixed(Status::Forbidden, None),
    }
}

/// What a request is answered with, by the route that it meets.
fn for_route(request: &Received<'_>, met: &Option<Met<'_>>) -> Handling
    ensures { result
        ≡ handling_by_route (parts_of request.now)
        (option_map (λ m. (m.route, m.part.now)) met.now) }
{
    match met {
        None => Handling::Fixed(Status::NotFound, None),
        Some(met) => {
            let method = met.route.method();
            if method.is(request.method) {
                for_caller(request, met)
            } else {
                Handling::Fixed(Status::MethodNotAllowed, Some(method))
            }
        }
    }
}

/// What a whole request is to be answered with.
#[tactic(auto, unfolding(crate::specs::Handling::handling_of))]
pub(crate) fn handling_for(routes: &Routes, request: &Received<'_>) -> Handling
    ensures { result ≡ handling_of (parts_of request.now) }
{
    for_route(request, &routes.find(request.target))
}
