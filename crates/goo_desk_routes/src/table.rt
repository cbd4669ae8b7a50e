//! The table of routes.
ghost use Rattle.std.specs.Prelude.{◌≡◌, ◌==◌, option_map, IfOk};
ghost use Rattle.std.specs.List.{list_any};
ghost use Rattle.goo_desk_routes.specs.Routes.{goo_desk_routes, met_by as met, found_by};
ghost use Rattle.goo_desk_routes.specs.Routes.{is_path as is_path_stated};

use crate::route::Route;
use matchit::{InsertError, Router};
use std::alloc::{AllocError, Global};

/// The route that a path meets, and the part of the path that names something.
#[derive(Debug, Clone, Copy, Drop)]
pub struct Met<'p> {
    /// The route.
    pub route: Route,
    /// That part, which is empty where the route has none.
    pub part: &'p [u8],
}

/// The routes of the registry, in a router that finds them. They are made once, and serve any
/// number of requests.
#[derive(Drop)]
pub struct Routes {
    router: Router<Route>,
    ghost known: { router ≡ goo_desk_routes },
}

/// A router of the registry's routes.
fn make_router(alloc: Global) -> Result<Router<Route>, InsertError>
    ensures { IfOk result (λ rows. rows ≡ goo_desk_routes) }
{
    let mut router = Router::new(alloc);
    router.insert("/v1/requests", Route::Requests)?;
    router.insert("/v1/declarations", Route::Declarations)?;
    router.insert("/v1/accounts/{a}/statement", Route::Statement)?;
    router.insert("/v1/certificates/{n}", Route::Certificate)?;
    router.insert("/v1/cancellations/{k}", Route::Cancellation)?;
    router.insert("/v1/notices/{k}", Route::Notice)?;
    router.insert("/v1/audit", Route::Audit)?;
    Ok(router)
}

/// The route that a path meets in a router.
fn met_by<'p>(routes: &Router<Route>, path: &'p str) -> Option<Met<'p>>
    ensures { option_map (λ m. (m.route, m.part.now)) result ≡ met routes.now path.now }
{
    match routes.at(path) {
        Ok(found) => Some(Met {
            route: *found.value,
            part: found.value.part(path.as_bytes()),
        }),
        Err(_) => None,
    }
}

/// Whether a text has a question mark.
fn has_question_mark(text: &[u8]) -> bool
    ensures { result ≡ list_any (λ c. c == 63) text.now }
{
    text.iter().any(|byte| *byte == b'?')
}

/// Whether a target is a path: it begins with a slash and has no question mark (the origin form of
/// RFC 9112, section 3.2.1, without a query).
fn is_path(target: &[u8]) -> bool
    ensures { result ≡ is_path_stated target.now }
{
    match target {
        [first, rest @ ..] => *first == b'/' && !has_question_mark(rest),
        [] => false,
    }
}

impl Routes {
    /// The routes of the registry.
    ///
    /// # Errors
    ///
    /// `AllocError` where memory for them was refused.
    pub fn new(alloc: Global) -> Result<Routes, AllocError> {
        match make_router(alloc) {
            Ok(router) => Ok(Routes { router }),
            Err(_) => Err(AllocError),
        }
    }

    /// The route that a target meets, if it meets one.
    #[tactic(auto, unfolding(crate::specs::Routes::found_by))]
    pub fn find<'p>(&self, target: &'p str) -> Option<Met<'p>>
        ensures { option_map (λ m. (m.route, m.part.now)) result ≡ found_by target.now }
    {
        if !is_path(target.as_bytes()) {
            return None;
        }
        met_by(&self.router, target)
    }
}
