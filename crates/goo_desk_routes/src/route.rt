//! The routes, each with its method and its path.
ghost use Rattle.std.specs.Prelude.{◌≡◌};
ghost use Rattle.goo_desk_routes.specs.Routes.{method_of, before as before_part};
ghost use Rattle.goo_desk_routes.specs.Routes.{after as after_part, part_of};

use goo_desk_heads::Method;

/// What a path asks for.
#[derive(Debug, Clone, Copy, PartialEq, Eq, Drop)]
pub enum Route {
    /// A request is to be applied.
    Requests,
    /// Declarations are to be imported.
    Declarations,
    /// The statement of an account.
    Statement,
    /// A certificate.
    Certificate,
    /// The document of a cancellation.
    Cancellation,
    /// A notice that was sent.
    Notice,
    /// The audit.
    Audit,
}

impl Route {
    /// The method that the route takes.
    pub fn method(self) -> Method
        ensures { result ≡ method_of self }
    {
        match self {
            Route::Requests | Route::Declarations => Method::Post,
            Route::Statement
            | Route::Certificate
            | Route::Cancellation
            | Route::Notice
            | Route::Audit => Method::Get,
        }
    }

    /// The text before the part of the path that names something: all of the path, where none does.
    fn before(self) -> &'static str
        ensures { result.now ≡ before_part self }
    {
        match self {
            Route::Statement => "/v1/accounts/",
            Route::Certificate => "/v1/certificates/",
            Route::Cancellation => "/v1/cancellations/",
            Route::Notice => "/v1/notices/",
            Route::Requests => "/v1/requests",
            Route::Declarations => "/v1/declarations",
            Route::Audit => "/v1/audit",
        }
    }

    /// The text after it.
    fn after(self) -> &'static str
        ensures { result.now ≡ after_part self }
    {
        match self {
            Route::Statement => "/statement",
            _ => "",
        }
    }

    /// The part of a path that names something: what stands between the two.
    #[tactic(auto, unfolding(crate::specs::Routes::part_of))]
    pub(crate) fn part(self, path: &[u8]) -> &[u8]
        ensures { result.now ≡ part_of self path.now }
    {
        let rest = &path[self.before().len().min(path.len())..];
        &rest[..rest.len().saturating_sub(self.after().len())]
    }
}
