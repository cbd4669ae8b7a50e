//! The statuses of responses.
ghost use Rattle.std.specs.Prelude.{◌≡◌, ◌≤◌, length};
ghost use Rattle.goo_desk_responses.specs.Responses.{status_code, status_phrase};

use http::StatusCode;

/// The statuses that the desk answers with.
#[derive(Debug, Clone, Copy, PartialEq, Eq, Drop)]
pub enum Status {
    /// 200
    Done,
    /// 400
    BadRequest,
    /// 403
    Forbidden,
    /// 404
    NotFound,
    /// 405
    MethodNotAllowed,
    /// 409
    Conflict,
    /// 413
    TooLarge,
    /// 501
    NotImplemented,
    /// 503
    Unavailable,
}

impl Status {
    /// The status code, as the crate `http` has it.
    pub fn standard(self) -> StatusCode
        ensures { result ≡ status_code self }
    {
        match self {
            Status::Done => StatusCode::OK,
            Status::BadRequest => StatusCode::BAD_REQUEST,
            Status::Forbidden => StatusCode::FORBIDDEN,
            Status::NotFound => StatusCode::NOT_FOUND,
            Status::MethodNotAllowed => StatusCode::METHOD_NOT_ALLOWED,
            Status::Conflict => StatusCode::CONFLICT,
            Status::TooLarge => StatusCode::PAYLOAD_TOO_LARGE,
            Status::NotImplemented => StatusCode::NOT_IMPLEMENTED,
            Status::Unavailable => StatusCode::SERVICE_UNAVAILABLE,
        }
    }

    /// The number that a response states.
    pub fn code(self) -> u16
        ensures { result ≡ status_code self }
    {
        self.standard().as_u16()
    }

    /// The phrase that a response states, by RFC 9110. The crate `http` has an older one for 413.
    pub fn phrase(self) -> &'static str
        ensures value { result.now ≡ status_phrase self }
        ensures short { length result.now ≤ 20 }
    {
        match self {
            Status::Done => "OK",
            Status::BadRequest => "Bad Request",
            Status::Forbidden => "Forbidden",
            Status::NotFound => "Not Found",
            Status::MethodNotAllowed => "Method Not Allowed",
            Status::Conflict => "Conflict",
            Status::TooLarge => "Content Too Large",
            Status::NotImplemented => "Not Implemented",
            Status::Unavailable => "Service Unavailable",
        }
    }
}
