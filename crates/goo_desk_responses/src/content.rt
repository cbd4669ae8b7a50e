//! The kinds of bodies, and their media types.
ghost use Rattle.std.specs.Prelude.{◌≡◌, ◌≤◌, length};
ghost use Rattle.goo_desk_responses.specs.Responses.{content_type};

/// What a body is.
#[derive(Debug, Clone, Copy, PartialEq, Eq, Drop)]
pub enum Content {
    /// One JSON text.
    Json,
    /// Lines of text.
    Text,
}

impl Content {
    /// The media type of it.
    pub fn media_type(self) -> &'static str
        ensures value { result.now ≡ content_type self }
        ensures short { length result.now ≤ 25 }
    {
        match self {
            Content::Json => "application/json",
            Content::Text => "text/plain; charset=utf-8",
        }
    }
}
