//! The methods that routes take.
ghost use Rattle.std.specs.Prelude.{◌≡◌};
ghost use Rattle.std.specs.Str.{bytes_eq};
ghost use Rattle.goo_desk_heads.specs.Methods.{method_word};

/// A method that some route takes.
#[derive(Debug, Clone, Copy, PartialEq, Eq, Drop)]
pub enum Method {
    /// To be shown something.
    Get,
    /// To have something done.
    Post,
}

impl Method {
    /// The word for it.
    pub fn word(self) -> &'static str
        ensures { result.now ≡ method_word self }
    {
        match self {
            Method::Get => "GET",
            Method::Post => "POST",
        }
    }

    /// Whether a text is the word for it, letter by letter.
    pub fn is(self, text: &[u8]) -> bool
        ensures { result ≡ bytes_eq text.now (method_word self) }
    {
        text == self.word().as_bytes()
    }
}
