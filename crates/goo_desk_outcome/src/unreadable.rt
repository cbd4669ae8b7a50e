//! The text that stands for an outcome where there is no request.
ghost use Rattle.std.specs.Prelude.{◌≡◌};
ghost use Rattle.goo_desk_outcome.specs.Unreadable.{fault_word, unreadable_text};

use crate::pushes::ROOM;
use arrayvec::ArrayString;

/// Why there is no request: the first of these that holds.
#[derive(Clone, Copy, Debug, PartialEq, Eq)]
pub enum Unreadable {
    /// The caller is missing or no holder code.
    Caller,
    /// The body is no JSON text.
    NotJson,
    /// A key is missing or too many, or a value is of the wrong kind.
    Shape,
    /// A value is refused by its reader.
    Field,
}

impl Unreadable {
    /// The word for it.
    pub fn word(self) -> &'static str
        ensures { result.now ≡ fault_word self }
    {
        match self {
            Unreadable::Caller => "Caller",
            Unreadable::NotJson => "NotJson",
            Unreadable::Shape => "Shape",
            Unreadable::Field => "Field",
        }
    }
}

/// The text that stands for an outcome where there is no request. It takes no memory.
pub fn unreadable_text(fault: Unreadable) -> ArrayString<ROOM>
    ensures { result.bytes ≡ unreadable_text fault }
{
    let mut out = ArrayString::new();
    out.push_str("{\"fault\":\"");
    out.push_str(fault.word());
    out.push_str("\",\"outcome\":\"unreadable\"}");
    out
}
