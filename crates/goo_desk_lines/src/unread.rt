//! Why no request was read from a line.
ghost use Rattle.std.specs.Prelude.{◌≡◌};
ghost use Rattle.goo_desk_lines.specs.Faults.{of_body};

use goo_desk_body::BodyFault;
use goo_desk_outcome::Unreadable;

/// Why no request was read from a line.
#[derive(Debug, Clone, Copy, PartialEq, Eq)]
pub enum Unread {
    /// The line states none.
    Unreadable(Unreadable),
    /// There was no room to read it.
    Memory,
}

impl From<BodyFault> for Unread {
    ghost from_gives = { λ of why. why ≡ of_body of };

    fn from(fault: BodyFault) -> Self {
        match fault {
            BodyFault::NotJson => Unread::Unreadable(Unreadable::NotJson),
            BodyFault::Shape => Unread::Unreadable(Unreadable::Shape),
            BodyFault::Field => Unread::Unreadable(Unreadable::Field),
            BodyFault::Memory => Unread::Memory,
        }
    }
}
