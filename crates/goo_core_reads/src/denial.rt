//! Why something isn't shown to a caller.

use std::{error, fmt};

/// Why something isn't shown.
#[derive(Clone, Copy, Debug, PartialEq, Eq)]
pub enum Denial {
    /// The caller may not see it.
    NotAllowed,
    /// There is no such thing, or none that the caller may know of.
    Unknown,
}

impl fmt::Display for Denial {
    fn fmt<W: fmt::Write>(&self, f: &mut fmt::Formatter<W>) -> fmt::Result {
        match self {
            Self::NotAllowed => f.write_str("the caller may not see it"),
            Self::Unknown => f.write_str(
                "there is no such thing, or none that the caller may know of",
            ),
        }
    }
}

impl error::Error for Denial {}
