//! Why pieces make no book.

use std::{error, fmt};

/// What is wrong with a list of pieces, and at which index: the least at fault.
#[derive(Clone, Copy, Debug, PartialEq, Eq)]
pub enum BookFault {
    /// The piece's first number is above its last, or they have two codes.
    Backwards(usize),
    /// The piece begins at or before the end of the one before it.
    Overlap(usize),
}

impl fmt::Display for BookFault {
    fn fmt<W: fmt::Write>(&self, f: &mut fmt::Formatter<W>) -> fmt::Result {
        match self {
            Self::Backwards(at) => write!(f, "piece {at} ends before it begins, or has two codes"),
            Self::Overlap(at) => write!(f, "piece {at} begins before the one before it ends"),
        }
    }
}

impl error::Error for BookFault {}
