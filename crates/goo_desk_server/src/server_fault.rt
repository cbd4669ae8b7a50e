//! Why a server ended.

use std::{error, fmt};

/// Why a server ended before it had served all its connections.
#[derive(Debug, Clone, Copy, PartialEq, Eq, Drop)]
pub enum ServerFault {
    /// The line that tells where it listens was not written.
    Write,
    /// No connection could be accepted.
    Accept,
    /// What keeps the records failed.
    Store,
    /// There was no room for the routes. Nobody was told that it listens.
    Memory,
}

impl fmt::Display for ServerFault {
    fn fmt<W: fmt::Write>(&self, f: &mut fmt::Formatter<W>) -> fmt::Result {
        match self {
            Self::Write => f.write_str("the line that tells the port was not written"),
            Self::Accept => f.write_str("no connection could be accepted"),
            Self::Store => f.write_str("the records failed"),
            Self::Memory => f.write_str("out of memory"),
        }
    }
}

impl error::Error for ServerFault {}
