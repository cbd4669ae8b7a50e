//! What is told of a registry of version 1 before it becomes one of version 2.

use goo_store_opening::renewal::RenewalObserver;
use sqlite::{Alter, Connection};
use std::io::Write;

/// The line on standard error that tells whose records are about to be changed, and into what. A
/// write that fails is passed over: what becomes of the registry doesn't hang on who looks.
#[derive(Drop)]
pub struct RenewalLine<'a, T> {
    /// Where the registry lies.
    path: &'a str,
    errors: T,
}

impl<'a, T: Write> RenewalLine<'a, T> {
    /// A line on these errors, for the registry at this path.
    pub fn new(path: &'a str, errors: T) -> RenewalLine<'a, T> {
        RenewalLine { path, errors }
    }
}

impl<'a, T: Write> RenewalObserver for RenewalLine<'a, T> {
    fn begins<S: Alter>(&mut self, _conn: &Connection<S>) {
        for part in ["goo: ", self.path, ": version 1 becomes version 2\n"] {
            if self.errors.write_all(part.as_bytes()).is_err() {
                return;
            }
        }
    }
}
