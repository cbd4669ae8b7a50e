//! Who is told of a renewal.

ghost use Rattle.sqlite.specs.Held.{state as view};
ghost use Rattle.goo_store_opening.specs.FirstTables.{HoldsFirst};

use sqlite::{Alter, Connection};

/// Who wants to know that a registry of version 1 is about to become one of version 2.
pub trait RenewalObserver {
    ghost use Rattle.sqlite.specs.Held.{state as view};
    ghost use Rattle.goo_store_opening.specs.FirstTables.{HoldsFirst};

    /// It begins: the database holds tables of version 1 which keep the rules of their version, and
    /// nothing is changed yet.
    fn begins<S: Alter>(&mut self, conn: &Connection<S>)
        requires first { HoldsFirst (view S.Store conn.now) };
}

/// Nobody wants to know.
#[derive(Drop)]
pub struct NoObserver;

impl RenewalObserver for NoObserver {
    fn begins<S: Alter>(&mut self, _conn: &Connection<S>) {}
}
