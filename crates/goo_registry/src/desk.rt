//! A registry as a desk.
ghost use Rattle.std.specs.Prelude.{⊤};
ghost use Rattle.goo_core_shelf.specs.Shelf.{LeavesNoMore, Looks};
ghost use Rattle.goo_registry.specs.Applying.{Applies};
ghost use Rattle.goo_registry.specs.Desks.{seen_of};

use crate::registry::Registry;
use goo_core_shelf::desk::Desk;
use goo_core_shelf::shelf::Shelf;
use goo_types::fault::Fault;
use goo_types::outcome::Outcome;
use goo_types::request::Request;
use std::alloc::Global;

/// What probes the records, by a registry.
fn probe_by<S: Shelf>(registry: &mut Registry<S>) -> Result<(), Fault>
    ensures looks { Looks (S.seen registry.old.shelf) (S.seen registry.new.shelf) result (λ _. ⊤) }
    ensures leaves { LeavesNoMore (S.seen registry.old.shelf) (S.seen registry.new.shelf) }
{
    registry.probe()
}

/// What applies one request, by a registry.
pub(crate) fn apply_by<S: Shelf>(
    registry: &mut Registry<S>,
    alloc: Global,
    request: &Request,
) -> Result<Outcome, Fault>
    ensures { Applies (S.seen registry.old.shelf) (S.seen registry.new.shelf) result request.now }
{
    registry.apply(alloc, request)
}

impl<S: Shelf> Desk for Registry<S> {
    ghost seen = { λ r. seen_of (S.seen r.shelf) };

    ghost leaves = { λ r. (S.seen r.shelf).leaves };

    fn probe(&mut self) -> Result<(), Fault> {
        probe_by(self)
    }

    fn apply(&mut self, alloc: Global, request: &Request) -> Result<Outcome, Fault> {
        apply_by(self, alloc, request)
    }

    ghost settled = { λ r none. S.settled r.shelf none };
}
