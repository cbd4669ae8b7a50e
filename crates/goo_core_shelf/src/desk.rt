//! What applies requests to a registry.
use goo_types::fault::Fault;
use goo_types::outcome::Outcome;
use goo_types::request::Request;
use std::alloc::Global;

/// What applies requests to a registry, one after another.
pub trait Desk {
    ghost use Rattle.std.specs.Prelude.{◌≡◌, Option};
    ghost use Rattle.goo_spec.specs.State.{State};
    ghost use Rattle.goo_spec.specs.Step.{next};
    ghost use Rattle.goo_core_shelf.specs.Crash.{FindsOnly, FindsNoMore, FindsEither};
    ghost use Rattle.goo_core_shelf.specs.Desk.{Seen, Probes, Applies};

    /// What it knows, and how far what lies below can be relied on.
    ghost seen: { Self → Seen };

    /// Whether the next opening may find this state, or none, where a crash comes at this moment.
    ghost leaves: { Self → Option State → Type 0 };

    /// Whether what lies below still answers. After `Memory` it may have failed too, which the fault
    /// doesn't tell; this call does. It changes nothing, and a crash finds nothing that it would
    /// not have found before, even where a call failed before.
    ///
    /// # Errors
    ///
    /// `Store` where what lies below failed, `Memory` where memory was refused.
    fn probe(&mut self) -> Result<(), Fault>
        ensures probes { Probes (seen self.old) (seen self.new) result }
        ensures crash { (seen self.new).corruptions ≡ 0
            → FindsNoMore (leaves self.old) (leaves self.new) };

    /// Applies one request: the whole of it, or nothing where it is refused or a fault comes. A
    /// crash then finds the state before the request or the one after it, whatever is answered;
    /// after an outcome it finds the one after it (`settled`).
    fn apply(&mut self, alloc: Global, request: &Request) -> Result<Outcome, Fault>
        ensures applies { Applies (seen self.old) (seen self.new) request.now result }
        ensures crash { (seen self.new).corruptions ≡ 0 → (seen self.old).defects ≡ 0
            → FindsEither (leaves self.new) (seen self.old).state
            (next (seen self.old).state request.now) };

    /// While there is no defect, a crash finds the state.
    ghost settled: { (desk : Self) → (seen desk).defects ≡ 0
        → FindsOnly (leaves desk) (seen desk).state };
}
