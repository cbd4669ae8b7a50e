//! A model of a log with its registry in one process: what holds after every schedule of steps and
//! crashes.
//!
//! Entries that wait are written together and synced once, then applied and answered in turn. A
//! crash may lose any last lines that were not synced: entries, or outcomes. A start applies again
//! each entry that has no outcome. So an entry may be applied only behind outcomes that stay
//! whatever comes: where the outcome before is another one, as a refusal, its line is synced first.
//! Without that a refused entry could be accepted when it is applied again.
#![tactic(auto)]

ghost use Rattle.std.specs.Prelude.{Bool, List};
ghost use Rattle.goo_log_machine.specs.Machine.{Event, World, run, start, entries};
ghost use Rattle.goo_log_machine.specs.Holding.{IsLawful, Holds, IsEndOf};
ghost use Rattle.goo_log_machine.specs.Schedules.{TwoTogether, OneLineLost, BothAgain};
ghost use Rattle.goo_log_machine.specs.Schedules.{NothingBehindARefusal, RefusalStays};
ghost use Rattle.goo_log_machine.specs.Schedules.{TwiceIsNotOnce, WithdrawnIsGone};

/// What holds of a log and its registry, however they are stopped.
///
/// - `holds`: the registry is in the state of all entries that have an outcome, or of some first
///   ones more of those that wait. Each recorded outcome is that of its own entry in the state of
///   those before it, or what the entry is told when it comes again. Each answer that was sent is
///   so too, and its entry is in the log, synced, with all those before it.
/// - `grows`: no entry that was synced is ever changed or lost.
/// - `keeps`: no outcome that was synced is.
pub fn log_holds<S, Q, O>()
    ensures holds { (next : S → Q → S) (outcome : S → Q → O) (stays : O → Bool) (again : O → O)
        → IsLawful next outcome stays again → (s : S) (events : List (Event Q))
        → Holds next outcome stays again s (run next outcome stays events (start s)) }
    ensures grows { (next : S → Q → S) (outcome : S → Q → O) (stays : O → Bool)
        (w : World S Q O) (events : List (Event Q))
        → IsEndOf (entries w) (entries (run next outcome stays events w)) }
    ensures keeps { (next : S → Q → S) (outcome : S → Q → O) (stays : O → Bool)
        (w : World S Q O) (events : List (Event Q))
        → IsEndOf w.done (run next outcome stays events w).done }
{}

/// Schedules that were worked out by hand.
pub fn schedules_run()
    ensures together { TwoTogether }
    ensures lost { OneLineLost }
    ensures again { BothAgain }
    ensures behind { NothingBehindARefusal }
    ensures stays { RefusalStays }
    ensures twice { TwiceIsNotOnce }
    ensures withdrawn { WithdrawnIsGone }
{}
