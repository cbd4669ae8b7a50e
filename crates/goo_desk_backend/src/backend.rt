use goo_core_reads::denial::Denial;
use goo_core_shelf::desk::Desk;
use goo_desk_routes::Subject;
use goo_types::fault::Fault;
use goo_types::holder_code::HolderCode;
use std::alloc::Global;

/// What a caller is shown.
#[derive(Drop)]
pub enum Shown {
    /// This text.
    Text(Vec<u8>),
    /// Nothing.
    Denied(Denial),
}

/// What an import of declarations comes to.
#[derive(Drop)]
pub enum Imported {
    /// A line for each row.
    Report(Vec<u8>),
    /// Nothing: the first record isn't the header.
    NoHeader,
}

/// A desk that also shows what its registry knows, as texts, and takes in declarations.
pub trait Backend: Desk {
    ghost use Rattle.std.specs.Prelude.{◌≡◌, ℕ, List, Option, Result};
    ghost use Rattle.goo_spec.specs.State.{State};
    ghost use Rattle.goo_desk_routes.specs.declared.task.Subject.{Subject};
    ghost use Rattle.goo_core_reads.specs.declared.denial.Denial.{Denial};
    ghost use Rattle.goo_core_shelf.specs.Crash.{FindsOnly};
    ghost use Rattle.goo_desk_backend.specs.Backends.{Shows, Imports};
    ghost use Rattle.goo_desk_backend.specs.Durable.{FindsAmong};

    /// Whether a caller is shown this of a subject.
    ghost shows: { State → List ℕ → Subject → Result (List ℕ) Denial → Type 0 };

    /// Whether an import comes to this report, none where there is no header, and to this state.
    ghost imports: { State → List ℕ → List ℕ → Option (List ℕ) → State → Type 0 };

    /// Whether the first rows of an import come to this state.
    ghost begins: { State → List ℕ → List ℕ → State → Type 0 };

    /// What a caller is shown of a subject. It changes nothing, and a crash finds what was there.
    fn show(&mut self, alloc: Global, caller: &HolderCode, subject: Subject) -> Result<Shown, Fault>
        ensures shows { Shows shows (Self.seen self.old)
            (Self.seen self.new) caller.now subject result }
        ensures crash { (Self.seen self.new).corruptions ≡ 0 → (Self.seen self.old).defects ≡ 0
            → FindsOnly (Self.leaves self.new) (Self.seen self.old).state };

    /// Takes in declarations in CSV. After a fault the rows before it stand. Whatever is answered,
    /// a crash finds some first rows applied; after an answer it finds all of them (`settled`).
    fn import(&mut self, alloc: Global, caller: &HolderCode, rows: &[u8]) -> Result<Imported, Fault>
        ensures imports { Imports imports begins (Self.seen self.old)
            (Self.seen self.new) caller.now rows.now result }
        ensures crash { (Self.seen self.new).corruptions ≡ 0 → (Self.seen self.old).defects ≡ 0
            → FindsAmong (Self.leaves self.new)
            (begins (Self.seen self.old).state caller.now rows.now) };
}
