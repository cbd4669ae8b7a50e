//! Certificates counted by where they are.
ghost use Rattle.std.specs.Prelude.{◌≡◌, ◌+◌, ◌^◌, ◌<◌, ◌≤◌};
ghost use Rattle.goo_files_documents.specs.Runs.{count_of};
ghost use Rattle.goo_files_documents.specs.Counts.{no_counts, with_run, all_of};

use crate::counts::Counts;
use goo_types::piece::Piece;
use goo_types::place::Place;

impl Counts {
    /// No certificates.
    pub fn none() -> Counts
        ensures { result ≡ no_counts }
    {
        Counts {
            held: 0,
            cancelled: 0,
            expired: 0,
            withdrawn: 0,
            exported: 0,
        }
    }

    /// Counts those of one more run.
    pub fn add(&mut self, run: &Piece)
        requires room { all_of self.old + count_of run.now < 2 ^ 64 }
        ensures counts { self.new ≡ with_run self.old run.now }
        ensures all { all_of self.new ≡ all_of self.old + count_of run.now }
    {
        let count = run.last.get().saturating_sub(run.first.get()) + 1;
        match run.place {
            Place::Held(_) => self.held += count,
            Place::Cancelled(_, _) => self.cancelled += count,
            Place::Expired(_) => self.expired += count,
            Place::Withdrawn(_, _) => self.withdrawn += count,
            Place::Exported(_, _) => self.exported += count,
        }
    }
}
