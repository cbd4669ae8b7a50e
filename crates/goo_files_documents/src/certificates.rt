//! How many certificates some runs have.
ghost use Rattle.std.specs.Prelude.{◌≡◌};
ghost use Rattle.goo_types.specs.Piece.{IsRising};
ghost use Rattle.goo_files_documents.specs.Cancellation.{certificates_in as count_in};

use goo_types::piece::Piece;

/// How many certificates runs have that rise. Of others this says nothing.
pub fn certificates_in(runs: &[Piece]) -> u64
    ensures { IsRising runs.now → result ≡ count_in runs.now }
{
    let mut all: u64 = 0;
    for run in runs {
        let last = run.last.get();
        all = all.saturating_add(last.saturating_sub(run.first.get()) + 1);
    }
    all
}
