//! A journal: lines of entries and outcomes, of which each names what came before.
#![tactic(auto)]

ghost use Rattle.goo_log_journal.specs.Hashes.{OneHashOneJournal};

mod line_fault;
mod reading;
mod taking;

pub use line_fault::LineFault;
pub use reading::{Reading, Waiting};
pub use taking::take;

/// Two journals whose last entries have one hash have the same entries up to there, or two texts
/// have one hash.
pub fn one_hash_one_journal()
    ensures { OneHashOneJournal }
{}
