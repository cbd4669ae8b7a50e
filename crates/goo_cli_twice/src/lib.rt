//! Two runs over files, one after the other, with a crash or none in between: a law on what `run`
//! and `declare` say of each run.
//!
//! A run that the disk stopped is one that ended: its calls failed from there on, and its clauses
//! say what a crash finds then. So the law is of a run that a crash cut off at any call.
#![tactic(auto)]

ghost use Rattle.goo_cli_twice.specs.Twice.{TwoRuns, TwoTables};

use sqlite_disk::Disk;

/// The law, over any disks. Its premises are clauses of `run_in_files` and `declare_in_files`: of a
/// first run that opened a registry, and of a second one over files that hold what a crash, or
/// none, may have left of those of the first.
///
/// - `lines`: the second run begins with the lines that the first one answered, or with these and
///   the next one. So a line that was acknowledged is there once, the line in doubt once or not at
///   all. Both runs are one run of these lines and of those of the second: its state, its text, its
///   promise, and what a crash finds. Where the second run is sent the first one's lines again, they
///   are as if they were sent once, if what was refused is refused again.
/// - `tables`: the same of two imports of declarations. A table that is sent again whole is as if
///   it were sent once.
pub fn two_runs<D: Disk, E: Disk>()
    ensures lines { TwoRuns D.Disk E.Disk }
    ensures tables { TwoTables D.Disk E.Disk }
{}
