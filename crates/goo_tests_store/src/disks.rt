//! FaultyDisks in memory.

use crate::lapse::Lapse;
use sqlite::Files;
use sqlite_disk::{Crash, Fuse, Memory};
use std::alloc::Global;

/// A disk in memory that stops for good after some calls, or refuses one write. All disks of these
/// tests are of this type, as each type more has the registry and the database compiled once more.
pub type Faulty = Lapse<Fuse<Memory>>;

/// The two disks of a database. A struct of its own, as each call that passes their type on costs a
/// check five seconds.
#[derive(Drop)]
pub struct FaultyDisks {
    pub files: Files<Faulty>,
}

/// An empty disk in memory that stops after so many calls, or refuses the write after so many.
fn faulty(alloc: Global, calls: u64, writes: u64) -> Faulty {
    Lapse::new(Fuse::new(Memory::new(alloc), calls), writes)
}

/// Two empty disks in memory, which stop after so many calls; that of the log refuses the write
/// after so many.
fn made(alloc: Global, log_calls: u64, db_calls: u64, writes: u64) -> FaultyDisks {
    FaultyDisks {
        files: Files {
            log: faulty(alloc, log_calls, writes),
            db: faulty(alloc, db_calls, u64::MAX),
        },
    }
}

/// Two empty disks in memory that work.
pub fn blank(alloc: Global) -> FaultyDisks {
    made(alloc, u64::MAX, u64::MAX, u64::MAX)
}

/// Two empty disks in memory, each of which stops after so many calls.
pub fn stopping(alloc: Global, log_calls: u64, db_calls: u64) -> FaultyDisks {
    made(alloc, log_calls, db_calls, u64::MAX)
}

/// Two empty disks in memory, the log of which refuses the write after so many.
pub fn lapsing(alloc: Global, writes: u64) -> FaultyDisks {
    made(alloc, u64::MAX, u64::MAX, writes)
}

/// What a crash leaves of the disks.
pub fn crashed(disks: FaultyDisks) -> FaultyDisks {
    let Files { mut log, mut db } = disks.files;
    log.crash();
    db.crash();
    FaultyDisks {
        files: Files { log, db },
    }
}
