//! Disks in memory, which fail where a test wants it.

ghost use Rattle.std.specs.Prelude.{◌≡◌, ◌+◌, ◌&&◌, not, false};
ghost use Rattle.sqlite_disk.specs.Disk.{CountsFault};
ghost use Rattle.sqlite_disk.specs.Refusal.{finds_no_room};

use sqlite::Files;
use sqlite_disk::{Crash, Disk, Memory, Tally};
use std::alloc::Global;
use std::io;
use std::process::Abort;

/// A disk that fails for good after some calls: at each, or at each write alone.
#[derive(Drop)]
pub struct FailingDisk<D: Disk> {
    inner: D,
    /// How many of the calls that count come before it fails.
    calls_left: u64,
    /// Whether writes alone count, and fail then.
    writes_alone: bool,
    /// How many calls have failed so.
    refused: u64,
    sync_refused: bool,
}

impl<D: Disk> FailingDisk<D> {
    /// A disk that works.
    fn new(inner: D) -> FailingDisk<D> {
        FailingDisk {
            inner,
            calls_left: u64::MAX,
            writes_alone: false,
            refused: 0,
            sync_refused: false,
        }
    }

    /// From now on it fails after so many calls, or after so many writes.
    fn fail_after(&mut self, calls: u64, writes_alone: bool) {
        self.calls_left = calls;
        self.writes_alone = writes_alone;
    }
}

/// A call is passed on, or fails, if it counts.
fn pass(counts: bool, calls_left: &mut u64, refused: &mut u64) -> io::Result<()>
    ensures faults { CountsFault result refused.old refused.new }
    ensures kind { finds_no_room result ≡ false }
{
    if !counts {
        return Ok(());
    }
    let Some(left) = calls_left.checked_sub(1) else {
        *refused = refused.saturating_add(1);
        return Err(io::Error::other("the disk fails"));
    };
    *calls_left = left;
    Ok(())
}

impl<D: Disk> Disk for FailingDisk<D> {
    ghost seen = { λ disk. D.Disk.seen disk.inner };

    ghost may_leave = { λ disk. D.Disk.may_leave disk.inner };

    ghost is_usable = { λ disk. D.Disk.is_usable disk.inner && not disk.sync_refused };

    ghost faults = { λ disk. D.Disk.faults disk.inner + disk.refused };

    ghost tally_of = { λ disk. D.Disk.tally_of disk.inner };

    ghost is_rotten = { λ disk. D.Disk.is_rotten disk.inner };

    ghost key_of = { λ disk. D.Disk.key_of disk.inner };

    ghost is_clean = { λ disk. D.Disk.is_clean disk.inner };

    ghost is_fair = { λ disk. D.Disk.is_fair disk.inner };

    ghost fair_if_clean = { λ disk. D.Disk.fair_if_clean disk.inner };

    ghost seen_may_stay = { λ disk. D.Disk.seen_may_stay disk.inner };

    ghost is_mixing = { λ disk. D.Disk.is_mixing disk.inner };

    fn mixes(&self) -> bool {
        self.inner.mixes()
    }

    fn key(&self) -> u64 {
        self.inner.key()
    }

    fn tally(&self) -> Tally {
        self.inner.tally()
    }

    fn may_be_used(&self) -> bool {
        self.inner.may_be_used() && !self.sync_refused
    }

    fn len(&mut self) -> io::Result<usize> {
        pass(!self.writes_alone, &mut self.calls_left, &mut self.refused)?;
        self.inner.len()
    }

    fn read_at(&mut self, at: usize, buf: &mut [u8]) -> io::Result<()> {
        pass(!self.writes_alone, &mut self.calls_left, &mut self.refused)?;
        self.inner.read_at(at, buf)
    }

    fn read_checked(&mut self, key: u64, want: u64, at: usize, buf: &mut [u8]) -> io::Result<()> {
        pass(!self.writes_alone, &mut self.calls_left, &mut self.refused)?;
        self.inner.read_checked(key, want, at, buf)
    }

    fn write_at(&mut self, at: usize, bytes: &[u8]) -> io::Result<()> {
        pass(true, &mut self.calls_left, &mut self.refused)?;
        self.inner.write_at(at, bytes)
    }

    fn set_len(&mut self, len: usize) -> io::Result<()> {
        pass(true, &mut self.calls_left, &mut self.refused)?;
        self.inner.set_len(len)
    }

    fn sync(&mut self) -> io::Result<()> {
        if let Err(error) = pass(!self.writes_alone, &mut self.calls_left, &mut self.refused) {
            self.sync_refused = true;
            return Err(error);
        }
        self.inner.sync()
    }
}

/// The machine comes back, and the disk works.
impl<D: Crash> Crash for FailingDisk<D> {
    fn crash(&mut self) {
        self.inner.crash();
        self.calls_left = u64::MAX;
        self.writes_alone = false;
        self.sync_refused = false;
    }
}

/// The two disks of a database. A struct of its own, as each call that passes their type on costs a
/// check seconds.
#[derive(Drop)]
pub struct Disks {
    pub files: Files<FailingDisk<Memory>>,
}

/// What both disks hold.
#[derive(Drop)]
pub struct Contents {
    log: Vec<u8>,
    db: Vec<u8>,
}

/// What bytes there are.
fn copied(rt: &impl Abort, alloc: Global, bytes: &[u8]) -> Vec<u8> {
    let mut copy = Vec::new(alloc);
    copy.extend_from_slice(bytes).expect(rt, "memory");
    copy
}

impl Disks {
    /// Two empty disks.
    pub fn blank(alloc: Global) -> Disks {
        Disks {
            files: Files {
                log: FailingDisk::new(Memory::new(alloc)),
                db: FailingDisk::new(Memory::new(alloc)),
            },
        }
    }

    /// Disks that stop, that of the log after so many calls, and that of the database file after so
    /// many.
    pub fn stopping(self, log_calls: u64, db_calls: u64) -> Disks {
        let Files { mut log, mut db } = self.files;
        log.fail_after(log_calls, false);
        db.fail_after(db_calls, false);
        Disks {
            files: Files { log, db },
        }
    }

    /// Disks to which nothing can be written any more.
    pub fn full(self) -> Disks {
        let Files { mut log, mut db } = self.files;
        log.fail_after(0, true);
        db.fail_after(0, true);
        Disks {
            files: Files { log, db },
        }
    }

    /// The database file alone: its log is removed.
    pub fn without_log(self, alloc: Global) -> Disks {
        let Files { log: _, db } = self.files;
        Disks {
            files: Files {
                log: FailingDisk::new(Memory::new(alloc)),
                db,
            },
        }
    }

    /// Whether there is nothing in the log.
    pub fn has_no_log(&self) -> bool {
        self.files.log.inner.bytes().is_empty()
    }

    /// What a crash leaves, on disks that work.
    pub fn crashed(self) -> Disks {
        let Files { mut log, mut db } = self.files;
        log.crash();
        db.crash();
        Disks {
            files: Files { log, db },
        }
    }

    /// What they hold.
    pub fn contents(&self, rt: &impl Abort, alloc: Global) -> Contents {
        Contents {
            log: copied(rt, alloc, self.files.log.inner.bytes()),
            db: copied(rt, alloc, self.files.db.inner.bytes()),
        }
    }

    /// Whether they hold just this.
    pub fn hold(&self, contents: &Contents) -> bool {
        let has_log = self.files.log.inner.bytes() == contents.log.as_slice();
        has_log && self.files.db.inner.bytes() == contents.db.as_slice()
    }
}
