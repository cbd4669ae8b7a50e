//! Files that nobody works with any more, and whether their log may go.
ghost use Rattle.std.specs.Prelude.{◌≡◌, ℕ, List, length, slice_index, IfSome, IsTrue};
ghost use Rattle.sqlite_wal.specs.Reads.{AreClean};
ghost use Rattle.sqlite_wal.specs.Files.{outcomes};
ghost use Rattle.sqlite_wal.specs.Recovery.{Image};
ghost use Rattle.goo_cli_disk.specs.Spare.{IsSpare, NeedNoLog, StayAs, StaysAs};

use sqlite::Files;
use sqlite_disk::Disk;

/// How many bytes the head of a log and that of a frame have. Recovery takes nothing from a shorter
/// log.
const LEAST_LOG: usize = 56;

/// The files of a registry that nobody works with any more, while nobody else can open them.
#[derive(Drop)]
pub struct Settled<D: Disk> {
    pub files: Files<D>,
    /// Whether the log may be removed.
    pub is_log_spare: bool,
}

/// How long a log is, now and after a crash; None where a call fails.
fn lasting_len<D: Disk>(log: &mut D) -> Option<usize>
    ensures left { IfSome result
        (λ len. IsTrue (D.Disk.is_clean log.new) → (bytes : List ℕ) → D.Disk.may_leave log.new bytes
        → length bytes ≡ len) }
    ensures stays { StaysAs D.Disk log.old log.new }
{
    if !log.may_be_used() {
        return None;
    }
    let len = log.len().ok()?;
    log.sync().ok()?;
    Some(len)
}

/// Whether a database file has its first byte, which is written last, after a crash too.
fn is_begun<D: Disk>(db: &mut D) -> bool
    ensures left { IsTrue result → IsTrue (D.Disk.is_clean db.new) → (bytes : List ℕ)
        → D.Disk.may_leave db.new bytes → slice_index bytes 0 ≡ 83 }
    ensures stays { StaysAs D.Disk db.old db.new }
{
    if !db.may_be_used() {
        return false;
    }
    let mut first = [0];
    match db.read_at(0, &mut first) {
        Ok(()) => first == [b'S'] && db.sync().is_ok(),
        Err(_) => false,
    }
}

/// Whether nothing of a log is used that lies beside this database file, after a crash too.
fn is_unused<D: Disk>(log: &mut D, db: &mut D) -> bool
    ensures spare { IsTrue result → AreClean D.Disk log.new db.new → (image : Image)
        → outcomes D.Disk log.new db.new image → IsSpare image }
    ensures log { StaysAs D.Disk log.old log.new }
    ensures db { StaysAs D.Disk db.old db.new }
{
    let Some(len) = lasting_len(log) else {
        return false;
    };
    if len == 0 {
        return true;
    }
    len < LEAST_LOG && is_begun(db)
}

/// The files, and whether nothing of their log is used. Both are read and synced, and nothing is
/// written.
pub fn settle_files<D: Disk>(files: Files<D>) -> Settled<D>
    ensures spare { IsTrue result.is_log_spare → AreClean D.Disk result.files.log result.files.db
        → NeedNoLog D.Disk result.files }
    ensures stays { StayAs D.Disk (files.log, files.db) result.files }
{
    let Files { mut log, mut db } = files;
    let is_log_spare = is_unused(&mut log, &mut db);
    Settled {
        files: Files { log, db },
        is_log_spare,
    }
}
