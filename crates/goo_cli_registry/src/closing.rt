//! A registry closed, so that its file alone is the whole of it.
ghost use Rattle.std.specs.Prelude.{◌≡◌, IsTrue};
ghost use Rattle.sqlite.specs.Files.{file_state};
ghost use Rattle.sqlite.specs.State.{HasCleanDisk};
ghost use Rattle.sqlite_wal.specs.Reads.{AreClean};
ghost use Rattle.goo_cli_registry.specs.Closings.{is_whole, files_in, HasSpareLog, IfWhole};
ghost use Rattle.goo_cli_registry.specs.Closings.{IfRefused, IsClean, IsKept, HoldState};
ghost use Rattle.goo_cli_disk.specs.Spare.{NeedNoLog, StayAs};
ghost use Rattle.goo_spec.specs.State.{State};
ghost use Rattle.goo_store.specs.Seen.{seen_by};
ghost use Rattle.goo_cli_registry.specs.Finds.{FindsRight, IfParts};

use goo_cli_disk::settling::{Settled, settle_files};
use goo_store::sql_shelf::SqlShelf;
use sqlite::{FileStore, Files, Leftover};
use sqlite_disk::Disk;

/// What is left of the files of a registry.
pub enum Left<D: Disk> {
    /// The log is copied into the database file, which alone is the registry.
    Whole(Files<D>),
    /// No registry was opened, and nothing was committed.
    Refused(Leftover<D>),
    /// The log was not copied: it belongs to the database file, and the next opening finds what
    /// both hold.
    Parts(Leftover<D>),
}

// Written out, so that no caller proves again how each part is dropped.
impl<D: Disk + Drop> Drop for Left<D> {
    fn drop(self) {
        match self {
            Left::Whole(_files) => {}
            Left::Refused(_left) => {}
            Left::Parts(_left) => {}
        }
    }
}

impl<D: Disk> Left<D> {
    /// Whether the database file alone is the registry.
    pub fn is_whole(&self) -> bool
        ensures { result ≡ is_whole self.now }
    {
        match self {
            Left::Whole(_) => true,
            Left::Refused(_) | Left::Parts(_) => false,
        }
    }

    /// The files, and whether the log may be removed: where it is copied into the database file,
    /// and where nothing of it is used. What was there before the files were opened says nothing of
    /// that, as another program may have committed to the log since.
    ///
    /// - `spare`: the log may go only where the database file alone holds what both hold, after a
    ///   crash too, so long as the files returned what was written.
    /// - `stays`: both files read as the command left them, and a crash leaves nothing of them that it
    ///   would not have left before; so the next opening finds what it would have found.
    /// - `held`: a state that the database file alone held is still in it.
    pub fn settle(self) -> Settled<D>
        requires copied { HasSpareLog self }
        ensures spare { IsTrue result.is_log_spare
            → AreClean D.Disk result.files.log result.files.db → NeedNoLog D.Disk result.files }
        ensures stays { StayAs D.Disk (files_in self) result.files }
        ensures held { (s : State) → IfWhole self (λ files. HoldState D.Disk files s)
            → IfWhole self (λ _. HoldState D.Disk result.files s) }
    {
        match self {
            Left::Whole(files) => Settled {
                files,
                is_log_spare: true,
            },
            Left::Refused(left) => settle_files(left.into_files()),
            Left::Parts(left) => settle_files(left.into_files()),
        }
    }

    /// The log and the database file, as the command left them. Nothing is read or written any
    /// more.
    pub fn into_files(self) -> Files<D>
        ensures { (result.log, result.db) ≡ files_in self }
    {
        match self {
            Left::Whole(files) => files,
            Left::Refused(left) => left.into_files(),
            Left::Parts(left) => left.into_files(),
        }
    }
}

/// Copies the log into the database file and closes the database. Where that fails, what was
/// committed stands, and the next opening finds it.
///
/// - `whole`, `copied`, `sure`: where the log was copied, the database file alone holds the
///   registry, which has no defect, and the log may go.
/// - `kept`: while there was no defect, the state is kept, in the database file alone or in the
///   file and its log.
/// - `found`: where the log was not copied, the next opening finds what a crash before the close
///   might have left, and nothing else.
pub fn close_registry<D: Disk + Drop>(shelf: SqlShelf<FileStore<D>>) -> Left<D>
    ensures clean { IsClean result → HasCleanDisk (file_state shelf.conn) }
    ensures whole { IfWhole result
        (λ files. HoldState D.Disk files (seen_by shelf).state) }
    ensures copied { HasSpareLog result }
    ensures sure { IfWhole result
        (λ files. AreClean D.Disk files.log files.db
        → (seen_by shelf).defects ≡ 0) }
    ensures opened { IfRefused result (λ _. ⊥) }
    ensures kept { (seen_by shelf).defects ≡ 0
        → IsKept (seen_by shelf).state result }
    ensures found { IfParts result
        (FindsRight (seen_by shelf).leaves) }
{
    match shelf.into_connection().close_files() {
        Ok(files) => Left::Whole(files),
        Err((_, store)) => Left::Parts(Leftover::Store(store)),
    }
}
