//! What the program asks of the system that it runs on.
ghost use Rattle.std.specs.Prelude.{ℕ, List, IfOk, IfErr};
ghost use Rattle.sqlite_wal.specs.Recovery.{Image};
ghost use Rattle.goo_cli_system.specs.Deeds.{AreAt, Deed, Did, LetsGo, MayLoseLog};
ghost use Rattle.goo_cli_system.specs.Deeds.{OpenKept, OpenNew};

use crate::unopened::Unopened;
use goo_cli_disk::settling::Settled;
use goo_cli_ending::Ending;
use goo_cli_jobs::Job;
use sqlite::Files;
use sqlite_disk::Disk;
use std::io::Write;

/// The files of a registry that were opened, which nobody else can open meanwhile.
pub struct Opened<D: Disk> {
    pub files: Files<D>,
    /// What the salts of a new log begin with.
    pub seed: u64,
}

/// What the program asks of the system that it runs on, its standard input and output and its
/// listener aside.
pub trait System {
    ghost use Rattle.goo_cli_system.specs.declared.unopened.Unopened.{Unopened};

    /// A file.
    type Disk: Disk + Drop;

    /// Standard error.
    type Errors: Write + Drop;

    /// What was done with files so far.
    ghost did: { Self → List Deed };

    /// What the database file at a path and the log beside it hold.
    ghost held: { Self → List ℕ → Image };

    /// Why files are not opened, where the system is asked to do this and does not.
    ghost refuses: { Self → Deed → Unopened → Type 0 };

    /// The files at a path at which a registry is to be.
    ///
    /// # Errors
    ///
    /// See [`Unopened`]: nothing is made then.
    fn open_kept(&mut self, path: &str) -> Result<Opened<Self::Disk>, Unopened>
        ensures at { IfOk result
            (λ opened. AreAt Self.Disk.Disk (held self.old path.now) opened.files) }
        ensures did { Did (OpenKept path.now) result (did self.old) (did self.new) }
        ensures refused { IfErr result (refuses self.old (OpenKept path.now)) };

    /// The files at a path at which a registry is to be made.
    ///
    /// # Errors
    ///
    /// `Store` and `Memory`, see [`Unopened`].
    fn open_new(&mut self, path: &str) -> Result<Opened<Self::Disk>, Unopened>
        ensures at { IfOk result
            (λ opened. AreAt Self.Disk.Disk (held self.old path.now) opened.files) }
        ensures did { Did (OpenNew path.now) result (did self.old) (did self.new) }
        ensures refused { IfErr result (refuses self.old (OpenNew path.now)) };

    /// Lets the files of a path go. A log that is spare is removed before anyone else can open them.
    fn let_go(&mut self, path: &str, settled: Settled<Self::Disk>)
        requires spare { MayLoseLog Self.Disk.Disk settled.is_log_spare settled.files }
        ensures did { LetsGo path.now settled.is_log_spare (did self.old) (did self.new) };

    /// Standard error, for what is told while a command lasts.
    fn errors(&self) -> Self::Errors;

    /// Standard error, where that is a terminal.
    fn terminal(&self) -> Option<Self::Errors>;

    /// Says on standard error how the program ends.
    fn tell(&self, ending: &Ending);

    /// Names what the line before speaks of.
    fn explain(&self, job: &Job<'_>, ending: &Ending);
}
