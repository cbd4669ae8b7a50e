//! How the program ends: its exit status, and what it says on standard error.
ghost use Rattle.std.specs.Prelude.{◌≡◌, Some};
ghost use Rattle.goo_cli_ending.specs.Endings.{status_of, failure_text, denial_text, failure_of};
ghost use Rattle.goo_cli_ending.specs.Endings.{failure_of_desk, ending_of, reason_of, TellsLine};

use crate::settings::{missing_text, wrong_text};
use clap::Error;
use goo_cli::LineFault;
use goo_desk_lines::{LinesFault, Tally};
use goo_types::fault::Fault;
use std::fmt;

/// What kept the program from doing all that it was asked.
#[derive(Debug, Clone, Copy, PartialEq, Eq)]
pub enum Failure {
    /// What keeps the records failed.
    Store,
    /// There was no room.
    Memory,
    /// The input failed or was too long.
    Read,
    /// The output failed.
    Write,
    /// There is no registry in the file.
    NotARegistry,
    /// The registry in the file is of this version, which is not read here.
    Version(u32),
    /// The registry in the file breaks a rule of its tables, or a table is missing.
    Damaged,
}

impl fmt::Display for Failure {
    ghost output = { λ failure. Some (failure_text failure) };

    fn fmt<W: fmt::Write>(&self, f: &mut fmt::Formatter<W>) -> fmt::Result {
        match self {
            Failure::Store => f.write_str("goo: store fault"),
            Failure::Memory => f.write_str("goo: out of memory"),
            Failure::Read => f.write_str("goo: read fault"),
            Failure::Write => f.write_str("goo: write fault"),
            Failure::NotARegistry => f.write_str("goo: not a registry"),
            Failure::Version(version) => write!(f, "goo: version {version}"),
            Failure::Damaged => f.write_str("goo: damaged"),
        }
    }
}

impl From<Fault> for Failure {
    ghost from_gives = { λ of failure. failure ≡ failure_of_desk of };

    fn from(fault: Fault) -> Self {
        match fault {
            Fault::Store => Failure::Store,
            Fault::Memory => Failure::Memory,
        }
    }
}

impl From<LinesFault> for Failure {
    ghost from_gives = { λ of failure. failure ≡ failure_of of };

    fn from(fault: LinesFault) -> Self {
        match fault {
            LinesFault::Read => Failure::Read,
            LinesFault::Write => Failure::Write,
            LinesFault::Store => Failure::Store,
            LinesFault::Memory => Failure::Memory,
        }
    }
}

/// Why nothing was done, where what was asked for is not there, or is there already.
#[derive(Debug, Clone, Copy, PartialEq, Eq)]
pub enum NotDone {
    /// A registry is in the file already.
    AlreadyThere,
    /// No account has this number.
    UnknownAccount,
    /// The CSV file doesn't begin with its header.
    Header,
}

impl NotDone {
    /// The line that tells it.
    pub fn text(self) -> &'static str
        ensures { result.now ≡ denial_text self }
    {
        match self {
            NotDone::AlreadyThere => "goo: already there",
            NotDone::UnknownAccount => "goo: unknown account",
            NotDone::Header => "goo: header",
        }
    }
}

/// How the program ends.
#[derive(Drop)]
pub enum Ending {
    /// All was done.
    Done,
    /// Something was refused or unreadable; all else was done.
    PartlyDone,
    /// Nothing was done: why.
    Denied(NotDone),
    /// `clap` refuses the command line, or it asks for help.
    Words(Error),
    /// The command line asks for nothing that the program does: why.
    Misused(&'static str),
    /// A fault stopped it.
    Failed(Failure),
}

impl From<LineFault> for Ending {
    ghost from_gives = { λ of ending. TellsLine of ending };

    fn from(fault: LineFault) -> Self {
        match fault {
            LineFault::Words(error) => Ending::Words(error),
            LineFault::Command => Ending::Misused("goo: no command: see goo --help"),
            LineFault::NoPlace => Ending::Misused("goo: --db FILE or --memory is missing"),
            LineFault::TwoPlaces => Ending::Misused("goo: --db and --memory exclude one another"),
            LineFault::NotNew => Ending::Misused(
                "goo: --code, --today and --next-serial are for a new registry: with --memory, or with init",
            ),
            LineFault::Missing(setting) => Ending::Misused(missing_text(setting)),
            LineFault::Wrong(setting) => Ending::Misused(wrong_text(setting)),
            LineFault::Memory => Ending::Failed(Failure::Memory),
        }
    }
}

impl Ending {
    /// The ending of a run of lines, whose output went out whole or did not.
    pub fn of_run(answered: Result<Tally, LinesFault>, flushed: bool) -> Ending
        ensures { result ≡ ending_of answered flushed }
    {
        match answered {
            Err(fault) => Ending::Failed(Failure::from(fault)),
            Ok(_) if !flushed => Ending::Failed(Failure::Write),
            Ok(tally) if tally.bad == 0 => Ending::Done,
            Ok(_) => Ending::PartlyDone,
        }
    }

    /// The exit status.
    pub fn status(&self) -> u8
        ensures { result ≡ status_of self.now }
    {
        match self {
            Ending::Done => 0,
            Ending::PartlyDone | Ending::Denied(_) => 1,
            Ending::Words(_) | Ending::Misused(_) => 2,
            Ending::Failed(_) => 3,
        }
    }

    /// Says on standard error what isn't all right. Where that fails too, the exit status alone
    /// tells it.
    pub fn tell(&self, rt: &HostRuntime) {
        let _ = match self {
            Ending::Done | Ending::PartlyDone => Ok(()),
            Ending::Denied(denial) => rt.eprintln(denial.text()),
            Ending::Words(error) => rt.eprint(error),
            Ending::Misused(reason) => rt.eprintln(reason),
            Ending::Failed(failure) => rt.eprintln(failure),
        };
    }
}
