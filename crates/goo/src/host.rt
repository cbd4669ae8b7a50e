//! The system that the program runs on. Each method names calls of std and of the kit; no proof says
//! what these do.
ghost use Rattle.std.specs.Prelude.{◌≡◌, ◌⊎◌, ◌++◌, ◌∷◌, [], map, IfOk, OnOk, OnErr};
ghost use Rattle.sqlite_wal.specs.Files.{image_at};
ghost use Rattle.goo.specs.Deeds.{deed_of};
ghost use Rattle.goo_cli_system.specs.Deeds.{LetsGo, RemoveLog};

use crate::deed::Deed;
use crate::files::{Opened as Found, find_kept, find_new};
use crate::object::Object;
use crate::reason::{OpeningFailure, Reason};
use goo_cli_disk::settling::Settled;
use goo_cli_ending::{Ending, Failure};
use goo_cli_jobs::Job;
use goo_cli_system::{Opened, System, Unopened};
use sqlite::{FileFrom, Start};
use std::alloc::AllocError;
use std::fs;
use std::io::IsTerminal;
use std::rt::Stderr;

/// This machine's files and its standard error. One pair of files is opened at most: `S` stands for
/// what it holds.
#[derive(Drop)]
pub struct Host<'a, S: Start> {
    rt: &'a HostRuntime,
    /// What was done with files, oldest first.
    deeds: Vec<Deed>,
    /// None once files were opened.
    start: Option<S>,
    /// Where the log of the open files lies.
    log: Option<String>,
    /// What the system named where files failed.
    reason: Option<Reason>,
}

impl<'a, S: Start> Host<'a, S> {
    /// The system, before anything was done.
    pub fn new(rt: &'a HostRuntime, start: S) -> Host<'a, S> {
        Host {
            rt,
            deeds: Vec::new(rt.alloc()),
            start: Some(start),
            log: None,
            reason: None,
        }
    }

    /// Keeps what the system named, and tells why files are not opened.
    fn refuse(&mut self, refusal: OpeningFailure) -> Unopened
        ensures { self.new.deeds ≡ self.old.deeds }
    {
        self.reason = refusal.reason;
        refusal.failure
    }

    /// Hands files on that were opened, and keeps where their log lies.
    fn keep(&mut self, found: Found<S>, deed: Deed) -> Result<Opened<FileFrom<S>>, Unopened>
        ensures files { IfOk result (λ opened. opened.files ≡ found.files) }
        ensures ok { OnOk result
            (map deed_of self.new.deeds.items ≡ map deed_of self.old.deeds.items
            ++ deed_of deed ∷ []) }
        ensures err { OnErr result (self.new.deeds.items ≡ self.old.deeds.items) }
    {
        let Found { files, seed, log } = found;
        match self.note(deed) {
            Ok(()) => {
                self.log = Some(log);
                Ok(Opened { files, seed })
            }
            Err(_) => Err(Unopened::Memory),
        }
    }

    /// Removes the log of the files that were opened. Where that fails, what is left does no harm.
    fn remove_log(&mut self, path: &str)
        ensures { (map deed_of self.new.deeds.items ≡ map deed_of self.old.deeds.items)
            ⊎ (map deed_of self.new.deeds.items ≡ map deed_of self.old.deeds.items
            ++ RemoveLog path.now ∷ []) }
    {
        let Ok(name) = String::from_str(self.rt.alloc(), path) else {
            return;
        };
        let Some(log) = self.log.take() else {
            return;
        };
        if self.note(Deed::RemoveLog(name)).is_ok() {
            let _ = fs::remove_file(self.rt, log.as_str());
        }
    }

    /// Notes what was done.
    fn note(&mut self, deed: Deed) -> Result<(), AllocError>
        ensures ok { OnOk result
            (map deed_of self.new.deeds.items ≡ map deed_of self.old.deeds.items
            ++ deed_of deed ∷ []) }
        ensures err { OnErr result (self.new.deeds.items ≡ self.old.deeds.items) }
    {
        self.deeds.push(deed)?;
        Ok(())
    }
}

impl<'a, S: Start> System for Host<'a, S> {
    type Disk = FileFrom<S>;

    type Errors = Stderr;

    ghost did = { λ host. map deed_of host.deeds.items };

    ghost held = { λ host path. image_at S.Start };

    ghost refuses = { λ host deed reason. Unit {0} };

    fn open_kept(&mut self, path: &str) -> Result<Opened<FileFrom<S>>, Unopened> {
        let Ok(name) = String::from_str(self.rt.alloc(), path) else {
            return Err(Unopened::Memory);
        };
        let Some(start) = self.start.take() else {
            return Err(Unopened::Store);
        };
        match find_kept(self.rt, path, start) {
            Ok(found) => self.keep(found, Deed::OpenKept(name)),
            Err(refusal) => Err(self.refuse(refusal)),
        }
    }

    fn open_new(&mut self, path: &str) -> Result<Opened<FileFrom<S>>, Unopened> {
        let Ok(name) = String::from_str(self.rt.alloc(), path) else {
            return Err(Unopened::Memory);
        };
        let Some(start) = self.start.take() else {
            return Err(Unopened::Store);
        };
        match find_new(self.rt, path, start) {
            Ok(found) => self.keep(found, Deed::OpenNew(name)),
            Err(refusal) => Err(self.refuse(refusal)),
        }
    }

    fn let_go(&mut self, path: &str, settled: Settled<FileFrom<S>>)
        ensures did { LetsGo path.now settled.is_log_spare (map deed_of self.old.deeds.items)
            (map deed_of self.new.deeds.items) }
    {
        let Settled {
            files,
            is_log_spare,
        } = settled;
        if is_log_spare {
            self.remove_log(path);
        }
        self.reason = Reason::met_by(files.tally());
    }

    fn errors(&self) -> Stderr {
        self.rt.stderr()
    }

    fn terminal(&self) -> Option<Stderr> {
        let errors = self.rt.stderr();
        errors.is_terminal().then_some(errors)
    }

    fn tell(&self, ending: &Ending) {
        ending.tell(self.rt)
    }

    fn explain(&self, job: &Job<'_>, ending: &Ending) {
        let is_always_named = matches!(ending, Ending::Failed(Failure::Store));
        if is_always_named || self.rt.stderr().is_terminal() {
            let _ = match Object::of(job, ending, self.reason) {
                Some(object) => eprintln!(self.rt; "goo: {object}"),
                None => Ok(()),
            };
        }
    }
}
