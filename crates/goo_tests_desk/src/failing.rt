//! Streams and records that fail.
use goo_core_shelf::desk::Desk;
use goo_desk_backend::{Backend, Imported, Shown};
use goo_desk_routes::Subject;
use goo_desk_server::{Inlet, Outlet};
use goo_files_streams::{InputFault, WriteFault, read_some, write_whole};
use goo_types::fault::Fault;
use goo_types::holder_code::HolderCode;
use goo_types::outcome::Outcome;
use goo_types::request::Request;
use std::alloc::Global;
use std::io::{self, ErrorKind, Read, Write};

/// A client that sends one byte a read, and is gone after so many reads.
#[derive(Drop)]
pub struct Sending<'a> {
    /// What it has yet to send.
    pub text: &'a [u8],
    /// How many reads it answers.
    pub good_reads: usize,
}

impl Read for Sending<'_> {
    fn read(&mut self, buffer: &mut [u8]) -> io::Result<usize> {
        if self.good_reads == 0 {
            return Err(io::Error::from(ErrorKind::ConnectionReset));
        }
        self.good_reads -= 1;
        match self.text.split_first() {
            Some((first, others)) if !buffer.is_empty() => {
                buffer[0] = *first;
                self.text = others;
                Ok(1)
            }
            _ => Ok(0),
        }
    }
}

impl Inlet for Sending<'_> {
    ghost use Rattle.std.specs.Prelude.{true};

    ghost failed = { λ _. true };

    fn hear(&mut self, buffer: &mut [u8]) -> Result<usize, InputFault> {
        read_some(self, buffer)
    }
}

/// A client that takes one byte a write, and is gone after so many.
#[derive(Drop)]
pub struct Taking {
    /// What it took.
    pub text: Vec<u8>,
    /// How many bytes it takes.
    pub room: usize,
}

impl Write for Taking {
    fn write(&mut self, text: &[u8]) -> io::Result<usize> {
        match text.first() {
            Some(first) if self.text.len() < self.room => {
                self.text.push(*first)?;
                Ok(1)
            }
            _ => Err(io::Error::from(ErrorKind::BrokenPipe)),
        }
    }

    fn flush(&mut self) -> io::Result<()> {
        Ok(())
    }
}

impl Outlet for Taking {
    ghost use Rattle.std.specs.Prelude.{true};

    ghost failed = { λ _. true };

    fn send(&mut self, text: &[u8]) -> Result<(), WriteFault> {
        write_whole(self, text)
    }
}

/// A client of which is lost what it takes.
#[derive(Drop)]
pub struct Lost;

impl Write for Lost {
    fn write(&mut self, text: &[u8]) -> io::Result<usize> {
        Ok(text.len())
    }

    fn flush(&mut self) -> io::Result<()> {
        Ok(())
    }
}

impl Outlet for Lost {
    ghost use Rattle.std.specs.Prelude.{true};

    ghost failed = { λ _. true };

    fn send(&mut self, text: &[u8]) -> Result<(), WriteFault> {
        write_whole(self, text)
    }
}

/// A backend over records that fail at each call.
#[derive(Drop)]
pub struct FailingBackend {
    /// How they fail.
    pub fault: Fault,
}

impl Desk for FailingBackend {
    ghost use Rattle.std.specs.Prelude.{◌≡◌, Some};
    ghost use Rattle.goo_tests_desk.specs.Failing.{begun, refused_by};

    ghost seen = { λ d. record { state = begun; corruptions = 0; defects = 0; refusals = refused_by d.fault; failures = 0 } };

    ghost leaves = { λ d o. o ≡ Some begun };

    // Where memory alone is refused, the records still answer.
    fn probe(&mut self) -> Result<(), Fault> {
        match self.fault {
            Fault::Memory => Ok(()),
            Fault::Store => Err(Fault::Store),
        }
    }

    fn apply(&mut self, _alloc: Global, _request: &Request) -> Result<Outcome, Fault> {
        Err(self.fault)
    }

    ghost settled = { λ d none o is. is };
}

impl Backend for FailingBackend {
    ghost use Rattle.std.specs.Prelude.{◌≡◌};

    ghost shows = { λ s caller subject shown. Unit {0} };

    ghost imports = { λ s caller rows report after. after ≡ s };

    ghost begins = { λ s caller rows after. after ≡ s };

    fn show(
        &mut self,
        _alloc: Global,
        _caller: &HolderCode,
        _subject: Subject,
    ) -> Result<Shown, Fault> {
        Err(self.fault)
    }

    fn import(
        &mut self,
        _alloc: Global,
        _caller: &HolderCode,
        _rows: &[u8],
    ) -> Result<Imported, Fault> {
        Err(self.fault)
    }
}
