//! A file in memory.
ghost use Rattle.std.specs.Prelude.{◌≡◌, ◌-◌, ◌++◌, [], refl, is_ok, length, take, replicate};
ghost use Rattle.std.specs.Prelude.{IfErr, OnOk, true, false};
ghost use Rattle.std.specs.IoError.{error_kind};
ghost use Rattle.std.specs.declared.io.ErrorKind.TheVariants.{OutOfMemory};
ghost use Rattle.sqlite_disk.specs.Disk.{Holds, Torn, Cut, CountsFault};
ghost use Rattle.sqlite_disk.specs.Refusal.{finds_no_room};

use sqlite_disk::{Disk, Tally};
use std::alloc::{AllocError, Global};
use std::io;

/// A file in memory. What is written is there at once, so a crash of what is above it leaves what
/// it holds; it never answers with other bytes than were written, so nothing has to be supposed of
/// it, and a read need not judge digests. The kit's `MemStore` copies all it holds at each sync, so
/// that many commits take quadratic time; this file copies nothing.
#[derive(Drop)]
pub struct MemoryFile {
    bytes: Vec<u8>,
    /// How many calls have failed.
    faults: u64,
}

impl MemoryFile {
    ghost use Rattle.goo_cli_registry.specs.Bytes.{bytes_of};

    /// An empty file.
    pub fn new(alloc: Global) -> MemoryFile
        ensures empty { bytes_of result ≡ [] }
        ensures unfailed { result.faults ≡ 0 }
    {
        MemoryFile::holding(Vec::new(alloc))
    }

    /// A file that holds these bytes.
    pub fn holding(bytes: Vec<u8>) -> MemoryFile
        ensures held { bytes_of result ≡ bytes.items }
        ensures unfailed { result.faults ≡ 0 }
    {
        MemoryFile { bytes, faults: 0 }
    }
}

impl Disk for MemoryFile {
    ghost seen = { λ m. m.bytes.items };

    ghost may_leave = { λ m file. file ≡ m.bytes.items };

    ghost is_usable = { λ _. true };

    ghost faults = { λ m. m.faults };

    ghost is_clean = { λ _. true };

    ghost tally_of = { λ _. record { caught = 0; refused = 0 } };

    ghost key_of = { λ _. 0 };

    ghost is_fair = { λ _ _. true };

    ghost fair_if_clean = { λ _ _ _. refl };

    ghost seen_may_stay = { λ m. refl };

    fn mixes(&self) -> bool {
        false
    }

    // It corrupts nothing, so it needs no secret.
    fn key(&self) -> u64 {
        0
    }

    fn tally(&self) -> Tally {
        Tally {
            caught: 0,
            refused: 0,
        }
    }

    fn may_be_used(&self) -> bool {
        true
    }

    fn len(&mut self) -> io::Result<usize> {
        Ok(self.bytes.len())
    }

    fn read_at(&mut self, at: usize, buf: &mut [u8]) -> io::Result<()> {
        if at > self.bytes.len() || buf.len() > self.bytes.len() - at {
            return Err(io::ErrorKind::UnexpectedEof.into());
        }
        buf.copy_from_slice(&self.bytes[at..at + buf.len()]);
        Ok(())
    }

    // What the reader knows of the bytes is right, and they are those that were written: there is
    // nothing to judge.
    fn read_checked(&mut self, _key: u64, _want: u64, at: usize, buf: &mut [u8]) -> io::Result<()> {
        self.read_at(at, buf)
    }

    fn write_at(&mut self, at: usize, bytes: &[u8]) -> io::Result<()> {
        count(overwrite(&mut self.bytes, at, bytes), &mut self.faults)
    }

    fn set_len(&mut self, len: usize) -> io::Result<()> {
        count(resize(&mut self.bytes, len), &mut self.faults)
    }

    fn sync(&mut self) -> io::Result<()> {
        Ok(())
    }
}

/// Counts a call that failed for want of memory.
///
/// A database over this file tells want of memory as a fault of the store: it knows no other word
/// for a disk.
fn count(outcome: Result<(), AllocError>, faults: &mut u64) -> io::Result<()>
    ensures variant { is_ok result ≡ is_ok outcome }
    ensures kind { finds_no_room result ≡ false }
    ensures memory { IfErr result (λ error. error_kind error ≡ OutOfMemory) }
    ensures faults { CountsFault result faults.old faults.new }
{
    if outcome.is_err() {
        *faults = faults.saturating_add(1);
        return Err(io::Error::from(io::ErrorKind::OutOfMemory));
    }
    Ok(())
}

/// Cuts a file, or fills it up with zeros.
fn resize(file: &mut Vec<u8>, len: usize) -> Result<(), AllocError>
    ensures len { OnOk result (length file.new.items ≡ len) }
    ensures zeros { OnOk result
        (file.new.items ≡ take len file.old.items ++ replicate (len - length file.old.items) 0) }
    ensures others { Cut len file.old.items file.new.items }
{
    file.resize(len, 0)
}

/// Puts bytes at a place, beyond the end too.
fn overwrite(file: &mut Vec<u8>, at: usize, bytes: &[u8]) -> Result<(), AllocError>
    ensures written { OnOk result (Holds file.new.items at bytes.now) }
    ensures others { Torn at (length bytes.now) file.old.items file.new.items }
{
    let end = at.checked_add(bytes.len()).ok_or(AllocError)?;
    if end > file.len() {
        resize(file, end)?;
    }
    file[at..end].copy_from_slice(bytes);
    Ok(())
}
