//! A disk that refuses one write and works before and after it.

ghost use Rattle.std.specs.Prelude.{◌≡◌, ◌+◌, false};
ghost use Rattle.sqlite_disk.specs.Disk.{CountsFault};
ghost use Rattle.sqlite_disk.specs.Refusal.{finds_no_room};

use sqlite_disk::{Crash, Disk, Tally};
use std::io;

/// A disk that refuses one write.
#[derive(Drop)]
pub struct Lapse<D: Disk> {
    inner: D,
    /// How many writes come before the one that is refused.
    writes_left: u64,
    refused: u64,
}

impl<D: Disk> Lapse<D> {
    /// A disk that refuses the write after so many.
    pub fn new(inner: D, writes: u64) -> Lapse<D> {
        Lapse {
            inner,
            writes_left: writes,
            refused: 0,
        }
    }
}

/// A write is passed on, or is the one that is refused.
fn passes(writes_left: &mut u64, refused: &mut u64) -> io::Result<()>
    ensures faults { CountsFault result refused.old refused.new }
    ensures kind { finds_no_room result ≡ false }
{
    let Some(left) = writes_left.checked_sub(1) else {
        *writes_left = u64::MAX;
        *refused = refused.saturating_add(1);
        return Err(io::Error::other("one write is refused"));
    };
    *writes_left = left;
    Ok(())
}

impl<D: Disk> Disk for Lapse<D> {
    ghost seen = { λ disk. D.Disk.seen disk.inner };

    ghost may_leave = { λ disk. D.Disk.may_leave disk.inner };

    ghost is_usable = { λ disk. D.Disk.is_usable disk.inner };

    ghost faults = { λ disk. D.Disk.faults disk.inner + disk.refused };

    ghost tally_of = { λ disk. D.Disk.tally_of disk.inner };

    ghost is_rotten = { λ disk. D.Disk.is_rotten disk.inner };

    ghost key_of = { λ disk. D.Disk.key_of disk.inner };

    ghost is_clean = { λ disk. D.Disk.is_clean disk.inner };

    ghost is_fair = { λ disk. D.Disk.is_fair disk.inner };

    ghost fair_if_clean = { λ disk. D.Disk.fair_if_clean disk.inner };

    ghost seen_may_stay = { λ disk. D.Disk.seen_may_stay disk.inner };

    ghost is_mixing = { λ disk. D.Disk.is_mixing disk.inner };

    fn mixes(&self) -> bool {
        self.inner.mixes()
    }

    fn key(&self) -> u64 {
        self.inner.key()
    }

    fn tally(&self) -> Tally {
        self.inner.tally()
    }

    fn may_be_used(&self) -> bool {
        self.inner.may_be_used()
    }

    fn len(&mut self) -> io::Result<usize> {
        self.inner.len()
    }

    fn read_at(&mut self, at: usize, buf: &mut [u8]) -> io::Result<()> {
        self.inner.read_at(at, buf)
    }

    fn read_checked(&mut self, key: u64, want: u64, at: usize, buf: &mut [u8]) -> io::Result<()> {
        self.inner.read_checked(key, want, at, buf)
    }

    fn write_at(&mut self, at: usize, bytes: &[u8]) -> io::Result<()> {
        passes(&mut self.writes_left, &mut self.refused)?;
        self.inner.write_at(at, bytes)
    }

    fn set_len(&mut self, len: usize) -> io::Result<()> {
        self.inner.set_len(len)
    }

    fn sync(&mut self) -> io::Result<()> {
        self.inner.sync()
    }
}

impl<D: Crash> Crash for Lapse<D> {
    fn crash(&mut self) {
        self.inner.crash();
    }
}
