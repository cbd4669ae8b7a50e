//! A stream of the system.
ghost use Rattle.std.specs.Prelude.{◌≡◌, ◌<◌, Bool, length, IfOk, IsTrue, OnErr};
ghost use Rattle.std.specs.Io.{ReadsAtMost, WritesAtMost};
ghost use Rattle.std.specs.Io.KnownBytes.{ReadConsumes, WriteAppends};

use crate::deadline::TimeUp;
use std::io::{Read, Result, Write};
use std::net::TcpStream;
use std::time::Duration;

/// A stream of the system, each call of which waits for so long at most.
pub trait Wire: Read + Write + Drop {
    /// Whether a call has failed or took no byte, or time was up, as far as that is known: where it is not, `true`.
    ghost failed: { Self → Bool };

    /// One read, which waits no longer than this.
    ///
    /// # Errors
    ///
    /// Where the read fails, or nothing came meanwhile.
    fn hear_within(&mut self, left: Duration, buffer: &mut [u8]) -> Result<usize>
        ensures bound { ReadsAtMost result buffer.new }
        ensures bytes { ReadConsumes (Self.remaining self.old) (Self.remaining self.new) result
            buffer.new }
        ensures failed { OnErr result (IsTrue (failed self.new)) };

    /// One write, which waits no longer than this.
    ///
    /// # Errors
    ///
    /// Where the write fails, or nothing was taken meanwhile.
    fn send_within(&mut self, left: Duration, text: &[u8]) -> Result<usize>
        ensures bound { WritesAtMost result text.now }
        ensures bytes { WriteAppends (Self.contents self.old) (Self.contents self.new) result
            text.now }
        ensures failed { OnErr result (IsTrue (failed self.new)) }
        ensures idle { IfOk result (λ count. count ≡ 0 → 0 < length text.now
            → IsTrue (failed self.new)) };

    /// Notes that time is up.
    fn give_up(&mut self, why: &TimeUp)
        ensures remaining { Self.remaining self.new ≡ Self.remaining self.old }
        ensures contents { Self.contents self.new ≡ Self.contents self.old }
        ensures failed { IsTrue (failed self.new) };
}

impl Wire for TcpStream {
    ghost use Rattle.std.specs.Prelude.{true};

    ghost failed = { λ _. true };

    fn hear_within(&mut self, left: Duration, buffer: &mut [u8]) -> Result<usize> {
        self.set_read_timeout(Some(left))?;
        self.read(buffer)
    }

    fn send_within(&mut self, left: Duration, text: &[u8]) -> Result<usize> {
        self.set_write_timeout(Some(left))?;
        self.write(text)
    }

    fn give_up(&mut self, _why: &TimeUp) {}
}
