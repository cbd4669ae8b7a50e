//! What a client takes, until its time is up.
ghost use Rattle.std.specs.Prelude.{◌≡◌, ◌<◌, length, take, IfOk, IfSome, IsTrue, OnErr, OnOk, Some};
ghost use Rattle.std.specs.Io.{WritesAtMost};
ghost use Rattle.std.specs.Io.KnownBytes.{Appends, Keeps, WriteAppends};
ghost use Rattle.goo_files_streams.specs.Streams.{AppendsPrefix};

use crate::deadline::Deadline;
use crate::outlet::Outlet;
use crate::wire::Wire;
use goo_files_streams::{MOST_INTERRUPTIONS, WriteFault};
use std::io::{self, ErrorKind, Write};
use std::time::Clock;

/// What a client takes, until its time is up. After that each write fails, and before each the
/// stream is told how long it may wait. Its stream takes what it is given.
#[derive(Drop)]
pub struct Sender<'a, C: Clock, S: Wire> {
    pub(crate) deadline: Deadline<'a, C>,
    pub(crate) stream: S,
}

impl<'a, C: Clock, S: Wire> Sender<'a, C, S> {
    /// One write to the stream, while there is time.
    fn send_once(&mut self, text: &[u8]) -> io::Result<usize>
        ensures bound { WritesAtMost result text.now }
        ensures bytes { WriteAppends (S.contents self.old.stream) (S.contents self.new.stream)
            result text.now }
        ensures failed { OnErr result (IsTrue (S.failed self.new.stream)) }
        ensures idle { IfOk result (λ count. count ≡ 0 → 0 < length text.now
            → IsTrue (S.failed self.new.stream)) }
        ensures until { IfSome self.old.deadline.until
            (λ until. self.new.deadline.until ≡ Some until) }
    {
        match self.deadline.left() {
            Ok(left) => self.stream.send_within(left, text),
            Err(why) => {
                self.stream.give_up(&why);
                Err(why.error())
            }
        }
    }

    /// One write, tried again after each interruption: how many bytes of `text` were taken, at
    /// least one.
    ///
    /// # Errors
    ///
    /// Where the stream fails, takes no byte, or is interrupted too often. Nothing was taken then.
    fn send_some(&mut self, text: &[u8]) -> Result<usize, WriteFault>
        requires { 0 < length text.now }
        ensures bound { WritesAtMost result text.now }
        ensures bytes { IfOk result
            (λ count. Appends (S.contents self.old.stream) (S.contents self.new.stream)
            (take count text.now)) }
        ensures progress { IfOk result (λ count. 0 < count) }
        ensures kept { OnErr result
            (Keeps (S.contents self.old.stream) (S.contents self.new.stream)) }
        ensures failed { OnErr result (IsTrue (S.failed self.new.stream)) }
        ensures until { IfSome self.old.deadline.until
            (λ until. self.new.deadline.until ≡ Some until) }
    {
        for _ in 0..MOST_INTERRUPTIONS {
            match self.send_once(text) {
                Ok(0) => return Err(WriteFault),
                Ok(count) => return Ok(count),
                Err(error) => {
                    if error.kind() != ErrorKind::Interrupted {
                        return Err(WriteFault);
                    }
                }
            }
        }
        match self.send_once(text) {
            Ok(0) => Err(WriteFault),
            Ok(count) => Ok(count),
            Err(_) => Err(WriteFault),
        }
    }
}

impl<'a, C: Clock, S: Wire> Write for Sender<'a, C, S> {
    ghost contents = { λ sender. S.contents sender.stream };

    fn write(&mut self, buf: &[u8]) -> io::Result<usize> {
        self.send_once(buf)
    }

    fn flush(&mut self) -> io::Result<()> {
        Ok(())
    }
}

impl<'a, C: Clock, S: Wire> Outlet for Sender<'a, C, S> {
    ghost failed = { λ sender. S.failed sender.stream };

    fn send(&mut self, text: &[u8]) -> Result<(), WriteFault>
        ensures written { OnOk result
            (Appends (S.contents self.old.stream) (S.contents self.new.stream) text.now) }
        ensures prefix { OnErr result
            (AppendsPrefix (S.contents self.old.stream) (S.contents self.new.stream) text.now) }
        ensures failed { OnErr result (IsTrue (S.failed self.new.stream)) }
        ensures until { IfSome self.old.deadline.until
            (λ until. self.new.deadline.until ≡ Some until) }
    {
        let mut written = 0;
        while written < text.len() {
            written += self.send_some(&text[written..])?;
        }
        Ok(())
    }
}
