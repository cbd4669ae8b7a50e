//! What a client sends, until its time is up.
ghost use Rattle.std.specs.Prelude.{◌≡◌, ◌<◌, length, take, IfOk, IfSome, IsTrue, OnErr, Some};
ghost use Rattle.std.specs.Io.{ReadsAtMost};
ghost use Rattle.std.specs.Io.KnownBytes.{Consumes, IsAtEnd, Keeps, ReadConsumes};

use crate::deadline::Deadline;
use crate::inlet::Inlet;
use crate::wire::Wire;
use goo_files_streams::{InputFault, MOST_INTERRUPTIONS};
use std::io::{self, ErrorKind, Read};
use std::time::Clock;

/// What a client sends, until its time is up. After that each read fails, and before each the
/// stream is told how long it may wait: a client that sends a byte now and then has no more time
/// than one that is silent. It gives what its stream gives.
#[derive(Drop)]
pub struct Receiver<'a, C: Clock, S: Wire> {
    pub(crate) deadline: Deadline<'a, C>,
    pub(crate) stream: S,
}

impl<'a, C: Clock, S: Wire> Receiver<'a, C, S> {
    /// One read of the stream, while there is time.
    fn hear_once(&mut self, buffer: &mut [u8]) -> io::Result<usize>
        ensures bound { ReadsAtMost result buffer.new }
        ensures bytes { ReadConsumes (S.remaining self.old.stream) (S.remaining self.new.stream)
            result buffer.new }
        ensures failed { OnErr result (IsTrue (S.failed self.new.stream)) }
        ensures until { IfSome self.old.deadline.until
            (λ until. self.new.deadline.until ≡ Some until) }
    {
        match self.deadline.left() {
            Ok(left) => self.stream.hear_within(left, buffer),
            Err(why) => {
                self.stream.give_up(&why);
                Err(why.error())
            }
        }
    }
}

impl<'a, C: Clock, S: Wire> Read for Receiver<'a, C, S> {
    ghost remaining = { λ receiver. S.remaining receiver.stream };

    fn read(&mut self, buf: &mut [u8]) -> io::Result<usize> {
        self.hear_once(buf)
    }
}

impl<'a, C: Clock, S: Wire> Inlet for Receiver<'a, C, S> {
    ghost failed = { λ receiver. S.failed receiver.stream };

    fn hear(&mut self, buffer: &mut [u8]) -> Result<usize, InputFault>
        ensures bound { ReadsAtMost result buffer.new }
        ensures bytes { IfOk result
            (λ count. Consumes (S.remaining self.old.stream) (S.remaining self.new.stream)
            (take count buffer.new)) }
        ensures end { IfOk result
            (λ count. count ≡ 0 → 0 < length buffer.old
            → IsAtEnd (S.remaining self.new.stream)) }
        ensures kept { OnErr result
            (Keeps (S.remaining self.old.stream) (S.remaining self.new.stream)) }
        ensures failed { OnErr result (IsTrue (S.failed self.new.stream)) }
        ensures until { IfSome self.old.deadline.until
            (λ until. self.new.deadline.until ≡ Some until) }
    {
        for _ in 0..MOST_INTERRUPTIONS {
            match self.hear_once(buffer) {
                Ok(count) => return Ok(count),
                Err(error) => {
                    if error.kind() != ErrorKind::Interrupted {
                        return Err(InputFault::Read);
                    }
                }
            }
        }
        match self.hear_once(buffer) {
            Ok(count) => Ok(count),
            Err(_) => Err(InputFault::Read),
        }
    }
}
