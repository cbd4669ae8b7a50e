//! Streams that are interrupted, that fail in the middle, and that have no more room.
use crate::claims::holds;
use goo_files_streams::{InputFault, read_whole, write_whole};
use std::io::{self, ErrorKind, Read, Write};
use std::process::Abort;

/// A text that is read one byte a call, with so many interruptions before each, and after so many
/// bytes a failure.
#[derive(Drop)]
struct Halting<'a> {
    text: &'a [u8],
    interruptions: u32,
    left: u32,
    good_reads: usize,
}

fn make_halting(text: &[u8], interruptions: u32, good_reads: usize) -> Halting<'_> {
    Halting {
        text,
        interruptions,
        left: interruptions,
        good_reads,
    }
}

impl Read for Halting<'_> {
    fn read(&mut self, buffer: &mut [u8]) -> io::Result<usize> {
        if self.left > 0 {
            self.left -= 1;
            return Err(io::Error::from(ErrorKind::Interrupted));
        }
        if self.good_reads == 0 {
            return Err(io::Error::from(ErrorKind::BrokenPipe));
        }
        self.left = self.interruptions;
        self.good_reads -= 1;
        match self.text.split_first() {
            Some((first, others)) if !buffer.is_empty() => {
                buffer[0] = *first;
                self.text = others;
                Ok(1)
            }
            _ => Ok(0),
        }
    }
}

/// A writer with room for four bytes that takes one a call, with so many interruptions before each,
/// and then answers as `end` says.
#[derive(Drop)]
struct Narrow {
    taken: [u8; 4],
    count: usize,
    room: usize,
    interruptions: u32,
    left: u32,
    end: End,
}

#[derive(Clone, Copy, Drop)]
enum End {
    Fails,
    TakesNothing,
}

fn make_narrow(room: usize, interruptions: u32, end: End) -> Narrow {
    Narrow {
        taken: *b"....",
        count: 0,
        room,
        interruptions,
        left: interruptions,
        end,
    }
}

impl Write for Narrow {
    fn write(&mut self, text: &[u8]) -> io::Result<usize> {
        if self.left > 0 {
            self.left -= 1;
            return Err(io::Error::from(ErrorKind::Interrupted));
        }
        self.left = self.interruptions;
        match text.first() {
            Some(first) if self.count < self.room && self.count < 4 => {
                self.taken[self.count] = *first;
                self.count += 1;
                Ok(1)
            }
            _ => match self.end {
                End::Fails => Err(io::Error::from(ErrorKind::BrokenPipe)),
                End::TakesNothing => Ok(0),
            },
        }
    }

    fn flush(&mut self) -> io::Result<()> {
        Ok(())
    }
}

/// What was read is this text.
fn is_text(rt: &impl Abort, read: Result<Vec<u8>, InputFault>, wanted: &[u8]) {
    holds(
        rt,
        read.expect(rt, "a text").as_slice() == wanted,
        "the whole text",
    );
}

/// Nothing was read, for this fault.
fn is_fault(rt: &impl Abort, read: Result<Vec<u8>, InputFault>, wanted: InputFault) {
    holds(rt, read.err() == Some(wanted), "the fault");
}

#[test]
fn a_thousand_interruptions_are_passed_over_and_one_more_is_a_fault(rt: HostRuntime) {
    let mut patient = make_halting(b"ab", 1_000, 10);
    is_text(&rt, read_whole(rt.alloc(), &mut patient, 10), b"ab");
    let mut endless = make_halting(b"ab", 1_001, 10);
    is_fault(
        &rt,
        read_whole(rt.alloc(), &mut endless, 10),
        InputFault::Read,
    );
}

#[test]
fn a_fault_in_the_middle_and_at_the_limit(rt: HostRuntime) {
    let mut broken = make_halting(b"abc", 0, 2);
    is_fault(
        &rt,
        read_whole(rt.alloc(), &mut broken, 10),
        InputFault::Read,
    );
    let mut whole = b"abc".as_slice();
    is_text(&rt, read_whole(rt.alloc(), &mut whole, 3), b"abc");
    let mut over = b"abcd".as_slice();
    is_fault(
        &rt,
        read_whole(rt.alloc(), &mut over, 3),
        InputFault::TooLong,
    );
}

#[test]
fn a_text_is_written_over_a_thousand_interruptions_and_no_more(rt: HostRuntime) {
    let mut patient = make_narrow(4, 1_000, End::Fails);
    holds(
        &rt,
        write_whole(&mut patient, b"text").is_ok() && patient.taken == *b"text",
        "a thousand interruptions",
    );
    let mut endless = make_narrow(4, 1_001, End::Fails);
    holds(
        &rt,
        write_whole(&mut endless, b"text").is_err() && endless.count == 0,
        "one more",
    );
}

#[test]
fn after_a_fault_a_beginning_is_written(rt: HostRuntime) {
    for end in [End::Fails, End::TakesNothing] {
        let mut writer = make_narrow(2, 0, end);
        holds(
            &rt,
            write_whole(&mut writer, b"STATEMENT").is_err() && writer.taken == *b"ST..",
            "a beginning of the text",
        );
    }
}
