//! How a run of lines ends, over records that fail at each request, and command lines that ask for
//! nothing.

use crate::claims::holds;
use crate::lines::FailingDesk;
use goo_cli::read_task;
use goo_cli_ending::{Ending, answer_input};
use goo_types::fault::Fault;
use std::alloc::Global;
use std::io::{self, BufWriter, ErrorKind, Read, Write};
use std::process::Abort;

/// A line with a request.
const REQUEST: &str =
    "ISSUER {\"command\":\"open_holder\",\"holder\":\"SUN\",\"key\":\"a1\",\"name\":\"Sun Power\"}\n";

/// A stream that fails at each call.
#[derive(Drop)]
struct Broken;

impl Read for Broken {
    fn read(&mut self, _buffer: &mut [u8]) -> io::Result<usize> {
        Err(io::Error::from(ErrorKind::BrokenPipe))
    }
}

impl Write for Broken {
    fn write(&mut self, _text: &[u8]) -> io::Result<usize> {
        Err(io::Error::from(ErrorKind::BrokenPipe))
    }

    fn flush(&mut self) -> io::Result<()> {
        Err(io::Error::from(ErrorKind::BrokenPipe))
    }
}

/// The exit status of a run from this reader to this writer.
fn status_of<R: Read, W: Write + Drop>(alloc: Global, reader: &mut R, writer: W) -> u8 {
    let mut desk = FailingDesk {
        fault: Fault::Store,
    };
    match BufWriter::new(alloc, writer) {
        Ok(mut writer) => answer_input(alloc, &mut desk, reader, &mut writer).status(),
        Err(_) => 4,
    }
}

/// A run of an input whose outcomes are all written ends with this status.
fn ends_with(rt: &impl Abort, alloc: Global, input: &str, wanted: u8) {
    let status = status_of(alloc, &mut input.as_bytes(), Vec::new(alloc));
    holds(rt, status == wanted, input);
}

/// A run of an input whose outcomes can't be written, or whose end can't, is a failure.
fn fails_unwritten(rt: &impl Abort, alloc: Global, mut input: &[u8]) {
    holds(
        rt,
        status_of(alloc, &mut input, Broken) == 3,
        "an output that fails",
    );
}

/// A run of an input that can't be read is a failure.
fn fails_unread(rt: &impl Abort, alloc: Global) {
    holds(
        rt,
        status_of(alloc, &mut Broken, Vec::new(alloc)) == 3,
        "an input that fails",
    );
}

#[test]
fn each_exit_status_of_a_run(rt: HostRuntime) {
    let alloc = rt.alloc();
    ends_with(&rt, alloc, "", 0);
    ends_with(&rt, alloc, "SUN\n", 1);
    ends_with(&rt, alloc, "SUN {}", 1);
    ends_with(&rt, alloc, REQUEST, 3);
    fails_unwritten(&rt, alloc, b"SUN\n");
    fails_unwritten(&rt, alloc, b"");
    fails_unread(&rt, alloc);
}

/// Command lines that are no task.
static LINES: [&str; 8] = [
    "goo",
    "goo --help",
    "goo run",
    "goo run --memory --code 7",
    "goo run --db x --memory",
    "goo run --db x --code 7",
    "goo statement 0 --db x",
    "goo init --memory --code 7 --today 2025-03-01",
];

/// The exit status that a command line ends with, where it is no task.
fn status_of_words(rt: &impl Abort, alloc: Global, line: &str) -> u8 {
    let words = line
        .split(' ')
        .collect::<Vec<&str>>(alloc)
        .expect(rt, "memory");
    match read_task(alloc, words.as_slice()) {
        Ok(_) => panic!(rt; "a task"),
        Err(fault) => Ending::from(fault).status(),
    }
}

#[test]
fn a_command_line_that_asks_for_nothing(rt: HostRuntime) {
    for line in &LINES {
        let status = status_of_words(&rt, rt.alloc(), *line);
        holds(&rt, status == 2, line);
    }
}
