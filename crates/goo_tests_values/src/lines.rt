//! Lines that state no request, faults of the records and of the writer, and the limit of an input,
//! over records that fail at each request.
use crate::claims::holds;
use goo_core_shelf::desk::Desk;
use goo_desk_lines::{LinesFault, Tally, run_lines};
use goo_types::fault::Fault;
use goo_types::outcome::Outcome;
use goo_types::request::Request;
use std::alloc::Global;
use std::io::{self, Write};
use std::process::Abort;

/// A desk over records that fail at each request.
#[derive(Drop)]
pub struct FailingDesk {
    /// The fault of each request.
    pub fault: Fault,
}

impl Desk for FailingDesk {
    ghost use Rattle.std.specs.Prelude.{◌≡◌, Some};
    ghost use Rattle.goo_tests_values.specs.Failing.{begun, refused_by};

    ghost seen = { λ d. record { state = begun; corruptions = 0; defects = 0; refusals = refused_by d.fault; failures = 0 } };

    ghost leaves = { λ d o. o ≡ Some begun };

    fn probe(&mut self) -> Result<(), Fault> {
        Err(self.fault)
    }

    fn apply(&mut self, _alloc: Global, _request: &Request) -> Result<Outcome, Fault> {
        Err(self.fault)
    }

    ghost settled = { λ d none o is. is };
}

/// A writer with room for so many bytes.
#[derive(Drop)]
struct BoundedWriter {
    text: Vec<u8>,
    room: usize,
}

impl Write for BoundedWriter {
    fn write(&mut self, text: &[u8]) -> io::Result<usize> {
        match text.first() {
            Some(first) if self.text.len() < self.room => {
                self.text.push(*first)?;
                Ok(1)
            }
            _ => Err(io::Error::from(io::ErrorKind::BrokenPipe)),
        }
    }

    fn flush(&mut self) -> io::Result<()> {
        Ok(())
    }
}

/// What a line without a request is answered, by its word.
const CALLER: &str = "{\"fault\":\"Caller\",\"outcome\":\"unreadable\"}\n";

const CALLER_TWICE: &str = "{\"fault\":\"Caller\",\"outcome\":\"unreadable\"}\n\
    {\"fault\":\"Caller\",\"outcome\":\"unreadable\"}\n";

const NOT_JSON: &str = "{\"fault\":\"NotJson\",\"outcome\":\"unreadable\"}\n";

const SHAPE: &str = "{\"fault\":\"Shape\",\"outcome\":\"unreadable\"}\n";

const FIELD: &str = "{\"fault\":\"Field\",\"outcome\":\"unreadable\"}\n";

/// A line that states no request, and what it is answered.
static UNREADABLE: [(&str, &str); 13] = [
    ("ISSUER", CALLER),
    ("\r", CALLER),
    (" {}", CALLER),
    ("issuer {}", CALLER),
    ("ABCDEFGHIJKLMNOPQ {}", CALLER),
    ("ISSUER ", NOT_JSON),
    (
        "ISSUER {\"command\":\"open_account\",\"holder\":\"SUN\",\"key\":\"a\"",
        NOT_JSON,
    ),
    ("ISSUER  {}\r", SHAPE),
    ("ISSUER []", SHAPE),
    (
        "ISSUER {\"command\":\"open_acount\",\"holder\":\"SUN\",\"key\":\"a\"}",
        SHAPE,
    ),
    (
        "ISSUER {\"command\":\"open_account\",\"holder\":1,\"key\":\"a\"}",
        SHAPE,
    ),
    (
        "ISSUER {\"command\":\"open_account\",\"holder\":\"\",\"key\":\"a\"}",
        FIELD,
    ),
    (
        "ISSUER {\"command\":\"open_account\",\"holder\":\"SUN\",\"key\":\"\"}",
        FIELD,
    ),
];

/// What an input comes to over records that fail so, once this has been written.
fn answered(
    rt: &impl Abort,
    alloc: Global,
    fault: Fault,
    mut input: &[u8],
    wanted: &str,
) -> Result<Tally, LinesFault> {
    let mut desk = FailingDesk { fault };
    let mut writer = Vec::new(alloc);
    let answered = run_lines(alloc, &mut desk, &mut input, &mut writer);
    holds(rt, writer.as_slice() == wanted.as_bytes(), wanted);
    answered
}

/// An input holds so many lines that state no request, and nothing else, and they are answered so.
fn is_unreadable(rt: &impl Abort, alloc: Global, input: &str, bad: usize, wanted: &str) {
    let answered = answered(rt, alloc, Fault::Store, input.as_bytes(), wanted);
    holds(rt, answered == Ok(Tally { good: 0, bad }), input);
}

#[test]
fn each_unreadable_line_is_told(rt: HostRuntime) {
    for (line, wanted) in &UNREADABLE {
        is_unreadable(&rt, rt.alloc(), *line, 1, *wanted);
    }
}

#[test]
fn empty_lines_are_passed_over(rt: HostRuntime) {
    for (input, bad, wanted) in [
        ("", 0, ""),
        ("\n", 0, ""),
        ("\n\nISSUER\n\nSUN", 2, CALLER_TWICE),
        ("ISSUER\nSUN\n", 2, CALLER_TWICE),
    ] {
        is_unreadable(&rt, rt.alloc(), input, bad, wanted);
    }
}

#[test]
fn the_lines_before_a_fault_are_told(rt: HostRuntime) {
    let input =
        "ISSUER\nISSUER {\"command\":\"open_account\",\"holder\":\"SUN\",\"key\":\"a\"}\nSUN\n";
    for (fault, wanted) in [
        (Fault::Store, LinesFault::Store),
        (Fault::Memory, LinesFault::Memory),
    ] {
        let answered = answered(&rt, rt.alloc(), fault, input.as_bytes(), CALLER);
        holds(&rt, answered == Err(wanted), "the fault");
    }
}

#[test]
fn a_beginning_is_written_before_a_write_fault(rt: HostRuntime) {
    let mut desk = FailingDesk {
        fault: Fault::Store,
    };
    let mut writer = BoundedWriter {
        text: Vec::new(rt.alloc()),
        room: CALLER.len() + 4,
    };
    let answered = run_lines(
        rt.alloc(),
        &mut desk,
        &mut b"ISSUER\nSUN {\n".as_slice(),
        &mut writer,
    );
    holds(
        &rt,
        answered == Err(LinesFault::Write)
            && writer.text.as_slice()
                == b"{\"fault\":\"Caller\",\"outcome\":\"unreadable\"}\n{\"fa".as_slice(),
        "a beginning of the second outcome",
    );
}

#[test]
fn the_limit_of_the_input_is_exact(rt: HostRuntime) {
    let mut input = vec![in rt.alloc(); b'\n'; 16_777_216].expect(&rt, "memory");
    answered(&rt, rt.alloc(), Fault::Store, &input, "").expect(&rt, "an answer");
    input.push(b'\n').expect(&rt, "memory");
    let over = answered(&rt, rt.alloc(), Fault::Store, &input, "");
    holds(&rt, over == Err(LinesFault::Read), "one byte more");
}
