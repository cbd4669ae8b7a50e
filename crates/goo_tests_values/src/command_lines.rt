//! What command lines ask for.
use crate::claims::holds;
use goo_cli::{Invocation, LineFault, Opening, Records, Setting, read_task};
use std::alloc::Global;
use std::process::Abort;

/// Command lines, each with the kind of its fault.
static FAULTS: [(&str, &str); 33] = [
    ("goo", "command"),
    ("goo --help", "words"),
    ("goo help", "words"),
    ("goo run --help", "words"),
    ("goo show", "words"),
    ("goo run", "no place"),
    ("goo run x --memory", "words"),
    ("goo run --db x --memory", "two places"),
    ("goo run --db x --code 7", "not new"),
    ("goo run --db x --next-serial 1", "not new"),
    ("goo run --db x --db x", "words"),
    ("goo run --memory --today 2025-03-01", "missing code"),
    (
        "goo run --memory --today 2025-03-01 --code +7",
        "wrong code",
    ),
    (
        "goo run --memory --today 2025-03-01 --code 100",
        "wrong code",
    ),
    (
        "goo run --memory --today 2025-03-01 --code 7 --code 7",
        "words",
    ),
    (
        "goo run --memory --code 7 --today 2025-02-29",
        "wrong today",
    ),
    ("goo run --memory --code 7", "missing today"),
    (
        "goo run --memory --code 7 --today 2025-03-01 --next-serial 0",
        "wrong next serial",
    ),
    (
        "goo run --memory --code 7 --today 2025-03-01 --next-serial 1000000000000",
        "wrong next serial",
    ),
    ("goo init --code 7 --today 2025-03-01", "missing file"),
    ("goo init --db x --today 2025-03-01", "missing code"),
    ("goo init --memory --code 7 --today 2025-03-01", "words"),
    ("goo declare", "missing file"),
    ("goo audit --db x --memory", "words"),
    ("goo statement --db x", "missing account"),
    ("goo statement 0 --db x", "wrong account"),
    ("goo statement 1000000000 --db x", "wrong account"),
    ("goo statement 1 2 --db x", "words"),
    ("goo serve --count 1 --db x", "missing port"),
    ("goo serve --port 65536 --count 1 --db x", "wrong port"),
    ("goo serve --port 0 --count 1 --db x", "wrong port"),
    (
        "goo serve --port 8080 --count 1000000001 --db x",
        "wrong count",
    ),
    ("goo serve --port 8080 --count 1", "no place"),
];

/// Which option is missing.
fn missing(setting: Setting) -> &'static str {
    match setting {
        Setting::File => "missing file",
        Setting::Code => "missing code",
        Setting::Today => "missing today",
        Setting::NextSerial => "missing next serial",
        Setting::Account => "missing account",
        Setting::Port => "missing port",
        Setting::Count => "missing count",
    }
}

/// Which option has a wrong value.
fn wrong(setting: Setting) -> &'static str {
    match setting {
        Setting::File => "wrong file",
        Setting::Code => "wrong code",
        Setting::Today => "wrong today",
        Setting::NextSerial => "wrong next serial",
        Setting::Account => "wrong account",
        Setting::Port => "wrong port",
        Setting::Count => "wrong count",
    }
}

/// The kind of a fault.
fn told(fault: &LineFault) -> &'static str {
    match fault {
        LineFault::Words(_) => "words",
        LineFault::Command => "command",
        LineFault::NoPlace => "no place",
        LineFault::TwoPlaces => "two places",
        LineFault::NotNew => "not new",
        LineFault::Missing(setting) => missing(*setting),
        LineFault::Wrong(setting) => wrong(*setting),
        LineFault::Memory => "memory",
    }
}

/// What a new registry begins with: its code, its date and its next serial.
fn begun(opening: Opening) -> (u8, [u8; 10], u64) {
    (
        opening.code.get(),
        opening.today.write(),
        opening.next_serial.get(),
    )
}

/// Whether a task is that of these words, of which some are told in short.
fn is_told(task: &Invocation<'_>, wanted: &str) -> bool {
    match task {
        Invocation::Init("x", opening) => {
            wanted == "init" && begun(*opening) == (7, *b"2025-03-01", 999_999_999_999)
        }
        Invocation::Run(Records::Memory(opening)) => {
            wanted == "run in memory" && begun(*opening) == (7, *b"2025-03-01", 1)
        }
        Invocation::Run(Records::File("x")) => wanted == "run",
        Invocation::Declare("x") => wanted == "declare",
        Invocation::Statement("x", account) => wanted == "statement" && account.get() == 1,
        Invocation::Audit("x") => wanted == "audit",
        Invocation::Serve(Records::File("x"), serving) => {
            wanted == "serve" && serving.port == 65_535 && serving.count == 0
        }
        _ => false,
    }
}

/// Command lines, each with its task.
static TASKS: [(&str, &str); 7] = [
    (
        "goo init --db x --code 007 --today=2025-03-01 --next-serial 999999999999",
        "init",
    ),
    (
        "goo run --memory --code 7 --today 2025-03-01",
        "run in memory",
    ),
    ("goo run --db x", "run"),
    ("goo declare --db x", "declare"),
    ("goo statement 0001 --db x", "statement"),
    ("goo audit --db x", "audit"),
    ("goo serve --db x --port 65535 --count 0", "serve"),
];

/// Whether a command line comes to this: a task, or a kind of fault.
fn comes_to(rt: &impl Abort, alloc: Global, line: &str, wanted: &str) -> bool {
    let words = line
        .split(' ')
        .collect::<Vec<&str>>(alloc)
        .expect(rt, "memory");
    match read_task(alloc, words.as_slice()) {
        Ok(task) => is_told(&task, wanted),
        Err(fault) => told(&fault) == wanted,
    }
}

#[test]
fn each_command_asks_for_its_task(rt: HostRuntime) {
    for (line, wanted) in &TASKS {
        holds(&rt, comes_to(&rt, rt.alloc(), line, wanted), line);
    }
}

#[test]
fn each_fault_of_a_command_line_is_told(rt: HostRuntime) {
    for (line, wanted) in &FAULTS {
        holds(&rt, comes_to(&rt, rt.alloc(), line, wanted), line);
    }
}
