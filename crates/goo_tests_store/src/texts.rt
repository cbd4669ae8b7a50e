//! What a registry writes for people, byte for byte, and a table of declarations that it imports,
//! over tables and over lists.
//!
//! `tools/trials/refuse-memory` runs the test with each request for memory refused in turn that is made
//! between two marks: then an import keeps the rows of its report and no others, and a text is
//! written up to some place.

use crate::acts::Act;
use crate::asking::plays;
use crate::claims::holds;
use crate::deeds::is_alike;
use crate::script::{APRIL, CANCELLATION, Line, requests};
use crate::wanted;
use goo_core_shelf::shelf::Shelf;
use goo_files::{
    Cause, ImportFault, Report, ShowFault, import_declarations, write_audit, write_cancellation,
    write_holdings_csv, write_report, write_statement,
};
use goo_registry::Registry;
use goo_types::account_no::AccountNo;
use goo_types::act_no::ActNo;
use goo_types::holder_code::HolderCode;
use std::alloc::Global;
use std::process::Abort;

/// How many bytes a mark asks for; `tools/trials/refuse-memory` knows this number.
const MARK: usize = 7_777_777;

/// More bytes than any text has, so that it never grows.
const ROOM: usize = 10_000;

/// A text that is asked for.
#[derive(Clone, Copy)]
pub enum AskedText {
    /// The statement of an account.
    Statement(u32),
    /// The holdings of an account.
    Holdings(u32),
    /// The document of a cancellation.
    Document(u32),
    /// The audit.
    Audit,
}

/// Who asks for a text, and what comes of it.
pub type Asked = (&'static str, AskedText, Result<&'static str, ShowFault>);

/// Of a new registry.
const AT_FIRST: [Asked; 1] = [("ISSUER", AskedText::Audit, Ok(""))];

/// On 5 April, with the certificates of three months.
const IN_APRIL: [Asked; 8] = [
    ("ISSUER", AskedText::Statement(1), Ok(wanted::STATEMENT)),
    ("SUN", AskedText::Statement(1), Ok(wanted::STATEMENT)),
    ("VOLT", AskedText::Statement(1), Err(ShowFault::NotAllowed)),
    ("ISSUER", AskedText::Statement(3), Err(ShowFault::Unknown)),
    ("SUN", AskedText::Holdings(1), Ok(wanted::HOLDINGS)),
    ("VOLT", AskedText::Holdings(1), Err(ShowFault::NotAllowed)),
    ("ISSUER", AskedText::Audit, Ok(wanted::AUDIT)),
    ("SUN", AskedText::Audit, Err(ShowFault::NotAllowed)),
];

/// While a hundred certificates are in the other account.
const GIVEN: [Asked; 1] = [("VOLT", AskedText::Statement(2), Ok(wanted::GIVEN))];

/// Once they are back.
const BACK: [Asked; 1] = [("SUN", AskedText::Statement(1), Ok(wanted::STATEMENT))];

/// Once ten are cancelled.
const CANCELLED: [Asked; 4] = [
    ("SUN", AskedText::Document(1), Ok(wanted::DOCUMENT)),
    ("VOLT", AskedText::Document(1), Err(ShowFault::NotAllowed)),
    ("ISSUER", AskedText::Document(2), Err(ShowFault::Unknown)),
    ("SUN", AskedText::Holdings(1), Ok(wanted::LEFT)),
];

/// The hundred certificates go back.
const RETURN: [Line; 1] = [(
    "VOLT",
    r#"{"command":"transfer","first":"07000000000100","giver":2,"key":"back","last":"07000000000199","taker":1}"#,
    r#"{"count":100}"#,
)];

/// What memory is asked for next is refused in turn, up to the next mark.
fn mark(rt: &impl Abort, alloc: Global) {
    let mut room = Vec::with_capacity(alloc, MARK).expect(rt, "room");
    room.push(0u8).expect(rt, "room");
    holds(rt, room.len() == 1, "a mark");
}

/// A caller.
fn caller(rt: &impl Abort, code: &str) -> HolderCode {
    HolderCode::read(code.as_bytes()).expect(rt, "a caller")
}

/// What a caller who asks is given.
fn given<S: Shelf>(
    alloc: Global,
    registry: &mut Registry<S>,
    caller: &HolderCode,
    text: AskedText,
    out: &mut Vec<u8>,
) -> Result<(), ShowFault> {
    match text {
        AskedText::Statement(account) => match AccountNo::new(account) {
            Some(account) => write_statement(registry, caller, account, out),
            None => Err(ShowFault::Unknown),
        },
        AskedText::Holdings(account) => match AccountNo::new(account) {
            Some(account) => write_holdings_csv(alloc, registry, caller, account, out),
            None => Err(ShowFault::Unknown),
        },
        AskedText::Document(act) => match ActNo::new(act) {
            Some(act) => write_cancellation(alloc, registry, caller, act, out),
            None => Err(ShowFault::Unknown),
        },
        AskedText::Audit => write_audit(alloc, registry, caller, out),
    }
}

/// A text is the one that is wanted; where memory was refused, the beginning of it.
fn is_text(rt: &impl Abort, written: Result<(), ShowFault>, text: &[u8], asked: &Asked) {
    let is_so = match (written, asked.2) {
        (Ok(()), Ok(wanted)) => text == wanted.as_bytes(),
        (Err(ShowFault::Memory), Ok(wanted)) => wanted.as_bytes().starts_with(text),
        (Err(ShowFault::Memory), Err(_)) => text.is_empty(),
        (Err(fault), Err(wanted)) => fault == wanted && text.is_empty(),
        _ => false,
    };
    holds(rt, is_so, asked.0)
}

/// A text that is asked for, at once or again after memory was refused.
fn gives<S: Shelf>(rt: &impl Abort, alloc: Global, registry: &mut Registry<S>, asked: &Asked) {
    let caller = caller(rt, asked.0);
    let mut text = Vec::with_capacity(alloc, ROOM).expect(rt, "room");
    mark(rt, alloc);
    let first = given(alloc, registry, &caller, asked.1, &mut text);
    mark(rt, alloc);
    is_text(rt, first, &text, asked);
    if first == Err(ShowFault::Memory) {
        text.clear();
        let again = given(alloc, registry, &caller, asked.1, &mut text);
        holds(rt, again != first, "memory again");
        is_text(rt, again, &text, asked);
    }
}

/// Texts that are asked for, in turn.
pub fn gives_all<S: Shelf>(
    rt: &impl Abort,
    alloc: Global,
    registry: &mut Registry<S>,
    asked: &[Asked],
) {
    for one in asked {
        gives(rt, alloc, registry, one);
    }
}

/// An import by the issuing body.
fn imported<S: Shelf>(
    rt: &impl Abort,
    alloc: Global,
    registry: &mut Registry<S>,
    table: &str,
) -> Result<Report, ImportFault> {
    import_declarations(
        alloc,
        registry,
        &caller(rt, "ISSUER"),
        &mut table.as_bytes(),
    )
}

/// A file without its header is no table.
fn lacks_header<S: Shelf>(rt: &impl Abort, alloc: Global, registry: &mut Registry<S>) {
    let stopped = imported(rt, alloc, registry, "");
    let is_so =
        matches!(&stopped, Err(fault) if fault.cause == Cause::Header && fault.report.lines.is_empty());
    holds(rt, is_so, "no header")
}

/// The report of an import; where memory was refused, that of the rows that stand.
fn report_of(rt: &impl Abort, imported: Result<Report, ImportFault>) -> Report {
    match imported {
        Ok(report) => {
            holds(rt, report.lines.len() == 3, "all rows");
            report
        }
        Err(ImportFault { report, cause }) => {
            holds(rt, cause == Cause::Memory, "memory is what is wanted");
            report
        }
    }
}

/// A report has this text.
fn is_report(rt: &impl Abort, alloc: Global, report: &Report, wanted: Option<&&str>) {
    let mut text = Vec::with_capacity(alloc, ROOM).expect(rt, "room");
    let written = write_report(report, &mut text);
    let is_so = matches!(wanted, Some(wanted) if text.as_slice() == wanted.as_bytes());
    holds(rt, written.is_ok() && is_so, "the report");
}

/// A table is imported, and comes again: the rows that stand are repeated, and the others accepted.
fn imports<S: Shelf>(rt: &impl Abort, alloc: Global, registry: &mut Registry<S>) {
    mark(rt, alloc);
    let first = imported(rt, alloc, registry, wanted::TABLE);
    mark(rt, alloc);
    let first = report_of(rt, first);
    let stand = first.lines.len();
    is_report(rt, alloc, &first, wanted::REPORTS.get(stand));
    let again = imported(rt, alloc, registry, wanted::TABLE);
    let again = report_of(rt, again);
    is_report(rt, alloc, &again, wanted::REPEATS.get(stand));
}

/// The requests of the script from one up to another.
fn sends<S: Shelf>(
    rt: &impl Abort,
    alloc: Global,
    registry: &mut Registry<S>,
    from: usize,
    to: usize,
) {
    plays(
        rt,
        alloc,
        registry,
        requests().get(from..to).expect(rt, "so many requests"),
        0,
    )
}

/// The certificates of three months, those of January and February by a table.
fn begins<S: Shelf>(rt: &impl Abort, alloc: Global, registry: &mut Registry<S>) {
    gives_all(rt, alloc, registry, &AT_FIRST);
    sends(rt, alloc, registry, 0, DEVICE);
    lacks_header(rt, alloc, registry);
    imports(rt, alloc, registry);
    sends(rt, alloc, registry, MARCH, APRIL)
}

/// A hundred certificates are given and given back, and ten are cancelled.
fn trades<S: Shelf>(rt: &impl Abort, alloc: Global, registry: &mut Registry<S>) {
    sends(rt, alloc, registry, APRIL, CANCELLATION);
    gives_all(rt, alloc, registry, &GIVEN);
    plays(rt, alloc, registry, &RETURN, 0);
    gives_all(rt, alloc, registry, &BACK);
    sends(rt, alloc, registry, CANCELLATION, END);
    gives_all(rt, alloc, registry, &CANCELLED)
}

/// The texts of a quarter, from a new registry on.
pub fn writes<S: Shelf>(rt: &impl Abort, alloc: Global, registry: &mut Registry<S>) {
    begins(rt, alloc, registry);
    gives_all(rt, alloc, registry, &IN_APRIL);
    trades(rt, alloc, registry)
}

/// A hundred certificates are given and given back, in April.
pub fn moves<S: Shelf>(rt: &impl Abort, alloc: Global, registry: &mut Registry<S>) {
    sends(rt, alloc, registry, 0, CANCELLATION);
    plays(rt, alloc, registry, &RETURN, 0)
}

/// All that was kept so: the requests are repeated, and the texts are those of April.
pub fn keeps<S: Shelf>(rt: &impl Abort, alloc: Global, registry: &mut Registry<S>) {
    let kept = requests()
        .get(..CANCELLATION)
        .expect(rt, "so many requests");
    plays(rt, alloc, registry, kept, CANCELLATION);
    plays(rt, alloc, registry, &RETURN, 1);
    gives_all(rt, alloc, registry, &IN_APRIL)
}

/// How many of the script's requests come before the first declaration.
const DEVICE: usize = 5;

/// Where the script moves the date on to April.
const MARCH: usize = 7;

/// Where the script's cancellation ends.
const END: usize = 12;

#[test]
fn of_a_quarter(rt: HostRuntime) {
    is_alike(&rt, rt.alloc(), 1, Act::Writes, "texts")
}
