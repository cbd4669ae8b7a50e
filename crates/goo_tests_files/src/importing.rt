//! Declarations imported from CSV.

use crate::claims::holds;
use goo_core_shelf::shelf::Shelf;
use goo_files::{
    Cause, ImportFault, ImportWatcher, Report, import_declarations_watched, write_report,
};
use goo_registry::Registry;
use goo_types::holder_code::HolderCode;
use std::alloc::Global;
use std::process::Abort;

/// Three rows, the second of which can't be read.
pub const ROWS: &str =
    "key,device,first_day,last_day,gross_wh,aux_wh\nc1,500000000000000012,2025-01-01,2025-01-31,1000000,0\nc2,500000000000000012,2025-02-01,2025-02-14,12x,0\nc3,500000000000000012,2025-02-01,2025-02-28,5,0\n";

/// How far an import is.
#[derive(Clone, Copy)]
struct RowCounter {
    rows: u64,
    done: u64,
}

impl ImportWatcher for RowCounter {
    fn is_watched(&self) -> bool {
        true
    }

    fn begin(&mut self, rows: u64) {
        self.rows = rows;
    }

    fn advance(&mut self, rows: u64) {
        self.done = rows;
    }
}

/// An import by the issuing body, and how far it came.
fn imported<S: Shelf>(
    rt: &impl Abort,
    alloc: Global,
    registry: &mut Registry<S>,
    input: &str,
) -> (Result<Report, ImportFault>, RowCounter) {
    let issuer = HolderCode::read(b"ISSUER").expect(rt, "a caller");
    let mut reader = input.as_bytes();
    let mut counted = RowCounter { rows: 0, done: 0 };
    let report = import_declarations_watched(alloc, registry, &issuer, &mut reader, &mut counted);
    (report, counted)
}

/// An import comes to this report, and is told to its end.
pub fn reports<S: Shelf>(
    rt: &impl Abort,
    alloc: Global,
    registry: &mut Registry<S>,
    input: &str,
    rows: u64,
    wanted: &str,
) {
    let (report, counted) = imported(rt, alloc, registry, input);
    match report {
        Ok(report) => {
            let mut out = Vec::new(alloc);
            holds(rt, write_report(&report, &mut out).is_ok(), "written");
            holds(rt, out.as_slice() == wanted.as_bytes(), wanted);
            holds(rt, counted.rows == rows && counted.done == rows, "all rows");
        }
        Err(_) => panic!(rt; "an import that stopped"),
    }
}

/// An input without its header.
pub fn lacks_header<S: Shelf>(
    rt: &impl Abort,
    alloc: Global,
    registry: &mut Registry<S>,
    input: &str,
) {
    match imported(rt, alloc, registry, input) {
        (Err(fault), _) => holds(
            rt,
            fault.cause == Cause::Header && fault.report.lines.is_empty(),
            "no header",
        ),
        (Ok(_), _) => panic!(rt; "an import without a header"),
    }
}
