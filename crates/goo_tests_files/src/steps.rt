//! What is done to a new registry over lists, step by step.
//!
//! All of it goes through one function (`takes`): each further call of what is written over any
//! shelf, at a registry over lists, costs a check of this crate many seconds.

use crate::giving::{Asked, fails_to_write, gives_all};
use crate::importing::{lacks_header, reports};
use crate::requests::{SentLine, in_lists, sends};
use goo_core_shelf::shelf::Shelf;
use goo_registry::Registry;
use std::alloc::Global;
use std::process::Abort;

/// What is done.
#[derive(Clone, Copy)]
pub enum FileStep<'a> {
    /// Requests are sent, each of which is accepted.
    Sends(&'a [SentLine]),
    /// Texts are asked for.
    Gives(&'a [Asked]),
    /// An input without its header is imported.
    LacksHeader(&'a str),
    /// An input of so many rows is imported, which comes to this report.
    Reports(&'a str, u64, &'a str),
    /// A writer of a statement fails after so many bytes.
    FailsToWrite(usize),
}

/// A step is taken.
fn takes<S: Shelf>(
    rt: &impl Abort,
    alloc: Global,
    registry: &mut Registry<S>,
    step: &FileStep<'_>,
) {
    match step {
        FileStep::Sends(lines) => sends(rt, alloc, registry, lines),
        FileStep::Gives(asked) => gives_all(rt, alloc, registry, asked),
        FileStep::LacksHeader(input) => lacks_header(rt, alloc, registry, input),
        FileStep::Reports(input, rows, wanted) => reports(
            rt, alloc, registry, input, *rows, wanted,
        ),
        FileStep::FailsToWrite(room) => fails_to_write(rt, alloc, registry, *room),
    }
}

/// These steps are taken with a new registry over lists.
pub fn takes_all(rt: &impl Abort, alloc: Global, steps: &[FileStep<'_>]) {
    let mut registry = in_lists(rt, alloc);
    for step in steps {
        takes(rt, alloc, &mut registry, step);
    }
}
