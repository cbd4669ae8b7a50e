//! Requests that are sent, and what they are answered.

use crate::claims::holds;
use crate::script::Line;
use goo_core_shelf::shelf::Shelf;
use goo_desk_body::read_command;
use goo_desk_outcome::outcome_text;
use goo_registry::Registry;
use goo_types::fault::Fault;
use goo_types::holder_code::HolderCode;
use goo_types::outcome::Outcome;
use std::alloc::Global;
use std::process::Abort;

/// What a request of a caller comes to.
pub fn asks<S: Shelf>(
    rt: &impl Abort,
    alloc: Global,
    registry: &mut Registry<S>,
    caller: &str,
    body: &str,
) -> Result<Outcome, Fault> {
    let caller = HolderCode::read(caller.as_bytes()).expect(rt, "a holder");
    let request = read_command(alloc, &caller, body.as_bytes()).expect(rt, "a request");
    registry.apply(alloc, &request)
}

/// An outcome has this reply, in this word.
pub fn is_outcome(
    rt: &impl Abort,
    alloc: Global,
    outcome: Outcome,
    word: &str,
    reply: &str,
    what: &str,
) {
    let text = outcome_text(outcome);
    let wanted = format!(in alloc; "{{\"outcome\":\"{word}\",\"reply\":{reply}}}").expect(
        rt, "memory",
    );
    holds(rt, text.as_str() == wanted.as_str(), what)
}

/// The request of a line comes to its reply, in this word.
pub fn plays_one<S: Shelf>(
    rt: &impl Abort,
    alloc: Global,
    registry: &mut Registry<S>,
    line: &Line,
    word: &str,
) {
    let outcome = asks(rt, alloc, registry, line.0, line.1).expect(rt, "an outcome");
    is_outcome(rt, alloc, outcome, word, line.2, line.1)
}

/// The first lines are repeated, as many as are kept, and the others accepted.
pub fn plays<S: Shelf>(
    rt: &impl Abort,
    alloc: Global,
    registry: &mut Registry<S>,
    lines: &[Line],
    kept: usize,
) {
    for (at, line) in lines.iter().enumerate() {
        let word = if at < kept { "repeated" } else { "accepted" };
        plays_one(rt, alloc, registry, line, word);
    }
}
