//! What is done to a new registry over lists.
//!
//! All of it goes through one function (`works`): each further call of what is written over any
//! backend, at a registry over lists, costs a check of this crate many seconds.
use crate::asking::{
    Exchange, accepts_each, answers_each, begins_each, loses_a_taker, loses_senders,
    refuses_beginnings, serves_three,
};
use goo_core_list::list_shelf::ListShelf;
use goo_desk_backend::Backend;
use goo_registry::Registry;
use goo_types::day::Day;
use goo_types::registry_code::RegistryCode;
use goo_types::serial::Serial;
use std::alloc::Global;
use std::process::Abort;

/// What is done.
#[derive(Clone, Copy)]
pub enum Trial<'a> {
    /// These requests are accepted, and the others then answered with just this.
    Answers(&'a [&'static str], &'a [Exchange]),
    /// Each of these is answered with this first line.
    Begins(&'a [Exchange]),
    /// Each beginning of a request is refused.
    RefusesBeginnings,
    /// Three clients are served.
    ServesThree,
    /// Clients break off while they send.
    LosesSenders,
    /// A client breaks off after so many bytes of its answer.
    LosesATaker(usize),
}

/// This is done.
fn works<D: Backend>(rt: &impl Abort, alloc: Global, desk: &mut D, trial: &Trial<'_>) {
    match trial {
        Trial::Answers(before, asked) => {
            accepts_each(rt, alloc, desk, before);
            answers_each(rt, alloc, desk, asked)
        }
        Trial::Begins(asked) => begins_each(rt, alloc, desk, asked),
        Trial::RefusesBeginnings => refuses_beginnings(rt, alloc, desk),
        Trial::ServesThree => serves_three(rt, alloc, desk),
        Trial::LosesSenders => loses_senders(rt, alloc, desk),
        Trial::LosesATaker(room) => loses_a_taker(rt, alloc, desk, *room),
    }
}

/// A new registry.
pub fn new_registry(rt: &impl Abort, alloc: Global) -> Registry<ListShelf> {
    let code = RegistryCode::new(7).expect(rt, "a code");
    let serial = Serial::new(1).expect(rt, "a serial");
    let today = Day::read(b"2025-03-01").expect(rt, "a day");
    Registry::new(ListShelf::new(alloc, code, serial, today))
}

/// This is done to a new registry over lists.
pub fn does(rt: &impl Abort, alloc: Global, trial: &Trial<'_>) {
    let mut registry = new_registry(rt, alloc);
    works(rt, alloc, &mut registry, trial)
}
