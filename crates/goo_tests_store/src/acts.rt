//! What is asked of a registry over any shelf, and what that comes to.
//!
//! All of it goes through one function (`works`): each further call of what is written over any
//! shelf, at a shelf of tables, costs a check of this crate several seconds.

use crate::account_runs::shows_runs;
use crate::asking::plays;
use crate::carriers::{carries, trades_carriers};
use crate::claims::holds;
use crate::found::{MEMBERS, finds_members, finds_nothing};
use crate::parts::sends_parts;
use crate::registries::begun_in_lists;
use crate::script::{Line, requests};
use crate::sight::sight;
use crate::stops::{answers_or_stops, goes_on_from, sights_of};
use crate::texts::{keeps, moves, writes};
use crate::worked::{Case, answers, runs};
use goo_core_shelf::shelf::Shelf;
use goo_registry::Registry;
use goo_store_open::fault::OpenFault;
use std::alloc::Global;
use std::process::Abort;

/// What is asked of a registry.
#[derive(Clone, Copy)]
pub enum Act<'a> {
    /// Nothing.
    Rests,
    /// Requests, the first of which are repeated, as many as are kept, and the others accepted.
    Sends(&'a [Line], usize),
    /// A case, in a list or one request at a time.
    Plays(&'a Case, bool),
    /// A notice of a hundred parts, after one of more that is refused.
    SendsParts,
    /// Nothing, and its shelf finds nothing.
    FindsNothing,
    /// Its members, whom its shelf finds then.
    FindsMembers,
    /// The requests up to a transfer, and the giver's account run by run.
    ShowsRuns,
    /// The requests up to a cancellation, the declarations among them by a table, and the texts
    /// that people are given.
    Writes,
    /// The requests up to a cancellation, and its transfer back.
    Moves,
    /// The same once more, and the texts that people are given then.
    Keeps,
    /// Certificates of each carrier, and what is held then.
    Carries,
    /// After these, the hydrogen out and back, and more of it.
    TradesCarriers,
    /// All requests, and what it shows before the first and after each is told.
    Sights,
    /// All requests, up to the first `Store`.
    Runs,
    /// What it has not kept of all requests, after so many answers and a stop: it shows one of
    /// these first.
    GoesOn(usize, &'a [String]),
}

/// What is done comes to this.
#[derive(Drop)]
pub enum Done {
    /// A registry shows this.
    Shown(String),
    /// A registry showed this, before the first request and after each.
    Sighted(Vec<String>),
    /// So many requests were answered.
    Answered(usize),
    /// There is no registry, and why.
    Refused(OpenFault),
    /// The tables were changed, or asked for rows.
    All,
    /// No database was opened.
    Unopened,
}

impl Done {
    /// What a registry shows.
    pub fn into_text(self, rt: &impl Abort) -> String {
        match self {
            Done::Shown(shown) => shown,
            _ => panic!(rt; "nothing is shown"),
        }
    }

    /// A registry shows this.
    pub fn is_shown(&self, rt: &impl Abort, wanted: &str) {
        let is_so = matches!(self, Done::Shown(shown) if shown.as_str() == wanted);
        holds(rt, is_so, wanted)
    }

    /// Why there is no registry, if there is none.
    pub fn word(&self, rt: &impl Abort) -> Option<OpenFault> {
        match self {
            Done::Shown(_) => None,
            Done::Refused(fault) => Some(*fault),
            _ => panic!(rt; "a database that isn't opened"),
        }
    }
}

/// What a registry is asked, where no more is told of it than what it shows then.
fn asks_for<S: Shelf>(rt: &impl Abort, alloc: Global, registry: &mut Registry<S>, act: &Act<'_>) {
    match act {
        Act::Sends(lines, kept) => plays(rt, alloc, registry, lines, *kept),
        Act::Plays(case, false) => answers(rt, alloc, registry, case),
        Act::Plays(case, true) => runs(rt, alloc, registry, case),
        Act::SendsParts => sends_parts(rt, alloc, registry),
        Act::ShowsRuns => shows_runs(rt, alloc, registry),
        Act::Writes => writes(rt, alloc, registry),
        Act::Moves => moves(rt, alloc, registry),
        Act::Keeps => keeps(rt, alloc, registry),
        Act::Carries => carries(rt, alloc, registry),
        Act::TradesCarriers => trades_carriers(rt, alloc, registry),
        Act::FindsMembers => answers(rt, alloc, registry, &MEMBERS),
        Act::GoesOn(answered, wanted) => goes_on_from(rt, alloc, registry, *answered, wanted),
        _ => (),
    }
}

/// A registry is asked, and tells or shows what came of it.
fn acts<S: Shelf>(
    rt: &impl Abort,
    alloc: Global,
    registry: &mut Registry<S>,
    act: &Act<'_>,
) -> Done {
    match act {
        Act::Sights => Done::Sighted(sights_of(rt, alloc, registry)),
        Act::Runs => Done::Answered(answers_or_stops(rt, alloc, registry)),
        _ => {
            asks_for(rt, alloc, registry, act);
            Done::Shown(sight(rt, alloc, registry))
        }
    }
}

/// What a registry's shelf finds then.
fn finds<S: Shelf>(rt: &impl Abort, alloc: Global, shelf: &mut S, act: &Act<'_>) {
    match act {
        Act::FindsNothing => finds_nothing(rt, alloc, shelf),
        Act::FindsMembers => finds_members(rt, alloc, shelf),
        _ => (),
    }
}

/// A call of a shelf was refused only where not all requests were answered.
fn has_refused(rt: &impl Abort, refused: u64, done: &Done) {
    let wanted = match done {
        Done::Answered(answered) => u64::from(*answered < requests().len()),
        _ => 0,
    };
    holds(rt, refused == wanted, "calls that were refused");
}

/// What comes of what a registry is asked, and its shelf then.
pub fn works<S: Shelf>(
    rt: &impl Abort,
    alloc: Global,
    registry: Registry<S>,
    act: &Act<'_>,
) -> (Done, S) {
    let mut registry = registry;
    let done = acts(rt, alloc, &mut registry, act);
    let mut shelf = registry.into_shelf();
    finds(rt, alloc, &mut shelf, act);
    has_refused(rt, shelf.refused_calls(), &done);
    (done, shelf)
}

/// What comes of what a new registry in plain lists is asked.
pub fn done_by_lists(rt: &impl Abort, alloc: Global, serial: u64, act: &Act<'_>) -> Done {
    let (done, _shelf) = works(rt, alloc, begun_in_lists(rt, alloc, serial), act);
    done
}
