//! Requests as texts, and what they must come to.

use crate::claims::holds;
use crate::desk::TestDesk;
use crate::values::{account_of, holder_of};
use goo_desk_body::read_command;
use goo_desk_outcome::outcome_text;
use goo_types::command::Command;
use goo_types::outcome::Outcome;
use goo_types::piece::Piece;
use goo_types::place::Place;
use goo_types::request::Request;
use std::alloc::Global;
use std::process::Abort;

/// The issuing body.
pub const ISSUER: &str = "ISSUER";
/// The holder of account 1.
pub const SUN: &str = "SUN";
/// The holder of account 2.
pub const VOLT: &str = "VOLT";

/// Who asks what, and what that is answered.
pub type AskedLine = (&'static str, &'static str, &'static str);

/// The request of a caller's text.
pub fn request_of(rt: &impl Abort, alloc: Global, caller: &str, body: &str) -> Request {
    let caller = holder_of(rt, caller);
    read_command(alloc, &caller, body.as_bytes()).expect(rt, "a request")
}

/// The outcome has this text.
pub fn is_outcome(rt: &impl Abort, outcome: Outcome, wanted: &str) {
    let text = outcome_text(outcome);
    holds(rt, text.as_str() == wanted, wanted);
}

/// Runs of certificates are these: first and last serial, and place.
pub fn runs_are(rt: &impl Abort, runs: &[Piece], wanted: &[(u64, u64, Place)]) {
    holds(rt, runs.len() == wanted.len(), "as many runs");
    for (run, (first, last, place)) in runs.iter().zip(wanted) {
        holds(
            rt,
            run.first.serial() == *first && run.last.serial() == *last && run.place == *place,
            "a run as it is wanted",
        );
    }
}

impl TestDesk {
    /// What a request comes to.
    pub fn asks(&mut self, rt: &impl Abort, caller: &str, body: &str) -> Outcome {
        let request = request_of(rt, self.alloc(), caller, body);
        self.apply(&request).expect(rt, "an outcome")
    }

    /// What a command comes to that is sent under a key of its own.
    pub fn sends(&mut self, rt: &impl Abort, caller: &str, command: Command) -> Outcome {
        let key = self.next_key(rt);
        let caller = holder_of(rt, caller);
        let request = Request {
            caller,
            key,
            command,
        };
        self.apply(&request).expect(rt, "an outcome")
    }

    /// Each line in order.
    pub fn plays(&mut self, rt: &impl Abort, lines: &[AskedLine]) {
        for (caller, body, wanted) in lines {
            let outcome = self.asks(rt, caller, body);
            is_outcome(rt, outcome, wanted);
        }
    }

    /// The issuing body is shown these runs of an account.
    pub fn shows(&mut self, rt: &impl Abort, account: u32, wanted: &[(u64, u64, Place)]) {
        let issuer = holder_of(rt, ISSUER);
        let account = account_of(rt, account);
        let runs = self.holdings(&issuer, account).expect(rt, "runs");
        runs_are(rt, &runs, wanted)
    }
}
