//! The promise of the commands, and what follows of it.
//!
//! `run_in_files`, `run_in_memory`, `declare_in_files` and `serve_in_files` each have a clause
//! `promised`: what is promised after any list of requests (`IsPromised`) holds between the
//! registry before and after, of the requests of lines, rows or connections. The law here says that
//! then no certificate has moved but by right, what is final has stayed so, nothing was done past
//! its date, each class adds up, and an account of which nothing was named is as the date alone
//! makes it. `Registry::run` has the same facts as clauses of its own.
#![tactic(auto)]

ghost use Rattle.goo_desk_promised.specs.Also.{OfRequests, OfLines, OfRows, OfConnections};

/// The law, for any two states between which the promise holds, the first of which is sound, as a
/// registry's is that was made or opened.
///
/// - `requests`: of any requests within their limits;
/// - `lines`: of the requests that lines of text state, as `run` answers them. They are within
///   their limits, for their readers refuse others;
/// - `rows`: of the rows of a CSV of declarations, as `declare` imports them;
/// - `connections`: of the requests that connections leave applied, as `serve` answers them.
pub fn also_promised()
    ensures requests { OfRequests }
    ensures lines { OfLines }
    ensures rows { OfRows }
    ensures connections { OfConnections }
{}
